//! What a specification statement of one form has.
ghost use Rattle.std.specs.Prelude.{◌≡◌, map, option_copied, option_map};
ghost use Rattle.f77_ast.specs.Plain.{expr_tree};
ghost use Rattle.f77_ast.specs.PlainDecl.{decl_tree, entity_tree, setting_tree, common_tree, data_tree};
ghost use Rattle.same_values.specs.DeclTests.{implicit_in, integer_in, logical_in, dimension_in, parameter_in, common_in, equivalence_in, save_in, initial_in};

use f77_ast::{CommonPart, DataGroup, Decl, Entity, Expr, ImplicitPart, SaveItem, Setting};
use fx_lists::List;

/// The parts of IMPLICIT.
pub fn implicit_of(decl: &Decl) -> Option<&Option<List<ImplicitPart>>>
    ensures { option_copied result ≡ implicit_in (decl_tree decl.now) }
{
    match decl {
        Decl::Implicit(x) => Some(x),
        Decl::Integer(_)
        | Decl::Logical(_)
        | Decl::Dimension(_)
        | Decl::Parameter(_)
        | Decl::Common(_)
        | Decl::Equivalence(_)
        | Decl::Save(_)
        | Decl::Data(_) => None,
    }
}

/// The names of INTEGER.
pub fn integer_of(decl: &Decl) -> Option<&List<Entity>>
    ensures { option_map (λ es. map entity_tree es.now) result ≡ integer_in (decl_tree decl.now) }
{
    match decl {
        Decl::Integer(x) => Some(x),
        Decl::Implicit(_)
        | Decl::Logical(_)
        | Decl::Dimension(_)
        | Decl::Parameter(_)
        | Decl::Common(_)
        | Decl::Equivalence(_)
        | Decl::Save(_)
        | Decl::Data(_) => None,
    }
}

/// The names of LOGICAL.
pub fn logical_of(decl: &Decl) -> Option<&List<Entity>>
    ensures { option_map (λ es. map entity_tree es.now) result ≡ logical_in (decl_tree decl.now) }
{
    match decl {
        Decl::Logical(x) => Some(x),
        Decl::Implicit(_)
        | Decl::Integer(_)
        | Decl::Dimension(_)
        | Decl::Parameter(_)
        | Decl::Common(_)
        | Decl::Equivalence(_)
        | Decl::Save(_)
        | Decl::Data(_) => None,
    }
}

/// The arrays of DIMENSION.
pub fn dimension_of(decl: &Decl) -> Option<&List<Entity>>
    ensures { option_map (λ es. map entity_tree es.now) result ≡ dimension_in (decl_tree decl.now) }
{
    match decl {
        Decl::Dimension(x) => Some(x),
        Decl::Implicit(_)
        | Decl::Integer(_)
        | Decl::Logical(_)
        | Decl::Parameter(_)
        | Decl::Common(_)
        | Decl::Equivalence(_)
        | Decl::Save(_)
        | Decl::Data(_) => None,
    }
}

/// The names and values of PARAMETER.
pub fn parameter_of(decl: &Decl) -> Option<&List<Setting>>
    ensures { option_map (λ ss. map setting_tree ss.now) result ≡ parameter_in (decl_tree decl.now) }
{
    match decl {
        Decl::Parameter(x) => Some(x),
        Decl::Implicit(_)
        | Decl::Integer(_)
        | Decl::Logical(_)
        | Decl::Dimension(_)
        | Decl::Common(_)
        | Decl::Equivalence(_)
        | Decl::Save(_)
        | Decl::Data(_) => None,
    }
}

/// The blocks of COMMON.
pub fn common_of(decl: &Decl) -> Option<&List<CommonPart>>
    ensures { option_map (λ cs. map common_tree cs.now) result ≡ common_in (decl_tree decl.now) }
{
    match decl {
        Decl::Common(x) => Some(x),
        Decl::Implicit(_)
        | Decl::Integer(_)
        | Decl::Logical(_)
        | Decl::Dimension(_)
        | Decl::Parameter(_)
        | Decl::Equivalence(_)
        | Decl::Save(_)
        | Decl::Data(_) => None,
    }
}

/// The groups of EQUIVALENCE.
pub fn equivalence_of(decl: &Decl) -> Option<&List<List<Expr>>>
    ensures { option_map (λ gs. map (map expr_tree) gs.now) result ≡ equivalence_in (decl_tree decl.now) }
{
    match decl {
        Decl::Equivalence(x) => Some(x),
        Decl::Implicit(_)
        | Decl::Integer(_)
        | Decl::Logical(_)
        | Decl::Dimension(_)
        | Decl::Parameter(_)
        | Decl::Common(_)
        | Decl::Save(_)
        | Decl::Data(_) => None,
    }
}

/// The items of SAVE.
pub fn save_of(decl: &Decl) -> Option<&List<SaveItem>>
    ensures { option_copied result ≡ save_in (decl_tree decl.now) }
{
    match decl {
        Decl::Save(x) => Some(x),
        Decl::Implicit(_)
        | Decl::Integer(_)
        | Decl::Logical(_)
        | Decl::Dimension(_)
        | Decl::Parameter(_)
        | Decl::Common(_)
        | Decl::Equivalence(_)
        | Decl::Data(_) => None,
    }
}

/// The groups of DATA.
pub fn initial_of(decl: &Decl) -> Option<&List<DataGroup>>
    ensures { option_map (λ gs. map data_tree gs.now) result ≡ initial_in (decl_tree decl.now) }
{
    match decl {
        Decl::Data(x) => Some(x),
        Decl::Implicit(_)
        | Decl::Integer(_)
        | Decl::Logical(_)
        | Decl::Dimension(_)
        | Decl::Parameter(_)
        | Decl::Common(_)
        | Decl::Equivalence(_)
        | Decl::Save(_) => None,
    }
}
