//! What is asked for by the names of a kind and of a module.
ghost use Rattle.std.specs.Prelude.{◌≡◌, ◌↔◌, None, Some, IfOk, IfErr, IsTrue};
ghost use Rattle.session_texts.specs.pipsmake_rules.Kinds.{kind_with};
ghost use Rattle.pipsmake_db.specs.Refusals.{of_kind, name_refusal, graph_refusal, owner_refusal, show_refusal};
ghost use Rattle.pipsmake_db.specs.Asked.{IsAsked, refused_unless};

use crate::linked::Linked;
use crate::refusal::DbRefusal;
use fx_lists::Text;
use session_texts::pipsmake_rules::Kind;

/// Whether there is a module of this name.
#[tactic(auto, using(crate::proofs::AskedLaws::named))]
fn has_module(linked: &Linked, name: &Text) -> bool
    ensures { name_refusal linked.now name.now ≡ refused_unless result DbRefusal.NoSuchName }
{
    linked.sources().place(name).is_some()
}

/// Whether this is the name of the graph.
fn is_graph(name: &Text) -> bool
    ensures { graph_refusal name.now ≡ refused_unless result DbRefusal.NoSuchName }
{
    name.as_slice() == b"*".as_slice()
}

/// Whether a kind has results of this name.
fn has_owner(linked: &Linked, kind: Kind, name: &Text) -> bool
    ensures { owner_refusal linked.now kind name.now ≡ refused_unless result DbRefusal.NoSuchName }
{
    match kind {
        Kind::CallGraph => is_graph(name),
        Kind::Parsed
        | Kind::Lines
        | Kind::Symbols
        | Kind::Effects
        | Kind::Transformers
        | Kind::Preconditions
        | Kind::Regions
        | Kind::InRegions
        | Kind::OutRegions
        | Kind::Marks
        | Kind::Printed => has_module(linked, name),
    }
}

/// Whether results of a kind are shown.
pub(crate) fn is_shown(kind: Kind) -> bool
    ensures { show_refusal kind ≡ refused_unless result DbRefusal.NotShown }
{
    match kind {
        Kind::Parsed | Kind::Lines | Kind::Symbols | Kind::CallGraph => false,
        Kind::Effects
        | Kind::Transformers
        | Kind::Preconditions
        | Kind::Regions
        | Kind::InRegions
        | Kind::OutRegions
        | Kind::Marks
        | Kind::Printed => true,
    }
}

/// The kind of a name.
fn kind_named(kind: &Text) -> Option<Kind>
    ensures { result ≡ kind_with kind.now }
{
    Kind::with_name(kind.as_slice())
}

/// The kind of a name, where it has results of this other name.
pub(crate) fn kind_asked(linked: &Linked, kind: &Text, name: &Text) -> Result<Kind, DbRefusal>
    ensures ok { IfOk result (IsAsked linked.now kind.now name.now) }
    ensures refused { IfErr result (λ r. of_kind (λ k. owner_refusal linked.now k name.now) (kind_with kind.now) ≡ Some r) }
{
    let Some(kind) = kind_named(kind) else {
        return Err(DbRefusal::NoSuchKind);
    };
    if !has_owner(linked, kind, name) {
        return Err(DbRefusal::NoSuchName);
    }
    Ok(kind)
}
