//! The variables of which each iteration may have its own copy by their names.
ghost use Rattle.std.specs.Prelude.{◌≡◌, map, bytes_eq};
ghost use Rattle.std.specs.List.{list_any};
ghost use Rattle.f77_ast.specs.Plain.{expr_tree};
ghost use Rattle.f77_ast.specs.PlainDecl.{decl_tree, module_tree};
ghost use Rattle.f77_ast.specs.Symbols.{symbol_tree};
ghost use Rattle.tracked_cells.specs.Equivalences.{item_name, item_names, group_names, decl_names};
ghost use Rattle.privatizer.specs.Names.{is_equivalenced as is_equivalenced_is, is_own as is_own_is, may_copy as may_copy_is};

use call_graph::{View, is_local};
use f77_ast::{Decl, Expr, Module, Symbol, Variable};
use fx_lists::{List, Text};

/// Whether an item of an EQUIVALENCE group is of this name.
#[tactic(auto, using(f77_ast::proofs::Plainly::expr_appends))]
fn names(name: &Text, item: &Expr) -> bool
    ensures { result ≡ list_any (bytes_eq name.now) (item_name (expr_tree item.now)) }
{
    match item {
        Expr::Name(x) | Expr::Element(x, _) => name == x,
        Expr::Int(_)
        | Expr::Log(_)
        | Expr::Paren(_)
        | Expr::Unary(..)
        | Expr::Binary(..)
        | Expr::Chars(_) => false,
    }
}

#[tactic(auto, using(crate::proofs::NameSteps::name_loops))]
fn is_in_items(name: &Text, items: &List<Expr>) -> bool
    ensures { result ≡ list_any (bytes_eq name.now) (item_names (map expr_tree items.now)) }
{
    let mut rest = items.as_slice();
    while let [item, more @ ..] = rest {
        if names(name, item) {
            return true;
        }
        rest = more;
    }
    false
}

#[tactic(auto, using(crate::proofs::NameSteps::name_loops))]
fn is_in_groups(name: &Text, groups: &List<List<Expr>>) -> bool
    ensures { result ≡ list_any (bytes_eq name.now) (group_names (map (map expr_tree) groups.now)) }
{
    let mut rest = groups.as_slice();
    while let [items, more @ ..] = rest {
        if is_in_items(name, items) {
            return true;
        }
        rest = more;
    }
    false
}

fn is_in_decl(name: &Text, decl: &Decl) -> bool
    ensures { result ≡ list_any (bytes_eq name.now) (decl_names (decl_tree decl.now)) }
{
    match decl {
        Decl::Equivalence(groups) => is_in_groups(name, groups),
        Decl::Implicit(_)
        | Decl::Integer(_)
        | Decl::Logical(_)
        | Decl::Dimension(_)
        | Decl::Parameter(_)
        | Decl::Common(_)
        | Decl::Save(_)
        | Decl::Data(_) => false,
    }
}

/// Whether a name is in an EQUIVALENCE of a module (ANSI X3.9-1978, §8.2).
#[tactic(auto, using(crate::proofs::NameSteps::name_loops))]
fn is_equivalenced(module: &Module, name: &Text) -> bool
    ensures { result ≡ is_equivalenced_is (module_tree «module».now) name.now }
{
    let mut rest = module.decls.as_slice();
    while let [decl, more @ ..] = rest {
        if is_in_decl(name, decl) {
            return true;
        }
        rest = more;
    }
    false
}

fn is_own(module: &Module, symbol: &Symbol) -> bool
    ensures { result ≡ is_own_is (module_tree «module».now) (symbol_tree symbol.now) }
{
    is_local(&symbol.place) && (!symbol.saved && !is_equivalenced(module, &symbol.name))
}

/// Whether the name of a variable allows copies of it: it is a local of the module, it is not saved or in DATA, also by another variable of its
/// storage, and it is in no EQUIVALENCE.
pub fn may_copy(view: &View<'_>, v: &Variable) -> bool
    ensures { result ≡ may_copy_is (module_tree view.now.«module».now) (map symbol_tree view.now.symbols.now) v.now }
{
    match v {
        Variable::Own(number) => match view.symbols.symbol(*number) {
            None => false,
            Some(symbol) => is_own(view.module, symbol),
        },
        Variable::Block(_) | Variable::Saved(..) => false,
    }
}
