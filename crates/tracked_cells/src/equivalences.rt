//! The names in the EQUIVALENCE statements of a module.
ghost use Rattle.std.specs.Prelude.{◌≡◌, ◌++◌, map, IfOk};
ghost use Rattle.f77_ast.specs.Plain.{expr_tree};
ghost use Rattle.f77_ast.specs.PlainDecl.{decl_tree, module_tree, parsed_tree};
ghost use Rattle.tracked_cells.specs.Equivalences.{item_name, item_names, group_names, decl_names, equivalenced_names};
ghost use Rattle.tracked_cells.specs.Untracked.{equivalenced_names_of_all};

use crate::names::Names;
use f77_ast::{Decl, Expr, Module, Parsed};
use fx_lists::List;
use std::alloc::{AllocError as Memory, Global};

#[tactic(auto, using(f77_ast::proofs::Plainly::expr_appends))]
fn add_item(names: &mut Names, alloc: Global, e: &Expr) -> Result<(), Memory>
    ensures { IfOk result (λ _. names.new ≡ names.old ++ item_name (expr_tree e.now)) }
{
    match e {
        Expr::Name(name) | Expr::Element(name, _) => names.push(alloc, name),
        Expr::Int(_)
        | Expr::Log(_)
        | Expr::Paren(_)
        | Expr::Unary(..)
        | Expr::Binary(..)
        | Expr::Chars(_) => Ok(()),
    }
}

fn add_items(names: &mut Names, alloc: Global, items: &List<Expr>) -> Result<(), Memory>
    ensures { IfOk result (λ _. names.new ≡ names.old ++ item_names (map expr_tree items.now)) }
{
    let mut rest = items.as_slice();
    while let [item, more @ ..] = rest {
        add_item(names, alloc, item)?;
        rest = more;
    }
    Ok(())
}

fn add_groups(names: &mut Names, alloc: Global, groups: &List<List<Expr>>) -> Result<(), Memory>
    ensures { IfOk result (λ _. names.new ≡ names.old ++ group_names (map (map expr_tree) groups.now)) }
{
    let mut rest = groups.as_slice();
    while let [items, more @ ..] = rest {
        add_items(names, alloc, items)?;
        rest = more;
    }
    Ok(())
}

fn add_decl(names: &mut Names, alloc: Global, decl: &Decl) -> Result<(), Memory>
    ensures { IfOk result (λ _. names.new ≡ names.old ++ decl_names (decl_tree decl.now)) }
{
    match decl {
        Decl::Equivalence(groups) => add_groups(names, alloc, groups),
        Decl::Implicit(_)
        | Decl::Integer(_)
        | Decl::Logical(_)
        | Decl::Dimension(_)
        | Decl::Parameter(_)
        | Decl::Common(_)
        | Decl::Save(_)
        | Decl::Data(_) => Ok(()),
    }
}

/// The names in the EQUIVALENCE statements of a module, in the order of the text, with repeats.
pub fn equivalenced_names(alloc: Global, module: &Module) -> Result<Names, Memory>
    ensures { IfOk result (λ names. names ≡ equivalenced_names (module_tree «module».now)) }
{
    let mut names = Names::new(alloc);
    let mut rest = module.decls.as_slice();
    while let [decl, more @ ..] = rest {
        add_decl(&mut names, alloc, decl)?;
        rest = more;
    }
    Ok(names)
}

/// For each module, in their order, the names in its EQUIVALENCE statements, with repeats.
pub fn equivalenced_names_of_all(
    alloc: Global,
    modules: &List<Parsed>,
) -> Result<List<Names>, Memory>
    ensures { IfOk result (λ all. all ≡ equivalenced_names_of_all (map parsed_tree modules.now)) }
{
    let mut all = List::new(alloc);
    let mut rest = modules.as_slice();
    while let [parsed, more @ ..] = rest {
        all.push(equivalenced_names(alloc, &parsed.module)?)?;
        rest = more;
    }
    Ok(all)
}
