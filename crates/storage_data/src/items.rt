//! Items of EQUIVALENCE and DATA: names and elements with constant subscripts (ANSI X3.9-1978 §8.2.3, §9.2).
ghost use Rattle.std.specs.Prelude.{◌≡◌, IfOk, map};
ghost use Rattle.std.specs.Option.{option_copied};
ghost use Rattle.f77_ast.specs.Plain.{expr_tree, expr_trees};
ghost use Rattle.f77_names.specs.Entries.{has_shape};
ghost use Rattle.f77_names.specs.Views.{table_tree};
ghost use Rattle.storage_data.specs.Items.{both, element_fault, item_fault, item_name, item_position, check_items};

use crate::positions::element_position;
use f77_ast::Expr;
use f77_checks::{check_element, check_subscripts};
use f77_names::NameTable;
use fx_lists::{Code, List, Refusal, Text, refuse_if};
use std::alloc::{AllocError as Memory, Global};

/// The name of an item: of a variable, of a whole array or of the array of an element. None of any other expression.
#[tactic(auto, using(f77_ast::proofs::Plainly::expr_cases))]
pub fn item_name(item: &Expr) -> Option<&Text>
    ensures { option_copied result ≡ item_name (expr_tree item.now) }
{
    match item {
        Expr::Name(name) | Expr::Element(name, _) => Some(name),
        Expr::Int(_)
        | Expr::Log(_)
        | Expr::Paren(_)
        | Expr::Unary(..)
        | Expr::Binary(..)
        | Expr::Chars(_) => None,
    }
}

fn element_fault(table: &NameTable, name: &Text, es: &List<Expr>, line: u32) -> Option<Refusal>
    ensures { result
        ≡ element_fault (has_shape name.now (table_tree table.now).entries) (table_tree table.now) name.now (expr_trees es.now) line }
{
    if table.names.is_array(name) {
        check_element(table, name, es, line, None)
    } else {
        let found = check_subscripts(table, es, line, None);
        refuse_if(true, line, Code::NotAnArray, found)
    }
}

/// The first refusal of an item by itself, at this line: of a subscripted name that is no array, or of the subscripts. A name
/// without subscripts has none, nor has any other expression.
#[tactic(auto, using(f77_ast::proofs::Plainly::expr_cases))]
pub fn item_fault(table: &NameTable, item: &Expr, line: u32) -> Option<Refusal>
    ensures { result ≡ item_fault (table_tree table.now) (expr_tree item.now) line }
{
    match item {
        Expr::Element(name, es) => element_fault(table, name, es, line),
        Expr::Name(_)
        | Expr::Int(_)
        | Expr::Log(_)
        | Expr::Paren(_)
        | Expr::Unary(..)
        | Expr::Binary(..)
        | Expr::Chars(_) => None,
    }
}

/// The first of two refusals.
fn both(one: Option<Refusal>, found: Option<Refusal>) -> Option<Refusal>
    ensures { result ≡ both one found }
{
    match one {
        None => found,
        Some(refusal) => refuse_if(true, refusal.line, refusal.code, found),
    }
}

/// The first of this refusal and of those of the items by themselves, which are at this line.
#[tactic(auto, using(f77_ast::proofs::PlainlyDecl::decl_lists))]
pub fn check_items(
    table: &NameTable,
    items: &[Expr],
    line: u32,
    mut found: Option<Refusal>,
) -> Option<Refusal>
    ensures { result ≡ check_items (table_tree table.now) (map expr_tree items.now) line found }
{
    for item in items {
        found = both(item_fault(table, item, line), found);
    }
    found
}

/// The unit of an item in its variable, from 0. None where a subscript is not constant, faults or is out of bounds, where the
/// bounds are unknown, and for an expression that is no item.
#[tactic(auto, using(f77_ast::proofs::Plainly::expr_cases))]
pub fn item_position(alloc: Global, table: &NameTable, item: &Expr) -> Result<Option<u64>, Memory>
    ensures { IfOk result (λ r. r ≡ item_position (table_tree table.now) (expr_tree item.now)) }
{
    match item {
        Expr::Name(_) => Ok(Some(0)),
        Expr::Element(name, es) => element_position(alloc, table, name, es),
        Expr::Int(_)
        | Expr::Log(_)
        | Expr::Paren(_)
        | Expr::Unary(..)
        | Expr::Binary(..)
        | Expr::Chars(_) => Ok(None),
    }
}
