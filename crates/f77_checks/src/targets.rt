//! What is assigned or read, actual arguments, and items of PRINT. `line` is that of the statement, and `found` the first refusal
//! before.
ghost use Rattle.std.specs.Prelude.{◌≡◌};
ghost use Rattle.f77_ast.specs.Plain.{expr_tree, expr_trees};
ghost use Rattle.f77_ast.specs.Trees.{name};
ghost use Rattle.f77_names.specs.Entries.{is_parameter};
ghost use Rattle.f77_names.specs.Functions.{function_of};
ghost use Rattle.f77_names.specs.Views.{table_tree};
ghost use Rattle.f77_checks.specs.Expressions.{sort_of};
ghost use Rattle.f77_checks.specs.Statements.{check_actual, check_actuals, bare_actual, element_written, check_item, check_items, name_written, no_chars, check_target, target_sort, check_targets, unknown_or};

use crate::expressions::{check_element, check_expr, check_name, check_subscripts};
use crate::sort::{Sort, named_sort, sort_of};
use f77_ast::Expr;
use f77_names::{Function, NameTable};
use fx_lists::{Code, List, Refusal, Text, refuse_if};

/// The type of a name that is written to, which is not asked of a function.
fn unknown_or(function: Option<Function>, sort: Sort) -> Sort
    ensures { result ≡ unknown_or function sort }
{
    match function {
        None => sort,
        Some(_) => Sort::Unknown,
    }
}

/// The type of what is assigned or read; unknown for the name of a function, which is refused elsewhere.
#[tactic(auto, using(f77_ast::proofs::Plainly::expr_cases))]
pub fn target_sort(table: &NameTable, e: &Expr) -> Sort
    ensures { result ≡ target_sort (table_tree table.now) (expr_tree e.now) }
{
    let sort = sort_of(table, e);
    match e {
        Expr::Name(name) | Expr::Element(name, _) => unknown_or(table.function_of(name), sort),
        Expr::Int(_)
        | Expr::Log(_)
        | Expr::Paren(_)
        | Expr::Unary(..)
        | Expr::Binary(..)
        | Expr::Chars(_) => sort,
    }
}

fn is_parameter(table: &NameTable, name: &Text) -> bool
    ensures { result ≡ is_parameter name.now (table_tree table.now).entries }
{
    match table.names.find(name) {
        None => false,
        Some(entry) => entry.parameter,
    }
}

/// Refuses a name without subscripts that is assigned or read where it is a function or a PARAMETER (`AssignToConstant`) or an
/// array (`NotAnArray`).
pub fn name_written(
    table: &NameTable,
    name: &Text,
    line: u32,
    found: Option<Refusal>,
) -> Option<Refusal>
    ensures { result ≡ name_written (function_of table.now.arrays name.now) (table_tree table.now) name.now line found }
{
    match table.function_of(name) {
        Some(_) => refuse_if(true, line, Code::AssignToConstant, found),
        None => {
            let wrong = is_parameter(table, name);
            let found = refuse_if(wrong, line, Code::AssignToConstant, found);
            check_name(table, name, line, found)
        }
    }
}

/// An element that is written to.
fn element_written(
    table: &NameTable,
    name: &Text,
    es: &List<Expr>,
    line: u32,
    found: Option<Refusal>,
) -> Option<Refusal>
    ensures { result ≡ element_written (function_of table.now.arrays name.now) (table_tree table.now) name.now (expr_trees es.now) line found }
{
    match table.function_of(name) {
        Some(_) => {
            let found = refuse_if(true, line, Code::AssignToConstant, found);
            check_subscripts(table, es, line, found)
        }
        None => {
            let wrong = is_parameter(table, name);
            let found = refuse_if(wrong, line, Code::AssignToConstant, found);
            check_element(table, name, es, line, found)
        }
    }
}

/// The first refusal, also of a left side or an item of READ.
#[tactic(auto, using(f77_ast::proofs::Plainly::expr_cases))]
pub fn check_target(
    table: &NameTable,
    e: &Expr,
    line: u32,
    found: Option<Refusal>,
) -> Option<Refusal>
    ensures { result ≡ check_target (table_tree table.now) (expr_tree e.now) line found }
{
    match e {
        Expr::Name(name) => name_written(table, name, line, found),
        Expr::Element(name, es) => element_written(table, name, es, line, found),
        Expr::Int(_)
        | Expr::Log(_)
        | Expr::Paren(_)
        | Expr::Unary(..)
        | Expr::Binary(..)
        | Expr::Chars(_) => check_expr(table, e, line, found),
    }
}

/// The first refusal, also of the items of READ.
#[tactic(auto, using(f77_ast::proofs::Plainly::expr_lists))]
pub fn check_targets(
    table: &NameTable,
    es: &List<Expr>,
    line: u32,
    mut found: Option<Refusal>,
) -> Option<Refusal>
    ensures { result ≡ check_targets (table_tree table.now) (expr_trees es.now) line found }
{
    for e in es.as_slice() {
        found = check_target(table, e, line, found);
    }
    found
}

fn no_chars(sort: Sort, line: u32, found: Option<Refusal>) -> Option<Refusal>
    ensures { result ≡ no_chars sort line found }
{
    refuse_if(sort.is_chars(), line, Code::TypeMismatch, found)
}

/// A name alone as an argument: an array may stand whole.
fn bare_actual(table: &NameTable, name: &Text, line: u32, found: Option<Refusal>) -> Option<Refusal>
    ensures { result ≡ bare_actual (function_of table.now.arrays name.now) (table_tree table.now) name.now line found }
{
    match table.function_of(name) {
        None => found,
        Some(_) => check_name(table, name, line, found),
    }
}

#[tactic(auto, using(f77_ast::proofs::Plainly::expr_cases))]
fn check_actual(table: &NameTable, e: &Expr, line: u32, found: Option<Refusal>) -> Option<Refusal>
    ensures { result ≡ check_actual (table_tree table.now) (expr_tree e.now) line found }
{
    match e {
        Expr::Name(name) => bare_actual(table, name, line, found),
        Expr::Int(_)
        | Expr::Log(_)
        | Expr::Element(..)
        | Expr::Paren(_)
        | Expr::Unary(..)
        | Expr::Binary(..)
        | Expr::Chars(_) => check_expr(table, e, line, found),
    }
}

/// The first refusal, also of the actual arguments of a CALL: an array may be whole, and none is characters.
#[tactic(auto, using(f77_ast::proofs::Plainly::expr_lists))]
pub fn check_actuals(
    table: &NameTable,
    es: &List<Expr>,
    line: u32,
    mut found: Option<Refusal>,
) -> Option<Refusal>
    ensures { result ≡ check_actuals (table_tree table.now) (expr_trees es.now) line found }
{
    for e in es.as_slice() {
        found = check_actual(table, e, line, found);
        found = no_chars(sort_of(table, e), line, found);
    }
    found
}

/// Characters alone are an item.
#[tactic(auto, using(f77_ast::proofs::Plainly::expr_cases))]
fn check_item(table: &NameTable, e: &Expr, line: u32, found: Option<Refusal>) -> Option<Refusal>
    ensures { result ≡ check_item (table_tree table.now) (expr_tree e.now) line found }
{
    match e {
        Expr::Chars(_) => found,
        Expr::Paren(inner) => {
            let found = check_expr(table, e, line, found);
            no_chars(sort_of(table, inner), line, found)
        }
        Expr::Int(_)
        | Expr::Log(_)
        | Expr::Name(_)
        | Expr::Element(..)
        | Expr::Unary(..)
        | Expr::Binary(..) => check_expr(table, e, line, found),
    }
}

/// The first refusal, also of the items of PRINT: characters may be one, but not in parentheses.
#[tactic(auto, using(f77_ast::proofs::Plainly::expr_lists))]
pub fn check_items(
    table: &NameTable,
    es: &List<Expr>,
    line: u32,
    mut found: Option<Refusal>,
) -> Option<Refusal>
    ensures { result ≡ check_items (table_tree table.now) (expr_trees es.now) line found }
{
    for e in es.as_slice() {
        found = check_item(table, e, line, found);
    }
    found
}

/// The type of a DO variable; unknown for the name of a function.
pub fn index_sort(table: &NameTable, index: &Text) -> Sort
    ensures { result ≡ target_sort (table_tree table.now) (name index.now) }
{
    unknown_or(table.function_of(index), named_sort(table, index))
}
