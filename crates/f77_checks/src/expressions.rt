//! The shapes of expressions, and the types of their operands (ANSI X3.9-1978 §5.4, §6). `line` is that of the statement, and
//! `found` the first refusal before; the result is the first with those of the expression.
ghost use Rattle.std.specs.Prelude.{◌≡◌};
ghost use Rattle.f77_ast.specs.Plain.{expr_tree, expr_trees};
ghost use Rattle.f77_ast.specs.Trees.{element};
ghost use Rattle.f77_names.specs.Functions.{function_of};
ghost use Rattle.f77_names.specs.Views.{table_tree};
ghost use Rattle.f77_checks.specs.Expressions.{check_call, check_count, count, dimensions_of, check_expr, check_int, check_log, check_name, check_subscripts, wants, wants_int, wants_log};

use crate::sort::{Sort, sort_of};
use f77_ast::{Expr, joins_logical, turns_logical};
use f77_names::{Function, NameTable};
use fx_lists::{Code, List, Refusal, Text, refuse_if};

/// Refuses a type that is not INTEGER with `TypeMismatch`; an unknown one passes.
pub fn wants_int(sort: Sort, line: u32, found: Option<Refusal>) -> Option<Refusal>
    ensures { result ≡ wants_int sort line found }
{
    refuse_if(!sort.is_int(), line, Code::TypeMismatch, found)
}

/// Refuses a type that is not LOGICAL with `TypeMismatch`; an unknown one passes.
pub fn wants_log(sort: Sort, line: u32, found: Option<Refusal>) -> Option<Refusal>
    ensures { result ≡ wants_log sort line found }
{
    refuse_if(!sort.is_log(), line, Code::TypeMismatch, found)
}

fn wants(logical: bool, sort: Sort, line: u32, found: Option<Refusal>) -> Option<Refusal>
    ensures { result ≡ wants logical sort line found }
{
    if logical {
        wants_log(sort, line, found)
    } else {
        wants_int(sort, line, found)
    }
}

/// Refuses a name without subscripts where it is an array (`NotAnArray`) or an intrinsic function (`SubscriptCount`).
pub fn check_name(
    table: &NameTable,
    name: &Text,
    line: u32,
    found: Option<Refusal>,
) -> Option<Refusal>
    ensures { result ≡ check_name (table_tree table.now) name.now line found }
{
    match table.function_of(name) {
        Some(_) => refuse_if(true, line, Code::SubscriptCount, found),
        None => refuse_if(table.names.is_array(name), line, Code::NotAnArray, found),
    }
}

/// How many bounds an array has.
fn dimensions_of(table: &NameTable, name: &Text) -> Option<usize>
    ensures { result ≡ dimensions_of (table_tree table.now) name.now }
{
    match table.names.find(name) {
        None => None,
        Some(entry) => match &entry.shape {
            None => None,
            Some(shape) => Some(shape.bounds.len()),
        },
    }
}

fn check_call(
    function: Option<Function>,
    count: usize,
    line: u32,
    found: Option<Refusal>,
) -> Option<Refusal>
    ensures { result ≡ check_call function count line found }
{
    match function {
        None => refuse_if(true, line, Code::NotAnArray, found),
        Some(function) => refuse_if(!function.takes(count), line, Code::SubscriptCount, found),
    }
}

/// So many subscripts or arguments.
fn check_count(
    dimensions: Option<usize>,
    function: Option<Function>,
    count: usize,
    line: u32,
    found: Option<Refusal>,
) -> Option<Refusal>
    ensures { result ≡ check_count dimensions function count line found }
{
    match dimensions {
        None => check_call(function, count, line, found),
        Some(wanted) => refuse_if(count != wanted, line, Code::SubscriptCount, found),
    }
}

/// So many subscripts or arguments of a name.
fn element_counted(
    table: &NameTable,
    name: &Text,
    count: usize,
    line: u32,
    found: Option<Refusal>,
) -> Option<Refusal>
    ensures { result ≡ check_count (dimensions_of (table_tree table.now) name.now) (function_of table.now.arrays name.now) count line found }
{
    let dimensions = dimensions_of(table, name);
    check_count(dimensions, table.function_of(name), count, line, found)
}

/// The first refusal, also of an expression: the number of subscripts and arguments, and the types of operands.
#[cycle(check_expr)]
#[tactic(auto, using(f77_ast::proofs::Plainly::expr_calls, crate::proofs::CountLaws::count_is))]
pub fn check_expr(table: &NameTable, e: &Expr, line: u32, found: Option<Refusal>) -> Option<Refusal>
    ensures { result ≡ check_expr (table_tree table.now) (expr_tree e.now) line found }
{
    match e {
        Expr::Int(_) | Expr::Log(_) | Expr::Chars(_) => found,
        Expr::Name(name) => check_name(table, name, line, found),
        Expr::Element(name, es) => {
            let found = check_subscripts(table, es, line, found);
            element_counted(table, name, es.len(), line, found)
        }
        Expr::Paren(e) => check_expr(table, e, line, found),
        Expr::Unary(op, e) => {
            let found = check_expr(table, e, line, found);
            wants(turns_logical(*op), sort_of(table, e), line, found)
        }
        Expr::Binary(op, a, b) => {
            let logical = joins_logical(*op);
            let found = check_expr(table, a, line, found);
            let found = wants(logical, sort_of(table, a), line, found);
            let found = check_expr(table, b, line, found);
            wants(logical, sort_of(table, b), line, found)
        }
    }
}

/// The first refusal, also of subscripts or arguments, each of which is INTEGER.
#[cycle(check_expr)]
#[tactic(auto, using(f77_ast::proofs::Plainly::expr_items))]
pub fn check_subscripts(
    table: &NameTable,
    es: &List<Expr>,
    line: u32,
    mut found: Option<Refusal>,
) -> Option<Refusal>
    ensures { result ≡ check_subscripts (table_tree table.now) (expr_trees es.now) line found }
{
    for e in es.as_slice() {
        found = check_expr(table, e, line, found);
        found = wants_int(sort_of(table, e), line, found);
    }
    found
}

/// The first refusal, also of an array element or an intrinsic call: as `check_expr` for `Expr::Element`.
#[tactic(auto, using(crate::proofs::CountLaws::count_is))]
pub fn check_element(
    table: &NameTable,
    name: &Text,
    es: &List<Expr>,
    line: u32,
    found: Option<Refusal>,
) -> Option<Refusal>
    ensures { result ≡ check_expr (table_tree table.now) (element name.now (expr_trees es.now)) line found }
{
    let found = check_subscripts(table, es, line, found);
    element_counted(table, name, es.len(), line, found)
}

/// The first refusal, also of an expression that has to be INTEGER.
pub fn check_int(table: &NameTable, e: &Expr, line: u32, found: Option<Refusal>) -> Option<Refusal>
    ensures { result ≡ check_int (table_tree table.now) (expr_tree e.now) line found }
{
    wants_int(sort_of(table, e), line, check_expr(table, e, line, found))
}

/// The first refusal, also of an expression that has to be LOGICAL.
pub fn check_log(table: &NameTable, e: &Expr, line: u32, found: Option<Refusal>) -> Option<Refusal>
    ensures { result ≡ check_log (table_tree table.now) (expr_tree e.now) line found }
{
    wants_log(sort_of(table, e), line, check_expr(table, e, line, found))
}
