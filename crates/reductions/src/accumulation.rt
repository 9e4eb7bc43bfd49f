//! Assignments that accumulate in a variable.
ghost use Rattle.std.specs.Prelude.{◌≡◌, map};
ghost use Rattle.f77_ast.specs.Plain.{expr_tree, expr_trees};
ghost use Rattle.f77_ast.specs.Symbols.{symbol_tree};
ghost use Rattle.call_graph.specs.Actuals.{has_bounds as has_bounds_is, is_array as has_array};
ghost use Rattle.reductions.specs.Accumulations.{op_number, same_op as same_op_is, joining as joining_is, joins as joins_is, is_minus as is_minus_is, is_name as is_name_is, is_chain as is_chain_is, by_operator as by_operator_is, called as called_is, is_with as is_with_is, by_function as by_function_is, by_right as by_right_is, suits as suits_is, accumulation as accumulation_is, is_array as is_array_is, symbol_of};

use f77_ast::{BinaryOp, Expr, Scalar, Symbol, Symbols};
use fx_lists::{List, Text};
use loop_marker::has_name;
use result_lines::ReduceOp;

fn number_of(op: ReduceOp) -> u8
    ensures { result ≡ op_number op }
{
    match op {
        ReduceOp::Sum => 0,
        ReduceOp::Max => 1,
        ReduceOp::Min => 2,
        ReduceOp::And => 3,
        ReduceOp::Or => 4,
    }
}

pub fn same_op(a: ReduceOp, b: ReduceOp) -> bool
    ensures { result ≡ same_op_is a b }
{
    number_of(a) == number_of(b)
}

/// How an operator joins a further operand to what is before it.
fn joining(op: BinaryOp) -> Option<ReduceOp>
    ensures { result ≡ joining_is op }
{
    match op {
        BinaryOp::Add | BinaryOp::Sub => Some(ReduceOp::Sum),
        BinaryOp::And => Some(ReduceOp::And),
        BinaryOp::Or => Some(ReduceOp::Or),
        BinaryOp::Mul
        | BinaryOp::Div
        | BinaryOp::Pow
        | BinaryOp::Eq
        | BinaryOp::Ne
        | BinaryOp::Lt
        | BinaryOp::Le
        | BinaryOp::Gt
        | BinaryOp::Ge
        | BinaryOp::Eqv
        | BinaryOp::Neqv => None,
    }
}

fn joins(op: ReduceOp, with: BinaryOp) -> bool
    ensures { result ≡ joins_is op with }
{
    match joining(with) {
        None => false,
        Some(other) => same_op(op, other),
    }
}

fn is_minus(op: BinaryOp) -> bool
    ensures { result ≡ is_minus_is op }
{
    match op {
        BinaryOp::Sub => true,
        BinaryOp::Add
        | BinaryOp::Mul
        | BinaryOp::Div
        | BinaryOp::Pow
        | BinaryOp::Eq
        | BinaryOp::Ne
        | BinaryOp::Lt
        | BinaryOp::Le
        | BinaryOp::Gt
        | BinaryOp::Ge
        | BinaryOp::And
        | BinaryOp::Or
        | BinaryOp::Eqv
        | BinaryOp::Neqv => false,
    }
}

/// Whether an expression is a name alone.
#[tactic(auto, using(f77_ast::proofs::Plainly::expr_calls))]
pub fn is_name(name: &Text, e: &Expr) -> bool
    ensures { result ≡ is_name_is name.now (expr_tree e.now) }
{
    match e {
        Expr::Name(x) => name == x,
        Expr::Int(_)
        | Expr::Log(_)
        | Expr::Element(..)
        | Expr::Paren(_)
        | Expr::Unary(..)
        | Expr::Binary(..)
        | Expr::Chars(_) => false,
    }
}

/// Whether a name is the first operand of a chain of operators that join so, and stands in no other operand: `K+A(I)-J`.
#[tactic(auto, using(f77_ast::proofs::Plainly::expr_calls))]
fn is_chain(op: ReduceOp, name: &Text, e: &Expr) -> bool
    ensures { result ≡ is_chain_is op name.now (expr_tree e.now) }
{
    match e {
        Expr::Name(x) => name == x,
        Expr::Binary(with, a, b) => {
            joins(op, *with) && is_chain(op, name, a) && !has_name(name, b)
        }
        Expr::Int(_)
        | Expr::Log(_)
        | Expr::Element(..)
        | Expr::Paren(_)
        | Expr::Unary(..)
        | Expr::Chars(_) => false,
    }
}

/// Whether the first of two operands is just the name, and the other one does not have it.
fn is_with(name: &Text, a: &Expr, b: &Expr) -> bool
    ensures { result ≡ is_with_is name.now (expr_tree a.now) (expr_tree b.now) }
{
    is_name(name, a) && !has_name(name, b)
}

/// Of `a op b`: `V+e-f`, where the name is the first operand of a chain, or `e+V`, where it is the last one and not behind a minus sign.
fn by_operator(name: &Text, op: BinaryOp, a: &Expr, b: &Expr) -> Option<ReduceOp>
    ensures { result ≡ by_operator_is name.now op (expr_tree a.now) (expr_tree b.now) }
{
    let joined = joining(op)?;
    let is_first = is_chain(joined, name, a) && !has_name(name, b);
    if is_first || (!is_minus(op) && is_with(name, b, a)) {
        Some(joined)
    } else {
        None
    }
}

/// The operator that an intrinsic function applies to its two arguments (ANSI X3.9-1978, §15.10).
fn called(function: &Text) -> Option<ReduceOp>
    ensures { result ≡ called_is function.now }
{
    let name = function.as_slice();
    if name == b"MAX".as_slice() || name == b"MAX0".as_slice() {
        Some(ReduceOp::Max)
    } else if name == b"MIN".as_slice() || name == b"MIN0".as_slice() {
        Some(ReduceOp::Min)
    } else {
        None
    }
}

fn has_bounds(symbol: &Symbol) -> bool
    ensures { result ≡ has_bounds_is (symbol_tree symbol.now).bounds }
{
    match symbol.bounds.as_slice() {
        [] => false,
        [_, ..] => true,
    }
}

/// Whether a symbol, where there is one, is an array.
fn is_array_symbol(symbols: &Symbols, number: Option<u32>) -> bool
    ensures { result ≡ has_array (symbol_of (map symbol_tree symbols.now) number) }
{
    match number {
        None => false,
        Some(number) => match symbols.symbol(number) {
            None => false,
            Some(symbol) => has_bounds(symbol),
        },
    }
}

/// Whether a name is that of an array.
fn is_array(symbols: &Symbols, name: &Text) -> bool
    ensures { result ≡ is_array_is (map symbol_tree symbols.now) name.now }
{
    is_array_symbol(symbols, symbols.number(name))
}

/// Of `MAX(V,e)`, `MAX(e,V)` and the like, where no array has the name of the function.
#[tactic(auto, using(f77_ast::proofs::Plainly::expr_items))]
fn by_function(
    symbols: &Symbols,
    name: &Text,
    function: &Text,
    arguments: &List<Expr>,
) -> Option<ReduceOp>
    ensures { result ≡ by_function_is (map symbol_tree symbols.now) name.now function.now (expr_trees arguments.now) }
{
    if is_array(symbols, function) {
        return None;
    }
    match arguments.as_slice() {
        [a, b] => if is_with(name, a, b) || is_with(name, b, a) {
            called(function)
        } else {
            None
        },
        [] | [_] | [_, _, _, ..] => None,
    }
}

/// The operator by which an assignment of this right side accumulates in the variable of a name.
#[tactic(auto, using(f77_ast::proofs::Plainly::expr_calls))]
fn by_right(symbols: &Symbols, name: &Text, right: &Expr) -> Option<ReduceOp>
    ensures { result ≡ by_right_is (map symbol_tree symbols.now) name.now (expr_tree right.now) }
{
    match right {
        Expr::Binary(op, a, b) => by_operator(name, *op, a, b),
        Expr::Element(function, arguments) => by_function(symbols, name, function, arguments),
        Expr::Int(_)
        | Expr::Log(_)
        | Expr::Name(_)
        | Expr::Paren(_)
        | Expr::Unary(..)
        | Expr::Chars(_) => None,
    }
}

/// Whether a variable of this type may be accumulated in so.
fn suits(op: ReduceOp, scalar: Scalar) -> bool
    ensures { result ≡ suits_is op scalar }
{
    match op {
        ReduceOp::Sum | ReduceOp::Max | ReduceOp::Min => match scalar {
            Scalar::Int => true,
            Scalar::Log => false,
        },
        ReduceOp::And | ReduceOp::Or => match scalar {
            Scalar::Int => false,
            Scalar::Log => true,
        },
    }
}

/// The operator by which an assignment of this right side to a variable accumulates in it; None where it does not.
pub fn accumulation(symbols: &Symbols, v: &Symbol, right: &Expr) -> Option<ReduceOp>
    ensures { result ≡ accumulation_is (map symbol_tree symbols.now) (symbol_tree v.now) (expr_tree right.now) }
{
    let op = by_right(symbols, &v.name, right)?;
    if suits(op, v.scalar) { Some(op) } else { None }
}
