//! Equality of expressions.
ghost use Rattle.std.specs.Prelude.{◌≡◌, ◌↔◌, IsTrue, nat_eq};
ghost use Rattle.f77_ast.specs.Plain.{expr_tree, expr_trees};
ghost use Rattle.same_values.specs.Tests.{same_bool, unary_number, binary_number, expr_test, exprs_test};

use crate::forms::{binary_of, chars_of, element_of, int_of, log_of, name_of, paren_of, unary_of};
use f77_ast::{BinaryOp, Expr, UnaryOp};
use fx_lists::List;

fn unary_number(op: UnaryOp) -> u8
    ensures { result ≡ unary_number op }
{
    match op {
        UnaryOp::Plus => 0,
        UnaryOp::Minus => 1,
        UnaryOp::Not => 2,
    }
}

fn binary_number(op: BinaryOp) -> u8
    ensures { result ≡ binary_number op }
{
    match op {
        BinaryOp::Add => 0,
        BinaryOp::Sub => 1,
        BinaryOp::Mul => 2,
        BinaryOp::Div => 3,
        BinaryOp::Pow => 4,
        BinaryOp::Eq => 5,
        BinaryOp::Ne => 6,
        BinaryOp::Lt => 7,
        BinaryOp::Le => 8,
        BinaryOp::Gt => 9,
        BinaryOp::Ge => 10,
        BinaryOp::And => 11,
        BinaryOp::Or => 12,
        BinaryOp::Eqv => 13,
        BinaryOp::Neqv => 14,
    }
}

fn same_unary(a: UnaryOp, b: UnaryOp) -> bool
    ensures { result ≡ nat_eq (unary_number a) (unary_number b) }
{
    unary_number(a) == unary_number(b)
}

fn same_binary(a: BinaryOp, b: BinaryOp) -> bool
    ensures { result ≡ nat_eq (binary_number a) (binary_number b) }
{
    binary_number(a) == binary_number(b)
}

pub fn same_bool(a: bool, b: bool) -> bool
    ensures { result ≡ same_bool a b }
{
    if a { b } else { !b }
}

#[cycle(expr_test)]
#[tactic(auto, using(f77_ast::proofs::Plainly::expr_cases))]
pub fn expr_test(a: &Expr, b: &Expr) -> bool
    ensures { result ≡ expr_test (expr_tree a.now) (expr_tree b.now) }
{
    match a {
        Expr::Int(n) => match int_of(b) {
            Some(m) => *n == m,
            None => false,
        },
        Expr::Log(x) => match log_of(b) {
            Some(y) => same_bool(*x, y),
            None => false,
        },
        Expr::Name(x) => match name_of(b) {
            Some(y) => x == y,
            None => false,
        },
        Expr::Element(x, es) => match element_of(b) {
            Some((y, ds)) => x == y && exprs_test(es, ds),
            None => false,
        },
        Expr::Paren(x) => match paren_of(b) {
            Some(y) => expr_test(x, y),
            None => false,
        },
        Expr::Unary(op, x) => match unary_of(b) {
            Some((other, y)) => same_unary(*op, other) && expr_test(x, y),
            None => false,
        },
        Expr::Binary(op, x, z) => match binary_of(b) {
            Some((other, y, w)) => same_binary(*op, other) && expr_test(x, y) && expr_test(z, w),
            None => false,
        },
        Expr::Chars(x) => match chars_of(b) {
            Some(y) => x == y,
            None => false,
        },
    }
}

#[cycle(expr_test)]
#[tactic(auto, using(f77_ast::proofs::Plainly::expr_items))]
fn exprs_test(es: &List<Expr>, ds: &List<Expr>) -> bool
    ensures { result ≡ exprs_test (expr_trees es.now) (expr_trees ds.now) }
{
    let mut right = ds.as_slice();
    for a in es.as_slice() {
        let [b, others @ ..] = right else {
            return false;
        };
        if !expr_test(a, b) {
            return false;
        }
        right = others;
    }
    right.is_empty()
}

/// Whether two lists of expressions are written alike. Takes no memory.
pub fn same_exprs(es: &List<Expr>, ds: &List<Expr>) -> bool
    ensures { IsTrue result ↔ (expr_trees es.now ≡ expr_trees ds.now) }
{
    exprs_test(es, ds)
}
