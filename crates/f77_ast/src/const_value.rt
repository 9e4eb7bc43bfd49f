//! The values of constant expressions (ANSI X3.9-1978 §6.1.3, §6.4.4).
ghost use Rattle.std.specs.Prelude.{◌≡◌};
ghost use Rattle.f77_ast.specs.Plain.{expr_tree};
ghost use Rattle.f77_ast.specs.Constants.{binary_const_value, gives_logical, joins_logical, named_const_value, turns_logical, unary_const_value, const_value, const_value_as};

use crate::arithmetic::{binary_number, unary_number};
use crate::{BinaryOp, Constant, ConstantValue, Constants, Expr, UnaryOp};

/// Whether a unary operator takes a LOGICAL operand and gives a LOGICAL result; else both are INTEGER.
pub fn turns_logical(op: UnaryOp) -> bool
    ensures { result ≡ turns_logical op }
{
    match op {
        UnaryOp::Plus | UnaryOp::Minus => false,
        UnaryOp::Not => true,
    }
}

/// Whether a binary operator takes LOGICAL operands; else it takes INTEGER ones.
pub fn joins_logical(op: BinaryOp) -> bool
    ensures { result ≡ joins_logical op }
{
    match op {
        BinaryOp::And | BinaryOp::Or | BinaryOp::Eqv | BinaryOp::Neqv => true,
        BinaryOp::Add
        | BinaryOp::Sub
        | BinaryOp::Mul
        | BinaryOp::Div
        | BinaryOp::Pow
        | BinaryOp::Eq
        | BinaryOp::Ne
        | BinaryOp::Lt
        | BinaryOp::Le
        | BinaryOp::Gt
        | BinaryOp::Ge => false,
    }
}

/// Whether the result of a binary operator is LOGICAL; else it is INTEGER.
pub fn gives_logical(op: BinaryOp) -> bool
    ensures { result ≡ gives_logical op }
{
    match op {
        BinaryOp::Eq
        | BinaryOp::Ne
        | BinaryOp::Lt
        | BinaryOp::Le
        | BinaryOp::Gt
        | BinaryOp::Ge
        | BinaryOp::And
        | BinaryOp::Or
        | BinaryOp::Eqv
        | BinaryOp::Neqv => true,
        BinaryOp::Add | BinaryOp::Sub | BinaryOp::Mul | BinaryOp::Div | BinaryOp::Pow => false,
    }
}

fn const_value_as(logical: bool, number: Option<i32>) -> ConstantValue
    ensures { result ≡ const_value_as logical number }
{
    match number {
        None => ConstantValue::Faults,
        Some(n) => ConstantValue::Is(if logical {
            Constant::Log(n != 0)
        } else {
            Constant::Int(n)
        }),
    }
}

fn unary_const_value(op: UnaryOp, operand: ConstantValue) -> ConstantValue
    ensures { result ≡ unary_const_value op operand }
{
    let logical = turns_logical(op);
    match operand {
        ConstantValue::Is(c) if c.is_logical() == logical => {
            const_value_as(logical, unary_number(op, c.number()))
        }
        ConstantValue::Is(_) | ConstantValue::Faults => ConstantValue::Faults,
        ConstantValue::Varies => ConstantValue::Varies,
    }
}

fn binary_const_value(op: BinaryOp, left: ConstantValue, right: ConstantValue) -> ConstantValue
    ensures { result ≡ binary_const_value op left right }
{
    match (left, right) {
        (ConstantValue::Varies, _) | (_, ConstantValue::Varies) => ConstantValue::Varies,
        (ConstantValue::Is(c), ConstantValue::Is(d))
            if c.is_logical() == joins_logical(op) && d.is_logical() == joins_logical(op) => {
            const_value_as(gives_logical(op), binary_number(op, c.number(), d.number()))
        }
        (
            ConstantValue::Is(_) | ConstantValue::Faults,
            ConstantValue::Is(_) | ConstantValue::Faults,
        ) => ConstantValue::Faults,
    }
}

fn named_const_value(value: Option<Constant>) -> ConstantValue
    ensures { result ≡ named_const_value value }
{
    match value {
        None => ConstantValue::Varies,
        Some(c) => ConstantValue::Is(c),
    }
}

/// The value of an expression, with these values of names. Elements, intrinsic calls and characters are no constant expressions.
/// Takes no memory.
#[cycle(const_value)]
#[tactic(auto, using(crate::proofs::Plainly::expr_cases))]
pub fn const_value_of<C: Constants>(e: &Expr, constants: &C) -> ConstantValue
    ensures { result ≡ const_value (C.value_in constants.now) (expr_tree e.now) }
{
    match e {
        Expr::Int(n) => ConstantValue::Is(Constant::Int(*n)),
        Expr::Log(b) => ConstantValue::Is(Constant::Log(*b)),
        Expr::Name(name) => named_const_value(constants.value(name)),
        Expr::Element(..) | Expr::Chars(_) => ConstantValue::Varies,
        Expr::Paren(a) => const_value_of(a, constants),
        Expr::Unary(op, a) => unary_const_value(*op, const_value_of(a, constants)),
        Expr::Binary(op, a, b) => {
            let left = const_value_of(a, constants);
            let right = const_value_of(b, constants);
            binary_const_value(*op, left, right)
        }
    }
}
