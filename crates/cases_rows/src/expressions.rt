//! Expressions with their operators behind the operands.
use crate::decode_error::DecodeError;
use f77_ast::{BinaryOp, Expr, UnaryOp};
use fx_lists::{List, Text};
use std::alloc::Global;

fn unary_of(word: &str) -> Option<UnaryOp> {
    match word {
        "plus" => Some(UnaryOp::Plus),
        "minus" => Some(UnaryOp::Minus),
        "not" => Some(UnaryOp::Not),
        _ => None,
    }
}

fn binary_of(word: &str) -> Option<BinaryOp> {
    match word {
        "add" => Some(BinaryOp::Add),
        "sub" => Some(BinaryOp::Sub),
        "mul" => Some(BinaryOp::Mul),
        "div" => Some(BinaryOp::Div),
        "pow" => Some(BinaryOp::Pow),
        "eq" => Some(BinaryOp::Eq),
        "ne" => Some(BinaryOp::Ne),
        "lt" => Some(BinaryOp::Lt),
        "le" => Some(BinaryOp::Le),
        "gt" => Some(BinaryOp::Gt),
        "ge" => Some(BinaryOp::Ge),
        "and" => Some(BinaryOp::And),
        "or" => Some(BinaryOp::Or),
        "eqv" => Some(BinaryOp::Eqv),
        "neqv" => Some(BinaryOp::Neqv),
        _ => None,
    }
}

/// A constant, a name, or an element of one subscript, 1.
fn leaf_of(alloc: Global, word: &str) -> Result<Expr, DecodeError> {
    if word == ".T." || word == ".F." {
        return Ok(Expr::Log(word == ".T."));
    }
    if let Ok(number) = word.parse() {
        return Ok(Expr::Int(number));
    }
    if let Some(name) = word.strip_suffix("(1)") {
        let mut subscripts = List::new(alloc);
        subscripts.push(Expr::Int(1))?;
        return Ok(Expr::Element(Text::from_bytes(alloc, name.as_bytes())?, subscripts));
    }
    Ok(Expr::Name(Text::from_bytes(alloc, word.as_bytes())?))
}

fn take(alloc: Global, stack: &mut Vec<Expr>, word: &str) -> Result<Expr, DecodeError> {
    if let Some(op) = binary_of(word) {
        let right = stack.pop().ok_or(DecodeError::Malformed)?;
        let left = stack.pop().ok_or(DecodeError::Malformed)?;
        return Ok(Expr::Binary(op, Box::new(alloc, left)?, Box::new(alloc, right)?));
    }
    if let Some(op) = unary_of(word) {
        let operand = stack.pop().ok_or(DecodeError::Malformed)?;
        return Ok(Expr::Unary(op, Box::new(alloc, operand)?));
    }
    if word == "()" {
        let inside = stack.pop().ok_or(DecodeError::Malformed)?;
        return Ok(Expr::Paren(Box::new(alloc, inside)?));
    }
    leaf_of(alloc, word)
}

/// The expression that is left at the end.
pub fn expression_of(alloc: Global, part: &str) -> Result<Expr, DecodeError> {
    let mut stack = Vec::new(alloc);
    for word in part.split_whitespace() {
        let e = take(alloc, &mut stack, word)?;
        stack.push(e)?;
    }
    stack.pop().ok_or(DecodeError::Malformed)
}
