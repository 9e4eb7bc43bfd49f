//! Expressions made of their parts.
ghost use Rattle.std.specs.Prelude.{◌≡◌, IfOk};
ghost use Rattle.f77_ast.specs.Plain.{expr_tree};
ghost use Rattle.f77_ast.specs.Trees.{paren, unary, binary};

use f77_ast::{BinaryOp, Expr, UnaryOp};
use std::alloc::{AllocError as Memory, Global};

/// An expression in parentheses.
#[tactic(auto, using(f77_ast::proofs::Plainly::expr_cases))]
pub fn paren(alloc: Global, e: Expr) -> Result<Expr, Memory>
    ensures { IfOk result (λ r. expr_tree r ≡ paren (expr_tree e)) }
{
    Ok(Expr::Paren(Box::new(alloc, e)?))
}

/// An operator before its operand.
#[tactic(auto, using(f77_ast::proofs::Plainly::expr_cases))]
pub fn unary(alloc: Global, op: UnaryOp, e: Expr) -> Result<Expr, Memory>
    ensures { IfOk result (λ r. expr_tree r ≡ unary op (expr_tree e)) }
{
    Ok(Expr::Unary(op, Box::new(alloc, e)?))
}

/// An operator between its operands.
#[tactic(auto, using(f77_ast::proofs::Plainly::expr_cases))]
pub fn binary(alloc: Global, op: BinaryOp, a: Expr, b: Expr) -> Result<Expr, Memory>
    ensures { IfOk result (λ r. expr_tree r ≡ binary op (expr_tree a) (expr_tree b)) }
{
    Ok(Expr::Binary(op, Box::new(alloc, a)?, Box::new(alloc, b)?))
}
