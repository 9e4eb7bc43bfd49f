//! Copies of expressions: a derived `clone` of a type that leads back to itself promises nothing.
ghost use Rattle.std.specs.Prelude.{◌≡◌, IfOk, map};
ghost use Rattle.f77_ast.specs.Plain.{expr_tree};

use crate::Expr;
use fx_lists::List;
use std::alloc::{AllocError as Memory, Global};

/// A copy of an expression.
#[cycle(copy_expr)]
#[tactic(auto, using(crate::proofs::Plainly::expr_cases))]
pub fn copy_expr(alloc: Global, e: &Expr) -> Result<Expr, Memory>
    ensures { IfOk result (λ r. expr_tree r ≡ expr_tree e.now) }
{
    match e {
        Expr::Int(n) => Ok(Expr::Int(*n)),
        Expr::Log(b) => Ok(Expr::Log(*b)),
        Expr::Name(n) => Ok(Expr::Name(n.clone()?)),
        Expr::Element(f, es) => {
            let f = f.clone()?;
            let es = copy_exprs(alloc, es)?;
            Ok(Expr::Element(f, es))
        }
        Expr::Paren(a) => {
            let a = copy_expr(alloc, a)?;
            Ok(Expr::Paren(Box::new(alloc, a)?))
        }
        Expr::Unary(op, a) => {
            let a = copy_expr(alloc, a)?;
            Ok(Expr::Unary(*op, Box::new(alloc, a)?))
        }
        Expr::Binary(op, a, b) => {
            let a = copy_expr(alloc, a)?;
            let b = copy_expr(alloc, b)?;
            Ok(Expr::Binary(*op, Box::new(alloc, a)?, Box::new(alloc, b)?))
        }
        Expr::Chars(text) => Ok(Expr::Chars(text.clone()?)),
    }
}

/// A copy of each expression of a list.
#[cycle(copy_expr)]
pub fn copy_exprs(alloc: Global, es: &List<Expr>) -> Result<List<Expr>, Memory>
    ensures { IfOk result (λ r. map expr_tree r ≡ map expr_tree es.now) }
{
    let mut copies = List::new(alloc);
    for e in es.as_slice() {
        copies.push(copy_expr(alloc, e)?)?;
    }
    Ok(copies)
}
