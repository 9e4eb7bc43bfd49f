//! What an expression of one form has.
ghost use Rattle.std.specs.Prelude.{◌≡◌, option_copied, option_map};
ghost use Rattle.f77_ast.specs.Plain.{expr_tree, expr_trees};
ghost use Rattle.same_values.specs.Tests.{int_in, log_in, name_in, element_in, paren_in, unary_in, binary_in, chars_in};

use f77_ast::{BinaryOp, Expr, UnaryOp};
use fx_lists::{List, Text};

/// The number of an integer constant.
#[tactic(auto, using(f77_ast::proofs::Plainly::expr_cases))]
pub fn int_of(e: &Expr) -> Option<i32>
    ensures { result ≡ int_in (expr_tree e.now) }
{
    match e {
        Expr::Int(n) => Some(*n),
        Expr::Log(_)
        | Expr::Name(_)
        | Expr::Element(..)
        | Expr::Paren(_)
        | Expr::Unary(..)
        | Expr::Binary(..)
        | Expr::Chars(_) => None,
    }
}

/// The value of a logical constant.
#[tactic(auto, using(f77_ast::proofs::Plainly::expr_cases))]
pub fn log_of(e: &Expr) -> Option<bool>
    ensures { result ≡ log_in (expr_tree e.now) }
{
    match e {
        Expr::Log(b) => Some(*b),
        Expr::Int(_)
        | Expr::Name(_)
        | Expr::Element(..)
        | Expr::Paren(_)
        | Expr::Unary(..)
        | Expr::Binary(..)
        | Expr::Chars(_) => None,
    }
}

/// The name of a name alone.
#[tactic(auto, using(f77_ast::proofs::Plainly::expr_cases))]
pub fn name_of(e: &Expr) -> Option<&Text>
    ensures { option_copied result ≡ name_in (expr_tree e.now) }
{
    match e {
        Expr::Name(x) => Some(x),
        Expr::Int(_)
        | Expr::Log(_)
        | Expr::Element(..)
        | Expr::Paren(_)
        | Expr::Unary(..)
        | Expr::Binary(..)
        | Expr::Chars(_) => None,
    }
}

/// The name and the expressions behind it.
#[tactic(auto, using(f77_ast::proofs::Plainly::expr_cases))]
pub fn element_of(e: &Expr) -> Option<(&Text, &List<Expr>)>
    ensures { option_map (λ p. (p.0.now, expr_trees p.1.now)) result ≡ element_in (expr_tree e.now) }
{
    match e {
        Expr::Element(x, es) => Some((x, es)),
        Expr::Int(_)
        | Expr::Log(_)
        | Expr::Name(_)
        | Expr::Paren(_)
        | Expr::Unary(..)
        | Expr::Binary(..)
        | Expr::Chars(_) => None,
    }
}

/// What is in parentheses.
#[tactic(auto, using(f77_ast::proofs::Plainly::expr_cases))]
pub fn paren_of(e: &Expr) -> Option<&Expr>
    ensures { option_map (λ e. expr_tree e.now) result ≡ paren_in (expr_tree e.now) }
{
    match e {
        Expr::Paren(a) => Some(a),
        Expr::Int(_)
        | Expr::Log(_)
        | Expr::Name(_)
        | Expr::Element(..)
        | Expr::Unary(..)
        | Expr::Binary(..)
        | Expr::Chars(_) => None,
    }
}

/// The operator before an operand.
#[tactic(auto, using(f77_ast::proofs::Plainly::expr_cases))]
pub fn unary_of(e: &Expr) -> Option<(UnaryOp, &Expr)>
    ensures { option_map (λ p. (p.0, expr_tree p.1.now)) result ≡ unary_in (expr_tree e.now) }
{
    match e {
        Expr::Unary(op, a) => Some((*op, a)),
        Expr::Int(_)
        | Expr::Log(_)
        | Expr::Name(_)
        | Expr::Element(..)
        | Expr::Paren(_)
        | Expr::Binary(..)
        | Expr::Chars(_) => None,
    }
}

/// The operator between operands.
#[tactic(auto, using(f77_ast::proofs::Plainly::expr_cases))]
pub fn binary_of(e: &Expr) -> Option<(BinaryOp, &Expr, &Expr)>
    ensures { option_map (λ p. (p.0, expr_tree p.1.now, expr_tree p.2.now)) result ≡ binary_in (expr_tree e.now) }
{
    match e {
        Expr::Binary(op, a, b) => Some((*op, a, b)),
        Expr::Int(_)
        | Expr::Log(_)
        | Expr::Name(_)
        | Expr::Element(..)
        | Expr::Paren(_)
        | Expr::Unary(..)
        | Expr::Chars(_) => None,
    }
}

/// The text of a character constant.
#[tactic(auto, using(f77_ast::proofs::Plainly::expr_cases))]
pub fn chars_of(e: &Expr) -> Option<&Text>
    ensures { option_copied result ≡ chars_in (expr_tree e.now) }
{
    match e {
        Expr::Chars(x) => Some(x),
        Expr::Int(_)
        | Expr::Log(_)
        | Expr::Name(_)
        | Expr::Element(..)
        | Expr::Paren(_)
        | Expr::Unary(..)
        | Expr::Binary(..) => None,
    }
}
