//! A statement by the statements inside it: where a walk over all statements of a list goes down.
ghost use Rattle.std.specs.Prelude.{◌≡◌};
ghost use Rattle.f77_ast.specs.PlainStmt.{what_tree};
ghost use Rattle.f77_ast.specs.Shapes.{shape_of, shape_tree, IsWithin, is_return};

use crate::{Arm, Expr, Loop, Stmt, What};
use fx_lists::List;

/// The statements inside a statement.
#[derive(Drop)]
pub enum Shape<'a> {
    /// None.
    Leaf,
    /// The statement of a logical IF, after its test (ANSI X3.9-1978 §11.5).
    Inner(&'a Expr, &'a Stmt),
    /// The DO whose body they are (§11.10).
    Body(&'a Loop),
    /// The arms of a block IF, and what is below its ELSE (§11.6).
    Arms(&'a List<Arm>, &'a Option<List<Stmt>>),
}

/// The statements inside a statement. A walk that goes down by it needs no measure (`proofs::WalkLaws::shape_calls`).
#[tactic(auto, using(crate::proofs::PlainlyStmt::what_cases))]
pub fn shape_of(what: &What) -> Shape<'_>
    ensures defined { shape_tree result ≡ shape_of (what_tree what.now) }
    ensures within { IsWithin result what.now }
{
    match what {
        What::If(arms, other) => Shape::Arms(arms, other),
        What::LogicalIf(test, s) => Shape::Inner(test, s),
        What::Do(l) => Shape::Body(l),
        What::Assign(..)
        | What::Call(..)
        | What::Goto(_)
        | What::Continue
        | What::Return
        | What::Stop(_)
        | What::Print(_)
        | What::Read(_) => Shape::Leaf,
    }
}

/// Whether a statement is a RETURN.
#[tactic(auto, using(crate::proofs::PlainlyStmt::what_cases))]
pub fn is_return(what: &What) -> bool
    ensures { result ≡ is_return (what_tree what.now) }
{
    match what {
        What::Return => true,
        What::Assign(..)
        | What::If(..)
        | What::LogicalIf(..)
        | What::Do(_)
        | What::Call(..)
        | What::Goto(_)
        | What::Continue
        | What::Stop(_)
        | What::Print(_)
        | What::Read(_) => false,
    }
}
