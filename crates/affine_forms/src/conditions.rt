//! What a LOGICAL expression says of the tracked cells where it is true, and where it is false.
ghost use Rattle.std.specs.Prelude.{◌≡◌, IfOk, IfSome};
ghost use Rattle.affine_systems.specs.Given.{Fits};
ghost use Rattle.f77_ast.specs.Plain.{expr_tree};
ghost use Rattle.affine_forms.specs.Scalars.{scalars};
ghost use Rattle.affine_forms.specs.Forms.{IsSmallForm};
ghost use Rattle.affine_forms.specs.Conditions.{ConditionFits, of_truth as of_truth_is, constant_condition as constant_condition_is, negation as negation_is, both as both_is, either as either_is, comparison_of_forms as comparison_of_forms_is, condition_of as condition_is};

use crate::comparisons::{comparison, exactly, unknown};
use crate::{Affine, affine_of, infeasible, no_rows};
use affine_systems::{System, meet};
use f77_ast::{BinaryOp, Constant, Constants, Expr, Symbols, UnaryOp};
use fx_lists::List;
use std::alloc::{AllocError as Memory, Global};

/// Systems on the analysed scalars: `yes` holds where the expression is true, `no` where it is false. A side that is
/// exact holds only there, unless it is weak.
#[derive(Clone, PartialEq, Eq, Drop)]
pub struct Condition {
    pub yes: System,
    pub yes_exact: bool,
    pub no: System,
    pub no_exact: bool,
}

fn of_truth(alloc: Global, truth: bool) -> Result<Condition, Memory>
    ensures defined { IfOk result (λ c. c ≡ of_truth_is truth) }
    ensures fits { IfOk result ConditionFits }
{
    if truth {
        Ok(exactly(no_rows(alloc), infeasible(alloc)?))
    } else {
        Ok(exactly(infeasible(alloc)?, no_rows(alloc)))
    }
}

/// Of the name of a LOGICAL constant; it says nothing where the name has another value or none.
fn constant_condition(alloc: Global, value: Option<Constant>) -> Result<Condition, Memory>
    ensures defined { IfOk result (λ c. c ≡ constant_condition_is value) }
    ensures fits { IfOk result ConditionFits }
{
    match value {
        Some(Constant::Log(truth)) => of_truth(alloc, truth),
        Some(Constant::Int(_)) | None => Ok(unknown(alloc)),
    }
}

/// Of the negation.
fn negation(c: Condition) -> Condition
    requires { ConditionFits c }
    ensures defined { result ≡ negation_is c }
    ensures fits { ConditionFits result }
{
    Condition {
        yes: c.no,
        yes_exact: c.no_exact,
        no: c.yes,
        no_exact: c.yes_exact,
    }
}

/// Of the conjunction.
fn both(alloc: Global, c: &Condition, d: &Condition) -> Result<Condition, Memory>
    requires first { ConditionFits c.now }
    requires second { ConditionFits d.now }
    ensures defined { IfOk result (λ r. r ≡ both_is c.now d.now) }
    ensures fits { IfOk result ConditionFits }
{
    Ok(Condition {
        yes: meet(alloc, &c.yes, &d.yes)?,
        yes_exact: c.yes_exact && d.yes_exact,
        no: no_rows(alloc),
        no_exact: false,
    })
}

/// Of the disjunction.
fn either(alloc: Global, c: &Condition, d: &Condition) -> Result<Condition, Memory>
    requires first { ConditionFits c.now }
    requires second { ConditionFits d.now }
    ensures defined { IfOk result (λ r. r ≡ either_is c.now d.now) }
    ensures fits { IfOk result ConditionFits }
{
    Ok(Condition {
        yes: no_rows(alloc),
        yes_exact: false,
        no: meet(alloc, &c.no, &d.no)?,
        no_exact: c.no_exact && d.no_exact,
    })
}

/// Of a comparison, where both sides have forms.
fn comparison_of_forms(
    alloc: Global,
    op: BinaryOp,
    f: Option<Affine>,
    g: Option<Affine>,
) -> Result<Condition, Memory>
    requires left { IfSome f IsSmallForm }
    requires right { IfSome g IsSmallForm }
    ensures defined { IfOk result (λ c. c ≡ comparison_of_forms_is op f g) }
    ensures fits { IfOk result ConditionFits }
{
    match (f, g) {
        (Some(f), Some(g)) => comparison(alloc, op, &f, &g),
        _ => Ok(unknown(alloc)),
    }
}

/// The condition of a LOGICAL expression on the analysed scalars of a module with these symbols; `tracked` has a flag
/// for each symbol in order. It says nothing of what it has no rule for, such as `.EQV.` or a LOGICAL variable.
#[tactic(auto, using(f77_ast::proofs::Plainly::expr_calls))]
pub fn condition_of(
    alloc: Global,
    symbols: &Symbols,
    tracked: &List<bool>,
    e: &Expr,
) -> Result<Condition, Memory>
    ensures defined { IfOk result (λ c. c ≡ condition_is (scalars symbols.now tracked.now) (expr_tree e.now)) }
    ensures fits { IfOk result ConditionFits }
{
    match e {
        Expr::Log(truth) => of_truth(alloc, *truth),
        Expr::Name(name) => constant_condition(alloc, symbols.value(name)),
        Expr::Paren(e) => condition_of(alloc, symbols, tracked, e),
        Expr::Unary(UnaryOp::Not, e) => Ok(negation(condition_of(alloc, symbols, tracked, e)?)),
        Expr::Binary(BinaryOp::And, a, b) => {
            let c = condition_of(alloc, symbols, tracked, a)?;
            let d = condition_of(alloc, symbols, tracked, b)?;
            both(alloc, &c, &d)
        }
        Expr::Binary(BinaryOp::Or, a, b) => {
            let c = condition_of(alloc, symbols, tracked, a)?;
            let d = condition_of(alloc, symbols, tracked, b)?;
            either(alloc, &c, &d)
        }
        Expr::Binary(op, a, b) => {
            let f = affine_of(alloc, symbols, tracked, a)?;
            let g = affine_of(alloc, symbols, tracked, b)?;
            comparison_of_forms(alloc, *op, f, g)
        }
        Expr::Int(_) | Expr::Element(..) | Expr::Unary(..) | Expr::Chars(_) => Ok(unknown(alloc)),
    }
}
