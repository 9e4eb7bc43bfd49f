//! What a comparison of two forms says, where it is true and where it is false.
ghost use Rattle.std.specs.Prelude.{◌≡◌, true, IfOk};
ghost use Rattle.affine_systems.specs.Given.{IsGiven, Fits};
ghost use Rattle.affine_forms.specs.Forms.{IsSmallForm};
ghost use Rattle.affine_forms.specs.Comparisons.{one_row as one_row_is, at_most as at_most_is, below as below_is, same as same_is};
ghost use Rattle.affine_forms.specs.Conditions.{ConditionFits, exactly as exactly_is, unknown as unknown_is, only_yes as only_yes_is, only_no as only_no_is, comparison as comparison_is};

use crate::{Affine, Condition, at_most_row, below_row, no_rows, same_row};
use affine_systems::{Row, System, tidy};
use f77_ast::BinaryOp;
use fx_lists::List;
use std::alloc::{AllocError as Memory, Global};

/// The system of one row.
fn one_row(alloc: Global, row: Row) -> Result<System, Memory>
    requires { IsGiven row }
    ensures defined { IfOk result (λ s. s ≡ one_row_is row) }
    ensures fits { IfOk result Fits }
{
    let mut rows = List::new(alloc);
    rows.push(row)?;
    tidy(alloc, &System { rows, weak: false })
}

fn at_most(alloc: Global, f: &Affine, g: &Affine) -> Result<System, Memory>
    requires left { IsSmallForm f.now }
    requires right { IsSmallForm g.now }
    ensures defined { IfOk result (λ s. s ≡ at_most_is f.now g.now) }
    ensures fits { IfOk result Fits }
{
    one_row(alloc, at_most_row(alloc, f, g)?)
}

fn below(alloc: Global, f: &Affine, g: &Affine) -> Result<System, Memory>
    requires left { IsSmallForm f.now }
    requires right { IsSmallForm g.now }
    ensures defined { IfOk result (λ s. s ≡ below_is f.now g.now) }
    ensures fits { IfOk result Fits }
{
    one_row(alloc, below_row(alloc, f, g)?)
}

fn same(alloc: Global, f: &Affine, g: &Affine) -> Result<System, Memory>
    requires left { IsSmallForm f.now }
    requires right { IsSmallForm g.now }
    ensures defined { IfOk result (λ s. s ≡ same_is f.now g.now) }
    ensures fits { IfOk result Fits }
{
    one_row(alloc, same_row(alloc, f, g)?)
}

/// The condition with these two sides, both exact.
pub fn exactly(yes: System, no: System) -> Condition
    requires yes { Fits yes }
    requires no { Fits no }
    ensures defined { result ≡ exactly_is yes no }
    ensures fits { ConditionFits result }
{
    Condition {
        yes,
        yes_exact: true,
        no,
        no_exact: true,
    }
}

/// Nothing is known where it is false.
fn only_yes(alloc: Global, yes: System) -> Condition
    requires { Fits yes }
    ensures defined { result ≡ only_yes_is yes true }
    ensures fits { ConditionFits result }
{
    Condition {
        yes,
        yes_exact: true,
        no: no_rows(alloc),
        no_exact: false,
    }
}

/// Nothing is known where it is true.
fn only_no(alloc: Global, no: System) -> Condition
    requires { Fits no }
    ensures defined { result ≡ only_no_is no true }
    ensures fits { ConditionFits result }
{
    Condition {
        yes: no_rows(alloc),
        yes_exact: false,
        no,
        no_exact: true,
    }
}

/// The condition that says nothing: no rows on either side, and neither exact. Takes no memory.
pub fn unknown(alloc: Global) -> Condition
    ensures defined { result ≡ unknown_is }
    ensures fits { ConditionFits result }
{
    Condition {
        yes: no_rows(alloc),
        yes_exact: false,
        no: no_rows(alloc),
        no_exact: false,
    }
}

/// The condition of a relational expression (ANSI X3.9-1978, §6.3) on two affine forms. Of `.EQ.` nothing is known
/// where it is false, of `.NE.` where it is true, and of another operator on neither side.
pub fn comparison(alloc: Global, op: BinaryOp, f: &Affine, g: &Affine) -> Result<Condition, Memory>
    requires left { IsSmallForm f.now }
    requires right { IsSmallForm g.now }
    ensures defined { IfOk result (λ c. c ≡ comparison_is op f.now g.now) }
    ensures fits { IfOk result ConditionFits }
{
    match op {
        BinaryOp::Lt => Ok(exactly(below(alloc, f, g)?, at_most(alloc, g, f)?)),
        BinaryOp::Le => Ok(exactly(at_most(alloc, f, g)?, below(alloc, g, f)?)),
        BinaryOp::Gt => Ok(exactly(below(alloc, g, f)?, at_most(alloc, f, g)?)),
        BinaryOp::Ge => Ok(exactly(at_most(alloc, g, f)?, below(alloc, f, g)?)),
        BinaryOp::Eq => Ok(only_yes(alloc, same(alloc, f, g)?)),
        BinaryOp::Ne => Ok(only_no(alloc, same(alloc, f, g)?)),
        BinaryOp::Add
        | BinaryOp::Sub
        | BinaryOp::Mul
        | BinaryOp::Div
        | BinaryOp::Pow
        | BinaryOp::And
        | BinaryOp::Or
        | BinaryOp::Eqv
        | BinaryOp::Neqv => Ok(unknown(alloc)),
    }
}
