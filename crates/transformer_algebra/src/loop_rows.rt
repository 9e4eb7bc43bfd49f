//! The rows of a DO: that a value is not beyond the last one, or is beyond it. A row of which one side has no form is left out, and
//! where the step is no constant there are no rows.
ghost use Rattle.std.specs.Prelude.{◌≡◌, IfOk, IfSome};
ghost use Rattle.affine_systems.specs.Rows.{AllRows};
ghost use Rattle.affine_systems.specs.Given.{IsGiven};
ghost use Rattle.affine_forms.specs.Forms.{IsSmallForm};
ghost use Rattle.transformer_algebra.specs.Loops.{LoopFits, goes_up as goes_up_is, within_row as within_row_is, beyond_row as beyond_row_is, within_rows as within_rows_is, beyond_rows as beyond_rows_is, index_form as index_form_is, guard as guard_is, unguard as unguard_is, inside as inside_is, beyond_last as beyond_last_is};

use crate::LoopParts;
use affine_forms::{Affine, at_most_row, below_row, var_form};
use affine_systems::{Row, Var};
use std::alloc::{AllocError as Memory, Global};

fn goes_up(step: i32) -> bool
    ensures { result ≡ goes_up_is step }
{
    step > 0
}

/// That the one is not beyond the other in the direction of the step.
fn within_row(alloc: Global, step: i32, f: &Affine, g: &Affine) -> Result<Row, Memory>
    requires first { IsSmallForm f.now }
    requires last { IsSmallForm g.now }
    ensures defined { IfOk result (λ r. r ≡ within_row_is step f.now g.now) }
    ensures fits { IfOk result IsGiven }
{
    if goes_up(step) {
        at_most_row(alloc, f, g)
    } else {
        at_most_row(alloc, g, f)
    }
}

/// That the one is beyond the other in the direction of the step.
fn beyond_row(alloc: Global, step: i32, f: &Affine, g: &Affine) -> Result<Row, Memory>
    requires first { IsSmallForm f.now }
    requires last { IsSmallForm g.now }
    ensures defined { IfOk result (λ r. r ≡ beyond_row_is step f.now g.now) }
    ensures fits { IfOk result IsGiven }
{
    if goes_up(step) {
        below_row(alloc, g, f)
    } else {
        below_row(alloc, f, g)
    }
}

#[tactic(auto, using(crate::proofs::GivenSteps::given_rows))]
fn within_rows(
    alloc: Global,
    step: &Option<i32>,
    f: &Option<Affine>,
    g: &Option<Affine>,
) -> Result<Vec<Row>, Memory>
    requires first { IfSome f.now IsSmallForm }
    requires last { IfSome g.now IsSmallForm }
    ensures defined { IfOk result (λ rs. rs.items ≡ within_rows_is step.now f.now g.now) }
    ensures fits { IfOk result (λ rs. AllRows IsGiven rs.items) }
{
    let mut rows = Vec::new(alloc);
    if let (Some(step), Some(f), Some(g)) = (step, f, g) {
        rows.push(within_row(alloc, *step, f, g)?)?;
    }
    Ok(rows)
}

#[tactic(auto, using(crate::proofs::GivenSteps::given_rows))]
fn beyond_rows(
    alloc: Global,
    step: &Option<i32>,
    f: &Option<Affine>,
    g: &Option<Affine>,
) -> Result<Vec<Row>, Memory>
    requires first { IfSome f.now IsSmallForm }
    requires last { IfSome g.now IsSmallForm }
    ensures defined { IfOk result (λ rs. rs.items ≡ beyond_rows_is step.now f.now g.now) }
    ensures fits { IfOk result (λ rs. AllRows IsGiven rs.items) }
{
    let mut rows = Vec::new(alloc);
    if let (Some(step), Some(f), Some(g)) = (step, f, g) {
        rows.push(beyond_row(alloc, *step, f, g)?)?;
    }
    Ok(rows)
}

/// The form of a variable that is the value of the DO variable, where that is analysed.
fn index_form(alloc: Global, l: &LoopParts, var: Var) -> Result<Option<Affine>, Memory>
    ensures defined { IfOk result (λ f. f ≡ index_form_is l.now var) }
    ensures small { IfOk result (λ f. IfSome f IsSmallForm) }
{
    if l.tracked {
        Ok(Some(var_form(alloc, var)?))
    } else {
        Ok(None)
    }
}

/// The loop entry condition: the first value is not beyond the last, in the direction of the step. At most one row.
pub fn guard(alloc: Global, l: &LoopParts) -> Result<Vec<Row>, Memory>
    requires { LoopFits l.now }
    ensures defined { IfOk result (λ rs. rs.items ≡ guard_is l.now) }
    ensures fits { IfOk result (λ rs. AllRows IsGiven rs.items) }
{
    within_rows(alloc, &l.step, &l.first, &l.last)
}

/// The condition for no iteration: the first value is beyond the last, in the direction of the step. At most one row.
pub fn unguard(alloc: Global, l: &LoopParts) -> Result<Vec<Row>, Memory>
    requires { LoopFits l.now }
    ensures defined { IfOk result (λ rs. rs.items ≡ unguard_is l.now) }
    ensures fits { IfOk result (λ rs. AllRows IsGiven rs.items) }
{
    beyond_rows(alloc, &l.step, &l.first, &l.last)
}

/// That a variable which is the value of the DO variable is not beyond the last value, in the direction of the step. At
/// most one row; none where the DO variable is not analysed.
pub fn inside(alloc: Global, l: &LoopParts, var: Var) -> Result<Vec<Row>, Memory>
    requires { LoopFits l.now }
    ensures defined { IfOk result (λ rs. rs.items ≡ inside_is l.now var) }
    ensures fits { IfOk result (λ rs. AllRows IsGiven rs.items) }
{
    let index = index_form(alloc, l, var)?;
    within_rows(alloc, &l.step, &index, &l.last)
}

/// That a variable which is the value of the DO variable is beyond the last value, in the direction of the step. At
/// most one row; none where the DO variable is not analysed.
pub fn beyond_last(alloc: Global, l: &LoopParts, var: Var) -> Result<Vec<Row>, Memory>
    requires { LoopFits l.now }
    ensures defined { IfOk result (λ rs. rs.items ≡ beyond_last_is l.now var) }
    ensures fits { IfOk result (λ rs. AllRows IsGiven rs.items) }
{
    let index = index_form(alloc, l, var)?;
    beyond_rows(alloc, &l.step, &index, &l.last)
}
