//! The rows of the iterations of a DO: their index is not before the first value, not beyond the last, and some steps away.
ghost use Rattle.std.specs.Prelude.{◌≡◌, ◌++◌, ◌<◌, ◌^◌, IfOk, OnOk, IfSome, unsigned_abs};
ghost use Rattle.affine_systems.specs.Rows.{AllRows};
ghost use Rattle.affine_systems.specs.Given.{IsGiven};
ghost use Rattle.hull_projection.specs.Hull.{at_least_0 as at_least_0_is};
ghost use Rattle.affine_forms.specs.Forms.{IsSmallForm};
ghost use Rattle.transformers.specs.transformer_algebra.Loops.{goes_up, within_row as within_row_is};
ghost use Rattle.region_sets.specs.Loops.{RangeFits, start_of as start_of_is, step_rows, first_rows, last_rows, counted_rows, range_rows as range_rows_is, index_form};

use crate::Range;
use affine_forms::{Affine, at_most_row, same_row, var_form};
use affine_systems::{Row, Term, Var};
use fx_lists::List;
use std::alloc::{AllocError as Memory, Global};

/// That the one is not beyond the other in the direction of the step.
fn within_row(alloc: Global, step: i32, f: &Affine, g: &Affine) -> Result<Row, Memory>
    requires first { IsSmallForm f.now }
    requires last { IsSmallForm g.now }
    ensures defined { IfOk result (λ r. r ≡ within_row_is step f.now g.now) }
    ensures fits { IfOk result IsGiven }
{
    if step > 0 {
        at_most_row(alloc, f, g)
    } else {
        at_most_row(alloc, g, f)
    }
}

/// The index less so many steps.
fn start_of(alloc: Global, step: i32) -> Result<Affine, Memory>
    ensures { IfOk result (λ f. f ≡ start_of_is step) }
{
    let terms = [
        Term {
            var: Var::Aux(0),
            factor: 1,
        },
        Term {
            var: Var::Aux(1),
            factor: -i128::from(step),
        },
    ];
    Ok(Affine {
        terms: List::from_slice(alloc, &terms)?,
        constant: 0,
    })
}

/// 0 <= v
fn at_least_0(alloc: Global, v: Var) -> Result<Row, Memory>
    ensures { IfOk result (λ r. r ≡ at_least_0_is v) }
{
    Ok(Row {
        equal: false,
        terms: List::from_slice(alloc, &[Term { var: v, factor: -1 }])?,
        bound: 0,
    })
}

/// Adds that the index is some steps away from the first value, where that does not go without saying.
#[tactic(auto, using(crate::proofs::RowSteps::range_steps))]
fn push_steps(alloc: Global, out: &mut Vec<Row>, step: i32, first: &Affine) -> Result<(), Memory>
    requires rows { AllRows IsGiven out.old.items }
    requires first { IsSmallForm first.now }
    ensures added { OnOk result (out.new.items ≡ out.old.items ++ step_rows step first.now) }
    ensures fits { OnOk result (AllRows IsGiven out.new.items) }
{
    if step.unsigned_abs() > 1 {
        let start = start_of(alloc, step)?;
        out.push(same_row(alloc, &start, first)?)?;
        out.push(at_least_0(alloc, Var::Aux(1))?)?;
    }
    Ok(())
}

/// Adds that the index is not before the first value.
#[tactic(auto, using(crate::proofs::RowSteps::range_steps))]
fn push_first(
    alloc: Global,
    out: &mut Vec<Row>,
    step: i32,
    first: &Option<Affine>,
) -> Result<(), Memory>
    requires rows { AllRows IsGiven out.old.items }
    requires first { IfSome first.now IsSmallForm }
    ensures added { OnOk result (out.new.items ≡ out.old.items ++ first_rows step first.now) }
    ensures fits { OnOk result (AllRows IsGiven out.new.items) }
{
    match first {
        None => Ok(()),
        Some(first) => {
            let index = var_form(alloc, Var::Aux(0))?;
            out.push(within_row(alloc, step, first, &index)?)?;
            push_steps(alloc, out, step, first)
        }
    }
}

/// Adds that the index is not beyond the last value.
#[tactic(auto, using(crate::proofs::RowSteps::range_steps))]
fn push_last(
    alloc: Global,
    out: &mut Vec<Row>,
    step: i32,
    last: &Option<Affine>,
) -> Result<(), Memory>
    requires rows { AllRows IsGiven out.old.items }
    requires last { IfSome last.now IsSmallForm }
    ensures added { OnOk result (out.new.items ≡ out.old.items ++ last_rows step last.now) }
    ensures fits { OnOk result (AllRows IsGiven out.new.items) }
{
    match last {
        None => Ok(()),
        Some(last) => {
            let index = var_form(alloc, Var::Aux(0))?;
            out.push(within_row(alloc, step, &index, last)?)?;
            Ok(())
        }
    }
}

/// The rows on the DO variable in an iteration, as `Aux(0)` (ANSI X3.9-1978, §11.10.3): it is not before the first value, not beyond the last
/// one in the direction of the step and, where the step is not 1 or -1, `Aux(1)` whole steps from the first. A value without an affine
/// expression gives no row; without a step there is none.
pub fn range_rows(alloc: Global, g: &Range) -> Result<Vec<Row>, Memory>
    requires { RangeFits g.now }
    ensures defined { IfOk result (λ rs. rs.items ≡ range_rows_is g.now) }
    ensures fits { IfOk result (λ rs. AllRows IsGiven rs.items) }
{
    let mut rows = Vec::new(alloc);
    if let Some(step) = g.step {
        push_first(alloc, &mut rows, step, &g.first)?;
        push_last(alloc, &mut rows, step, &g.last)?;
    }
    Ok(rows)
}
