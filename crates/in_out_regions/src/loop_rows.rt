//! The rows of a DO for IN: that its index is in the range, and that an iteration is an earlier one.
ghost use Rattle.std.specs.Prelude.{◌≡◌, ◌++◌, IfOk, OnOk, IfSome};
ghost use Rattle.affine_systems.specs.Rows.{AllRows};
ghost use Rattle.affine_systems.specs.Given.{IsGiven};
ghost use Rattle.affine_systems.specs.Terms.{number as number_is};
ghost use Rattle.affine_forms.specs.Forms.{IsSmallForm};
ghost use Rattle.array_regions.specs.transformer_algebra.Loops.{within_row as within_row_is, beyond_row as beyond_row_is, terms_stay as terms_stay_is, stays as stays_is};
ghost use Rattle.array_regions.specs.region_sets.Loops.{RangeFits};
ghost use Rattle.in_out_regions.specs.Loops.{after_first, before_last, index_rows as index_rows_is, earlier_from, earlier_rows as earlier_rows_is};

use affine_forms::{Affine, at_most_row, below_row, var_form};
use affine_systems::{Row, Term, Var};
use array_regions::region_sets::Range;
use array_regions::transformer_algebra::has;
use std::alloc::{AllocError as Memory, Global};

/// That the one is not beyond the other in the direction of the step.
pub fn within_row(alloc: Global, step: i32, f: &Affine, g: &Affine) -> Result<Row, Memory>
    requires first { IsSmallForm f.now }
    requires last { IsSmallForm g.now }
    ensures defined { IfOk result (λ r. r ≡ within_row_is step f.now g.now) }
    ensures fits { IfOk result IsGiven }
{
    if step > 0 {
        at_most_row(alloc, f, g)
    } else {
        at_most_row(alloc, g, f)
    }
}

/// That the one is beyond the other in the direction of the step.
pub fn beyond_row(alloc: Global, step: i32, f: &Affine, g: &Affine) -> Result<Row, Memory>
    requires first { IsSmallForm f.now }
    requires last { IsSmallForm g.now }
    ensures defined { IfOk result (λ r. r ≡ beyond_row_is step f.now g.now) }
    ensures fits { IfOk result IsGiven }
{
    if step > 0 {
        below_row(alloc, g, f)
    } else {
        below_row(alloc, f, g)
    }
}

fn number_of(v: Var) -> u32
    ensures { result ≡ number_is v }
{
    match v {
        Var::Cell(n) | Var::Exit(n) | Var::Aux(n) => n,
        Var::Phi(n) => u32::from(n),
    }
}

/// Whether none of the terms has one of these cells.
fn terms_stay(cells: &[u32], terms: &[Term]) -> bool
    ensures { result ≡ terms_stay_is cells.now terms.now }
{
    let mut rest = terms;
    while let [t, more @ ..] = rest {
        if has(cells, number_of(t.var)) {
            return false;
        }
        rest = more;
    }
    true
}

/// Whether there is a form, and none of its cells is one of these.
pub fn stays(cells: &[u32], form: &Option<Affine>) -> bool
    ensures { result ≡ stays_is cells.now form.now }
{
    match form {
        None => false,
        Some(f) => terms_stay(cells, f.terms.as_slice()),
    }
}

/// Adds that the index is not before the first value, where no cell of its form changes.
#[tactic(auto, using(crate::proofs::Steps::rows))]
fn push_after_first(alloc: Global, out: &mut Vec<Row>, step: i32, g: &Range) -> Result<(), Memory>
    requires rows { AllRows IsGiven out.old.items }
    requires range { RangeFits g.now }
    ensures added { OnOk result (out.new.items ≡ out.old.items ++ after_first step g.now.turn.cells g.now.index g.now.first) }
    ensures fits { OnOk result (AllRows IsGiven out.new.items) }
{
    match &g.first {
        None => Ok(()),
        Some(first) => {
            if terms_stay(g.turn.cells.as_slice(), first.terms.as_slice()) {
                let index = var_form(alloc, Var::Cell(g.index))?;
                out.push(within_row(alloc, step, first, &index)?)?;
            }
            Ok(())
        }
    }
}

/// Adds that the index is not beyond the last value, where no cell of its form changes.
#[tactic(auto, using(crate::proofs::Steps::rows))]
fn push_before_last(alloc: Global, out: &mut Vec<Row>, step: i32, g: &Range) -> Result<(), Memory>
    requires rows { AllRows IsGiven out.old.items }
    requires range { RangeFits g.now }
    ensures added { OnOk result (out.new.items ≡ out.old.items ++ before_last step g.now.turn.cells g.now.index g.now.last) }
    ensures fits { OnOk result (AllRows IsGiven out.new.items) }
{
    match &g.last {
        None => Ok(()),
        Some(last) => {
            if terms_stay(g.turn.cells.as_slice(), last.terms.as_slice()) {
                let index = var_form(alloc, Var::Cell(g.index))?;
                out.push(within_row(alloc, step, &index, last)?)?;
            }
            Ok(())
        }
    }
}

/// The rows on the index at an iteration, as its cell: of each value whose form has no cell that changes. None where the step is no constant or the index
/// is no analysed scalar.
#[tactic(auto, using(crate::proofs::Steps::rows))]
pub fn index_rows(alloc: Global, tracked: bool, g: &Range) -> Result<Vec<Row>, Memory>
    requires { RangeFits g.now }
    ensures defined { IfOk result (λ rs. rs.items ≡ index_rows_is tracked g.now) }
    ensures fits { IfOk result (λ rs. AllRows IsGiven rs.items) }
{
    let mut rows = Vec::new(alloc);
    if let Some(step) = g.step {
        if tracked {
            push_after_first(alloc, &mut rows, step, g)?;
            push_before_last(alloc, &mut rows, step, g)?;
        }
    }
    Ok(rows)
}

/// Adds that Aux(2) is the index of an earlier iteration.
#[tactic(auto, using(crate::proofs::Steps::rows))]
fn push_earlier(
    alloc: Global,
    out: &mut Vec<Row>,
    step: i32,
    first: &Affine,
    index: u32,
) -> Result<(), Memory>
    requires rows { AllRows IsGiven out.old.items }
    requires first { IsSmallForm first.now }
    ensures added { OnOk result (out.new.items ≡ out.old.items ++ earlier_from step first.now index) }
    ensures fits { OnOk result (AllRows IsGiven out.new.items) }
{
    let then = var_form(alloc, Var::Aux(2))?;
    let now = var_form(alloc, Var::Cell(index))?;
    out.push(within_row(alloc, step, first, &then)?)?;
    out.push(beyond_row(alloc, step, &now, &then)?)?;
    Ok(())
}

/// The rows on the index of an earlier iteration, as Aux(2): it is not before the first value, and before the index of this one.
#[tactic(auto, using(crate::proofs::Steps::rows))]
pub fn earlier_rows(alloc: Global, g: &Range) -> Result<Vec<Row>, Memory>
    requires { RangeFits g.now }
    ensures defined { IfOk result (λ rs. rs.items ≡ earlier_rows_is g.now) }
    ensures fits { IfOk result (λ rs. AllRows IsGiven rs.items) }
{
    let mut rows = Vec::new(alloc);
    if let (Some(step), Some(first)) = (&g.step, &g.first) {
        push_earlier(alloc, &mut rows, *step, first, g.index)?;
    }
    Ok(rows)
}
