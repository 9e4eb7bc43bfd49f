//! Cleaning: rows that the others entail are dropped, from the last to the first.
ghost use Rattle.std.specs.Prelude.{◌≡◌, ◌++◌, reverse, IfOk, OnOk};
ghost use Rattle.affine_systems.specs.Rows.{AllRows};
ghost use Rattle.affine_systems.specs.Given.{IsSmallRow, Fits};
ghost use Rattle.affine_systems.specs.Laws.{KeepsPoints};
ghost use Rattle.hull_projection.specs.Clean.{is_spare as is_spare_is, unless_spare, clean_rows as clean_rows_is, clean as clean_is};

use crate::entailment::above;
use crate::refutation::refuted_rows;
use affine_systems::items::copy_rows;
use affine_systems::{Row, Rows, System};
use fx_lists::List;
use std::alloc::{AllocError as Memory, Global};

/// Copies of rows, the last first.
fn copy_reversed(alloc: Global, rows: &[Row]) -> Result<Vec<Row>, Memory>
    ensures { IfOk result (λ v. v.items ≡ reverse rows.now) }
{
    let mut copies = copy_rows(alloc, rows)?;
    copies.reverse();
    Ok(copies)
}

#[tactic(auto, using(crate::proofs::CleanSteps::spare))]
/// Whether the rows before and those after, from the last on, entail an at-most row.
fn is_spare(alloc: Global, front: &[Row], behind: &[Row], row: &Row) -> Result<bool, Memory>
    requires front { AllRows IsSmallRow front.now }
    requires behind { AllRows IsSmallRow behind.now }
    requires row { IsSmallRow row.now }
    ensures { IfOk result (λ b. b ≡ is_spare_is (front.now ++ reverse behind.now) row.now) }
{
    if row.equal {
        return Ok(false);
    }
    let mut rows = copy_rows(alloc, front)?;
    let mut rest = copy_reversed(alloc, behind)?;
    rows.append(&mut rest)?;
    let over = above(alloc, row)?;
    rows.push(over)?;
    refuted_rows(alloc, rows)
}

#[tactic(auto, using(crate::proofs::CleanSteps::spare))]
/// Adds a row to those after it, unless they and the rows before it entail it.
fn push_unless_spare(
    alloc: Global,
    front: &[Row],
    row: Row,
    behind: &mut Vec<Row>,
) -> Result<(), Memory>
    requires front { AllRows IsSmallRow front.now }
    requires behind { AllRows IsSmallRow behind.old.items }
    requires row { IsSmallRow row }
    ensures defined { OnOk result (reverse behind.new.items ≡ unless_spare front.now row (reverse behind.old.items)) }
    ensures small { OnOk result (AllRows IsSmallRow behind.new.items) }
{
    let spare = is_spare(alloc, front, behind.as_slice(), &row)?;
    if spare {
        return Ok(());
    }
    behind.push(row)?;
    Ok(())
}

/// The rows, in order, without those at-most rows that the others entail, as refutation shows; tried from the last to
/// the first. One refutation for each at-most row.
pub fn clean_rows(alloc: Global, rows: Rows) -> Result<Rows, Memory>
    requires { AllRows IsSmallRow rows }
    ensures { IfOk result (λ rs. rs ≡ clean_rows_is rows) }
{
    let mut front = rows.into_vec();
    let mut behind = Vec::new(alloc);
    while let Some(row) = front.pop() {
        push_unless_spare(alloc, front.as_slice(), row, &mut behind)?;
    }
    behind.reverse();
    Ok(List::from_vec(behind))
}

/// The system without redundant at-most rows: those that the others entail, as refutation shows. It has the same
/// points. One refutation for each at-most row.
pub fn clean(alloc: Global, sys: &System) -> Result<System, Memory>
    requires fits { Fits sys.now }
    ensures defined { IfOk result (λ s. s ≡ clean_is sys.now) }
    ensures fits { IfOk result Fits }
    ensures sound { IfOk result (KeepsPoints sys.now) }
    ensures no_new_points { IfOk result (λ s. KeepsPoints s sys.now) }
{
    let rows = copy_rows(alloc, sys.rows.as_slice())?;
    Ok(System {
        rows: clean_rows(alloc, List::from_vec(rows))?,
        weak: sys.weak,
    })
}
