//! Systems as items and back.
ghost use Rattle.std.specs.Prelude.{◌≡◌, IfOk};
ghost use Rattle.affine_systems.specs.Rows.{AllRows, system};
ghost use Rattle.affine_systems.specs.Given.{IsGiven, Fits};
ghost use Rattle.affine_systems.specs.Items.{items_from, rows_of as rows_of_is};
ghost use Rattle.affine_systems.specs.Tidy.{tidy as tidy_is};

use crate::false_rows::copy_row;
use crate::items::{Item, Items, Originals};
use crate::tidying::tidy_items;
use crate::{Row, Rows, System};
use fx_lists::List;
use std::alloc::{AllocError as Memory, Global};

/// Copies of rows, in order.
pub fn copy_rows(alloc: Global, rows: &[Row]) -> Result<Vec<Row>, Memory>
    ensures { IfOk result (λ v. v.items ≡ rows.now) }
{
    let mut out = Vec::with_capacity(alloc, rows.len())?;
    for row in rows {
        out.push(copy_row(alloc, row)?)?;
    }
    Ok(out)
}

/// Rows as items without originals, numbered from 0, in order.
pub fn items_of(alloc: Global, mut rows: Vec<Row>) -> Result<Items, Memory>
    ensures { IfOk result (λ is. is ≡ items_from 0 rows.items) }
{
    let mut out = Vec::with_capacity(alloc, rows.len())?;
    while let Some(row) = rows.pop() {
        out.push(Item {
            row,
            originals: Originals::none(),
            made: rows.as_slice().len() as u64,
        })?;
    }
    out.reverse();
    Ok(List::from_vec(out))
}

/// The rows of items, in order.
pub fn rows_of(alloc: Global, items: Items) -> Result<Rows, Memory>
    ensures { IfOk result (λ rs. rs ≡ rows_of_is items) }
{
    let mut items = items.into_vec();
    let mut out = Vec::with_capacity(alloc, items.len())?;
    while let Some(item) = items.pop() {
        out.push(item.row)?;
    }
    out.reverse();
    Ok(List::from_vec(out))
}

#[tactic(auto, using(crate::proofs::SystemSteps::tidied_system))]
/// The tidied system of these rows; weak where `weak` is or tidying lost a row.
pub fn tidy_rows(alloc: Global, rows: Vec<Row>, weak: bool) -> Result<System, Memory>
    requires fits { AllRows IsGiven rows.items }
    ensures defined { IfOk result (λ s. s ≡ tidy_is (system rows.items weak)) }
    ensures fits { IfOk result Fits }
{
    let items = items_of(alloc, rows)?;
    let t = tidy_items(alloc, false, items)?;
    Ok(System {
        rows: rows_of(alloc, t.items)?,
        weak: weak || t.lost,
    })
}
