//! Opposite at-most rows: two that leave one number become an equal row.
ghost use Rattle.std.specs.Prelude.{◌≡◌, ◌+ℤ◌, ℕ, true, IfOk};
ghost use Rattle.affine_systems.specs.Given.{IsSmallRow, ItemsSmall};
ghost use Rattle.affine_systems.specs.Items.{next_made as next_made_is};
ghost use Rattle.affine_systems.specs.Tidy.{are_opposite as are_opposite_is, merged_row as merged_row_is, against as against_is, face_opposite as face_opposite_is, faced_all as faced_all_is};
ghost use Rattle.affine_systems.specs.Places.{Sided};

use crate::Row;
use crate::false_rows::{copy_item, copy_row, false_item, next_made};
use crate::items::Item;
use crate::normal::last_is_negative;
use crate::order::are_opposite;
use crate::places::{Places, may_face, sides};
use std::alloc::{AllocError as Memory, Global};
use std::cmp::Ordering;

/// The side of two opposite rows whose last factor is positive, as an equal row.
fn merged_row(alloc: Global, row: &Row, other: &Row) -> Result<Row, Memory>
    ensures { IfOk result (λ r. r ≡ merged_row_is row.now other.now) }
{
    let side = if last_is_negative(row.terms.as_slice()) {
        other
    } else {
        row
    };
    let copy = copy_row(alloc, side)?;
    Ok(Row {
        equal: true,
        terms: copy.terms,
        bound: copy.bound,
    })
}

/// The sum of two small bounds.
pub fn total(row: &Row, other: &Row) -> i128
    requires one { IsSmallRow row.now }
    requires two { IsSmallRow other.now }
    ensures { result ≡ row.now.bound +ℤ other.now.bound }
{
    row.bound + other.bound
}

/// An item whose opposite is another; `made` is the number of a new item.
fn against(alloc: Global, made: u64, item: &Item, other: &Item) -> Result<Item, Memory>
    requires one { IsSmallRow item.now.row }
    requires two { IsSmallRow other.now.row }
    ensures { IfOk result (λ i. i ≡ against_is made item.now other.now) }
{
    match total(&item.row, &other.row).cmp(&0) {
        Ordering::Less => Ok(false_item(alloc)),
        Ordering::Equal => Ok(Item {
            row: merged_row(alloc, &item.row, &other.row)?,
            originals: item.originals.union(other.originals),
            made,
        }),
        Ordering::Greater => copy_item(alloc, item),
    }
}

#[tactic(auto, using(crate::proofs::ItemSteps::faced_loop))]
/// An item against its opposite among others.
fn face_opposite(alloc: Global, made: u64, item: &Item, items: &[Item]) -> Result<Item, Memory>
    requires one { IsSmallRow item.now.row }
    requires each { ItemsSmall items.now }
    ensures { IfOk result (λ i. i ≡ face_opposite_is made item.now items.now) }
{
    for other in items {
        if are_opposite(&item.row, &other.row) {
            return against(alloc, made, item, other);
        }
    }
    copy_item(alloc, item)
}

/// The same, with a table of the places of rows: only where that of its opposites is not empty does it look at the rows.
fn faced_by_place(
    alloc: Global,
    made: u64,
    table: &Places,
    item: &Item,
    items: &[Item],
) -> Result<Item, Memory>
    requires one { IsSmallRow item.now.row }
    requires each { ItemsSmall items.now }
    requires sided { Sided table.now items.now }
    ensures { IfOk result (λ i. i ≡ face_opposite_is made item.now items.now) }
{
    if may_face(table, &item.row) {
        return face_opposite(alloc, made, item, items);
    }
    let copy = copy_item(alloc, item)?;
    Ok(copy)
}

#[tactic(auto, using(crate::proofs::ItemSteps::stays_loop))]
/// Whether the first opposite row, if any, leaves more than one number for the sum, so that the item stays. Looks at
/// each.
fn stays_among(item: &Item, items: &[Item]) -> bool
    requires one { IsSmallRow item.now.row }
    requires each { ItemsSmall items.now }
    ensures { result ≡ true → (n : ℕ) → face_opposite_is n item.now items.now ≡ item.now }
{
    for other in items {
        if are_opposite(&item.row, &other.row) {
            return total(&item.row, &other.row) > 0;
        }
    }
    true
}

/// The same, with a table of the places of rows: only where that of its opposites is not empty does it look at the rows.
fn stays(table: &Places, item: &Item, items: &[Item]) -> bool
    requires one { IsSmallRow item.now.row }
    requires each { ItemsSmall items.now }
    requires sided { Sided table.now items.now }
    ensures { result ≡ true → (n : ℕ) → face_opposite_is n item.now items.now ≡ item.now }
{
    if may_face(table, &item.row) {
        return stays_among(item, items);
    }
    true
}

#[tactic(auto, using(crate::proofs::ItemSteps::all_stay_loop))]
/// Whether each item stays as it is.
fn all_stay(items: &[Item]) -> bool
    requires { ItemsSmall items.now }
    ensures { result ≡ true → (n : ℕ) → faced_all_is n items.now items.now ≡ items.now }
{
    let table = sides(items);
    for item in items {
        if !stays(&table, item, items) {
            return false;
        }
    }
    true
}

/// Each item against the first opposite row, if any: it becomes `0 <= -1` where their bounds exclude each other, an
/// equal row where they leave one number, and else stays. In the same order. At worst quadratic in the number of items.
/// Memory also where the numbers of items would reach 2^64.
pub fn face_all(alloc: Global, items: Vec<Item>) -> Result<Vec<Item>, Memory>
    requires { ItemsSmall items.items }
    ensures { IfOk result (λ v. v.items ≡ faced_all_is (next_made_is items.items) items.items items.items) }
{
    if all_stay(items.as_slice()) {
        return Ok(items);
    }
    let made = next_made(items.as_slice(), items.len())?;
    let table = sides(items.as_slice());
    let mut out = Vec::with_capacity(alloc, items.len())?;
    for i in 0..items.len() {
        let item = faced_by_place(alloc, made + i as u64, &table, &items[i], items.as_slice())?;
        out.push(item)?;
    }
    Ok(out)
}
