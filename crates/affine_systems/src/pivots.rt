//! The pivots of equal rows, and their substitution.
ghost use Rattle.std.specs.Prelude.{◌≡◌, ◌∷◌, ◌+◌, ◌<◌, ◌^◌, length, nat_lt, slice_index_or, slice_set, IfOk};
ghost use Rattle.affine_systems.specs.Given.{IsSmallRow, ItemsSmall};
ghost use Rattle.affine_systems.specs.Points.{factor_of as factor_is};
ghost use Rattle.affine_systems.specs.Items.{item as item_of, joined, false_item, cut_of, FindsCut};
ghost use Rattle.affine_systems.specs.Tidy.{unit_var as unit_var_is, is_unit as is_unit_is, times, is_to_take as is_to_take_is, taken, pivoted};
ghost use Rattle.affine_systems.specs.Places.{Covers};
ghost use Rattle.affine_systems.specs.Eliminate.{cancelling, cancel_variable as cancel_variable_is, all_cancelled};

use crate::false_rows::next_made;
use crate::items::Item;
use crate::places::{Places, is_rare, occurrences};
use crate::rows::{cancel, occurs};
use crate::{Term, Var};
use std::alloc::{AllocError as Memory, Global};

/// Whether a factor is 1 or -1.
pub fn is_unit(factor: i128) -> bool
    ensures { result ≡ is_unit_is factor }
{
    factor.unsigned_abs() == 1
}

#[tactic(auto, using(crate::proofs::PivotSteps::unit_loop))]
/// The last variable with factor 1 or -1.
fn unit_var(terms: &[Term]) -> Option<Var>
    ensures { result ≡ unit_var_is terms.now }
{
    let mut found = None;
    for t in terms {
        if is_unit(t.factor) {
            found = Some(t.var);
        }
    }
    found
}

#[tactic(auto, using(crate::proofs::PivotSteps::times_loop))]
/// Whether a variable occurs in more than one row.
fn is_elsewhere(items: &[Item], v: Var) -> bool
    requires { ItemsSmall items.now }
    ensures { result ≡ nat_lt 1 (times v items.now) }
{
    let mut seen = false;
    for item in items {
        if occurs(&item.row, v) {
            if seen {
                return true;
            }
            seen = true;
        }
    }
    false
}

/// Whether a variable occurs in more than one row. Only where its place in the table has 2 are the rows looked at.
fn is_shared(table: &Places, items: &[Item], v: Var) -> bool
    requires small { ItemsSmall items.now }
    requires covers { Covers table.now items.now }
    ensures { result ≡ nat_lt 1 (times v items.now) }
{
    if is_rare(table, v) {
        return false;
    }
    is_elsewhere(items, v)
}

/// Whether it is an equal row whose pivot occurs in another row.
fn is_to_take(table: &Places, items: &[Item], item: &Item) -> bool
    requires small { ItemsSmall items.now }
    requires covers { Covers table.now items.now }
    ensures { result ≡ is_to_take_is items.now item.now }
{
    item.row.equal
        && match unit_var(item.row.terms.as_slice()) {
            Some(v) => is_shared(table, items, v),
            None => false,
        }
}

#[tactic(auto, using(crate::proofs::PivotSteps::cut_loop))]
/// The index of the first equal row whose pivot, its last variable with factor 1 or -1, occurs in another row. None
/// where there is no such row.
pub fn find_pivot(items: &[Item]) -> Option<usize>
    requires { ItemsSmall items.now }
    ensures { FindsCut (is_to_take_is items.now) items.now result }
{
    let table = occurrences(items);
    for (i, item) in items.iter().enumerate() {
        if is_to_take(&table, items, item) {
            return Some(i);
        }
    }
    None
}

/// The item with v cancelled by an equal row.
fn cancel_variable(alloc: Global, made: u64, by: &Item, v: Var, item: &Item) -> Result<Item, Memory>
    requires one { IsSmallRow item.now.row }
    requires two { IsSmallRow by.now.row }
    ensures { IfOk result (λ i. i ≡ item_of (cancelling (factor_is v by.now.row.terms) item.now.row by.now.row (factor_is v item.now.row.terms)) (joined item.now.originals by.now.originals) made) }
{
    Ok(Item {
        row: cancel(alloc, &item.row, v, &by.row)?,
        originals: item.originals.union(by.originals),
        made,
    })
}

/// Cancels v in the item at a place by an equal row.
fn cancel_at(
    alloc: Global,
    made: u64,
    by: &Item,
    v: Var,
    items: &mut Vec<Item>,
    at: usize,
) -> Result<(), Memory>
    requires within { at < length items.now.items }
    requires one { IsSmallRow by.now.row }
    requires two { IsSmallRow (slice_index_or items.now.items at false_item).row }
    ensures { IfOk result (λ _. items.new.items ≡ slice_set items.old.items at (cancel_variable_is made by.now v (slice_index_or items.old.items at false_item))) }
{
    if occurs(&items[at].row, v) {
        let item = cancel_variable(alloc, made, by, v, &items[at])?;
        items[at] = item;
    }
    Ok(())
}

/// Cancels v in each item that has it, by the equal row `by`. The item at index k gets the number `made` + k and the
/// originals of both.
pub fn cancel_all(
    alloc: Global,
    made: u64,
    by: &Item,
    v: Var,
    items: &mut Vec<Item>,
) -> Result<(), Memory>
    requires room { made + length items.now.items < 2 ^ 64 }
    requires one { IsSmallRow by.now.row }
    requires each { ItemsSmall items.now.items }
    ensures { IfOk result (λ _. items.new.items ≡ all_cancelled made by.now v items.old.items) }
{
    for i in 0..items.len() {
        cancel_at(alloc, made + i as u64, by, v, items, i)?;
    }
    Ok(())
}

/// Substitutes the pivot of an equal row in each item.
fn substitute_pivot(
    alloc: Global,
    made: u64,
    pivot: &Item,
    items: &mut Vec<Item>,
) -> Result<(), Memory>
    requires room { made + length items.now.items < 2 ^ 64 }
    requires one { IsSmallRow pivot.now.row }
    requires each { ItemsSmall items.now.items }
    ensures { IfOk result (λ _. (pivot.now ∷ items.new.items) ≡ taken made pivot.now items.old.items (unit_var_is pivot.now.row.terms)) }
{
    if let Some(v) = unit_var(pivot.row.terms.as_slice()) {
        cancel_all(alloc, made, pivot, v, items)?;
    }
    Ok(())
}

#[tactic(auto, using(crate::proofs::PivotSteps::pivot_taken))]
/// Substitutes the pivot of the equal row at an index in all others, and puts that row first. Memory also where the
/// numbers of items would reach 2^64.
pub fn take_pivot(alloc: Global, mut items: Vec<Item>, at: usize) -> Result<Vec<Item>, Memory>
    requires within { at < length items.items }
    requires each { ItemsSmall items.items }
    ensures { IfOk result (λ v. v.items ≡ pivoted items.items (cut_of items.items at)) }
{
    let made = next_made(items.as_slice(), items.len())?;
    let pivot = items.remove(at);
    substitute_pivot(alloc, made, &pivot, &mut items)?;
    items.insert(0, pivot)?;
    Ok(items)
}
