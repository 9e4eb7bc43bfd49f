//! The pivots of equal rows, and their substitution, in place.
ghost use Rattle.std.specs.Prelude.{◌≡◌, ◌∷◌, ◌++◌, ◌+◌, ◌-◌, ◌<◌, ◌≤◌, ◌^◌, [], suc, length, take, drop, nat_lt, slice_index_or};
ghost use Rattle.affine_systems.specs.Given.{IsSmallRow, ItemsSmall};
ghost use Rattle.affine_systems.specs.Items.{false_item, next_made, cut_of, FindsCut};
ghost use Rattle.affine_systems.specs.Tidy.{unit_var as unit_var_is, times, is_to_take as is_to_take_is, taken, pivoted};
ghost use Rattle.affine_systems.specs.Eliminate.{cancel_variable, all_cancelled};
ghost use Rattle.work_area.specs.Slots.{row_in, item_in, items_in, KeepsRoom};
ghost use Rattle.work_area.specs.Columns.{IsRoomy};

use crate::combining::{occurs, put_cancelled};
use crate::slot::Slot;
use affine_systems::items::is_unit;
use affine_systems::{Term, Var};
use std::mem;

#[tactic(auto, using(affine_systems::proofs::PivotSteps::unit_loop))]
/// The last variable with factor 1 or -1.
pub fn unit_var(terms: &[Term]) -> Option<Var>
    ensures { result ≡ unit_var_is terms.now }
{
    let mut found = None;
    for t in terms {
        if is_unit(t.factor) {
            found = Some(t.var);
        }
    }
    found
}

#[tactic(auto, using(crate::proofs::PivotSteps::times_loop))]
/// Whether a variable occurs in more than one row.
fn is_elsewhere(rows: &[Slot], v: Var) -> bool
    requires { ItemsSmall (items_in rows.now) }
    ensures { result ≡ nat_lt 1 (times v (items_in rows.now)) }
{
    let mut seen = false;
    for slot in rows {
        if occurs(slot, v) {
            if seen {
                return true;
            }
            seen = true;
        }
    }
    false
}

/// Whether it is an equal row whose pivot occurs in another row.
fn is_to_take(rows: &[Slot], slot: &Slot) -> bool
    requires { ItemsSmall (items_in rows.now) }
    ensures { result ≡ is_to_take_is (items_in rows.now) (item_in slot.now) }
{
    slot.equal
        && match unit_var(slot.terms.as_slice()) {
            Some(v) => is_elsewhere(rows, v),
            None => false,
        }
}

#[tactic(auto, using(crate::proofs::PivotSteps::cut_loop))]
/// The index of the first equal row whose pivot, its last variable with factor 1 or -1, occurs in another row.
pub fn find_pivot(rows: &[Slot]) -> Option<usize>
    requires { ItemsSmall (items_in rows.now) }
    ensures { FindsCut (is_to_take_is (items_in rows.now)) (items_in rows.now) result }
{
    for (i, slot) in rows.iter().enumerate() {
        if is_to_take(rows, slot) {
            return Some(i);
        }
    }
    None
}

/// Cancels v in a row by an equal row, by way of another place.
fn cancel(slot: &mut Slot, scratch: &mut Slot, made: u128, by: &Slot, v: Var)
    requires one { IsSmallRow (row_in slot.old) }
    requires two { IsSmallRow (row_in by.now) }
    requires roomy { IsRoomy (scratch.old ∷ []) (item_in slot.old ∷ item_in by.now ∷ []) }
    ensures item { item_in slot.new ≡ cancel_variable made (item_in by.now) v (item_in slot.old) }
    ensures room { KeepsRoom (scratch.old ∷ slot.old ∷ []) (scratch.new ∷ slot.new ∷ []) }
{
    if occurs(slot, v) {
        put_cancelled(scratch, made, slot, v, by);
        mem::swap(slot, scratch);
    }
}

/// Cancels v in each row that has it, by the equal row `by`. The row at index k gets the number `made` + k and the
/// originals of both.
pub fn cancel_all(rows: &mut [Slot], scratch: &mut Slot, made: u128, by: &Slot, v: Var)
    requires made { made + length rows.old < 2 ^ 128 }
    requires each { ItemsSmall (items_in rows.old) }
    requires by { IsSmallRow (row_in by.now) }
    requires roomy { IsRoomy (scratch.old ∷ rows.old) (item_in by.now ∷ items_in rows.old) }
    ensures items { items_in rows.new ≡ all_cancelled made (item_in by.now) v (items_in rows.old) }
    ensures room { KeepsRoom (scratch.old ∷ rows.old) (scratch.new ∷ rows.new) }
{
    for i in 0..rows.len() {
        cancel(&mut rows[i], scratch, made + i as u128, by, v);
    }
}

/// Takes the row at an index out of its place into another; the rows after it move up.
pub fn take_out(rows: &mut [Slot], pivot: &mut Slot, at: usize)
    requires { at < length rows.old }
    ensures pivot { item_in pivot.new ≡ slice_index_or (items_in rows.old) at false_item }
    ensures items { take (length rows.old - 1) (items_in rows.new) ≡ take at (items_in rows.old) ++ drop (suc at) (items_in rows.old) }
    ensures room { KeepsRoom (pivot.old ∷ rows.old) (pivot.new ∷ rows.new) }
{
    mem::swap(&mut rows[at], pivot);
    let rest = &mut rows[at..];
    rest.rotate_left(1);
}

/// Puts a row before all but the last.
pub fn put_first(rows: &mut [Slot], pivot: &mut Slot)
    requires { 0 < length rows.old }
    ensures items { items_in rows.new ≡ item_in pivot.old ∷ take (length rows.old - 1) (items_in rows.old) }
    ensures room { KeepsRoom (pivot.old ∷ rows.old) (pivot.new ∷ rows.new) }
{
    rows.rotate_right(1);
    mem::swap(&mut rows[0], pivot);
}

/// Substitutes the pivot of an equal row in each row.
fn cancel_pivot(rows: &mut [Slot], scratch: &mut Slot, made: u128, pivot: &Slot)
    requires made { made + length rows.old < 2 ^ 128 }
    requires each { ItemsSmall (items_in rows.old) }
    requires by { IsSmallRow (row_in pivot.now) }
    requires roomy { IsRoomy (scratch.old ∷ rows.old) (item_in pivot.now ∷ items_in rows.old) }
    ensures items { item_in pivot.now ∷ items_in rows.new ≡ taken made (item_in pivot.now) (items_in rows.old) (unit_var_is pivot.now.terms.items) }
    ensures room { KeepsRoom (scratch.old ∷ rows.old) (scratch.new ∷ rows.new) }
{
    if let Some(v) = unit_var(pivot.terms.as_slice()) {
        cancel_all(rows, scratch, made, pivot, v);
    }
}

/// Substitutes the pivot of the equal row at an index in all others, and puts that row first; `made` is the least
/// number above those of the rows.
fn take_pivot(rows: &mut [Slot], scratch: &mut Slot, pivot: &mut Slot, made: u128, at: usize)
    requires within { at < length rows.old }
    requires number { made ≡ next_made (items_in rows.old) }
    requires made { made + length rows.old < 2 ^ 128 }
    requires each { ItemsSmall (items_in rows.old) }
    requires roomy { IsRoomy (scratch.old ∷ pivot.old ∷ rows.old) (items_in rows.old) }
    ensures items { items_in rows.new ≡ pivoted (items_in rows.old) (cut_of (items_in rows.old) at) }
    ensures room { KeepsRoom (scratch.old ∷ pivot.old ∷ rows.old) (scratch.new ∷ pivot.new ∷ rows.new) }
{
    let last = rows.len() - 1;
    take_out(rows, pivot, at);
    let others = &mut rows[..last];
    cancel_pivot(others, scratch, made, pivot);
    put_first(rows, pivot);
}

/// The same of the leading rows.
pub fn take_pivot_front(
    rows: &mut [Slot],
    len: usize,
    scratch: &mut Slot,
    pivot: &mut Slot,
    made: u128,
    at: usize,
)
    requires len { len ≤ length rows.old }
    requires within { at < len }
    requires number { made ≡ next_made (take len (items_in rows.old)) }
    requires made { made + len < 2 ^ 128 }
    requires each { ItemsSmall (take len (items_in rows.old)) }
    requires roomy { IsRoomy (scratch.old ∷ pivot.old ∷ rows.old) (take len (items_in rows.old)) }
    ensures items { take len (items_in rows.new) ≡ pivoted (take len (items_in rows.old)) (cut_of (take len (items_in rows.old)) at) }
    ensures room { KeepsRoom (scratch.old ∷ pivot.old ∷ rows.old) (scratch.new ∷ pivot.new ∷ rows.new) }
{
    let front = &mut rows[..len];
    take_pivot(front, scratch, pivot, made, at);
}
