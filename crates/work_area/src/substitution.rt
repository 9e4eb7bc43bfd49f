//! Elimination of a variable in the reserved tables; by an equal row.
ghost use Rattle.std.specs.Prelude.{◌≡◌, ◌&&◌, not, ◌∷◌, ◌++◌, ◌+◌, ◌-◌, ◌<◌, ◌≤◌, ◌^◌, suc, length, take, drop, slice_index_or, false};
ghost use Rattle.affine_systems.specs.Given.{ItemsFit, ItemsSmall};
ghost use Rattle.affine_systems.specs.Items.{false_item, next_made as next_made_is, cut_of, others as others_of, tidied, FindsCut};
ghost use Rattle.affine_systems.specs.Tidy.{tidy_items};
ghost use Rattle.affine_systems.specs.Eliminate.{any_has as any_has_is, is_unit_on as is_unit_on_is, is_equal_on as is_equal_on_is, all_cancelled};
ghost use Rattle.affine_systems.specs.Given.{IsSmallRow};
ghost use Rattle.work_area.specs.Slots.{row_in, item_in, items_in, KeepsRoom};
ghost use Rattle.work_area.specs.Columns.{IsRoomy};
ghost use Rattle.work_area.specs.Outcomes.{Eliminates};
ghost use Rattle.work_area.specs.Tables.{items_of, IsSound, KeepsReady, MadeBelow};

use crate::pairing::{is_exact, pair_off};
use crate::tables::Tables;
use crate::tidying::{next_made, tidy_tables};
use crate::{Slot, cancel_all, factor, occurs, take_out};
use affine_systems::Var;
use affine_systems::items::is_unit;

#[tactic(auto, using(crate::proofs::PivotSteps::has_loop))]
/// Whether a variable occurs in any row.
pub fn any_has(rows: &[Slot], v: Var) -> bool
    requires { ItemsSmall (items_in rows.now) }
    ensures { result ≡ any_has_is v (items_in rows.now) }
{
    for slot in rows {
        if occurs(slot, v) {
            return true;
        }
    }
    false
}

/// Whether it is an equal row with factor 1 or -1 on v.
fn is_unit_on(slot: &Slot, v: Var) -> bool
    requires { IsSmallRow (row_in slot.now) }
    ensures { result ≡ is_unit_on_is v (item_in slot.now) }
{
    slot.equal && is_unit(factor(slot, v))
}

/// Whether it is an equal row with v.
fn is_equal_on(slot: &Slot, v: Var) -> bool
    requires { IsSmallRow (row_in slot.now) }
    ensures { result ≡ is_equal_on_is v (item_in slot.now) }
{
    slot.equal && occurs(slot, v)
}

#[tactic(auto, using(crate::proofs::PivotSteps::cut_loop))]
/// The index of the first equal row with factor 1 or -1 on v.
pub fn find_unit(rows: &[Slot], v: Var) -> Option<usize>
    requires { ItemsSmall (items_in rows.now) }
    ensures { FindsCut (is_unit_on_is v) (items_in rows.now) result }
{
    for (i, slot) in rows.iter().enumerate() {
        if is_unit_on(slot, v) {
            return Some(i);
        }
    }
    None
}

#[tactic(auto, using(crate::proofs::PivotSteps::cut_loop))]
/// The index of the first equal row with v.
pub fn find_equal(rows: &[Slot], v: Var) -> Option<usize>
    requires { ItemsSmall (items_in rows.now) }
    ensures { FindsCut (is_equal_on_is v) (items_in rows.now) result }
{
    for (i, slot) in rows.iter().enumerate() {
        if is_equal_on(slot, v) {
            return Some(i);
        }
    }
    None
}

/// Takes an equal row away and cancels v in the others by it; they are one less.
fn cancel_by(rows: &mut [Slot], scratch: &mut Slot, pivot: &mut Slot, made: u128, v: Var, at: usize)
    requires within { at < length rows.old }
    requires made { made + length rows.old < 2 ^ 128 }
    requires each { ItemsSmall (items_in rows.old) }
    requires roomy { IsRoomy (scratch.old ∷ pivot.old ∷ rows.old) (items_in rows.old) }
    ensures items { take (length rows.old - 1) (items_in rows.new) ≡ all_cancelled made (slice_index_or (items_in rows.old) at false_item) v (take at (items_in rows.old) ++ drop (suc at) (items_in rows.old)) }
    ensures room { KeepsRoom (scratch.old ∷ pivot.old ∷ rows.old) (scratch.new ∷ pivot.new ∷ rows.new) }
{
    let last = rows.len() - 1;
    take_out(rows, pivot, at);
    let others = &mut rows[..last];
    cancel_all(others, scratch, made, pivot, v);
}

/// The same of the leading rows.
fn cancel_by_front(
    rows: &mut [Slot],
    len: usize,
    scratch: &mut Slot,
    pivot: &mut Slot,
    made: u128,
    v: Var,
    at: usize,
)
    requires len { len ≤ length rows.old }
    requires within { at < len }
    requires made { made + len < 2 ^ 128 }
    requires each { ItemsSmall (take len (items_in rows.old)) }
    requires roomy { IsRoomy (scratch.old ∷ pivot.old ∷ rows.old) (take len (items_in rows.old)) }
    ensures items { take (len - 1) (items_in rows.new) ≡ all_cancelled made (cut_of (take len (items_in rows.old)) at).at v (others_of (cut_of (take len (items_in rows.old)) at)) }
    ensures room { KeepsRoom (scratch.old ∷ pivot.old ∷ rows.old) (scratch.new ∷ pivot.new ∷ rows.new) }
{
    let front = &mut rows[..len];
    cancel_by(front, scratch, pivot, made, v, at);
}

/// Takes the equal row at an index away and cancels v in the others by it.
fn cancel(tables: &mut Tables, v: Var, at: usize)
    requires within { at < length (items_of tables.old) }
    requires sound { IsSound tables.old }
    requires small { ItemsSmall (items_of tables.old) }
    requires below { MadeBelow (2 ^ 127) (items_of tables.old) }
    ensures items { items_of tables.new ≡ all_cancelled (next_made_is (items_of tables.old)) (cut_of (items_of tables.old) at).at v (others_of (cut_of (items_of tables.old) at)) }
    ensures ready { KeepsReady tables.old tables.new }
{
    let len = tables.len;
    let rows = tables.rows.as_slice();
    let made = next_made(&rows[..len]);
    cancel_by_front(
        tables.rows.as_mut_slice(),
        len,
        &mut tables.scratch,
        &mut tables.pivot,
        made,
        v,
        at,
    );
    tables.len = len - 1;
}

/// Eliminates v by the equal row at an index; whether a row was lost.
pub fn eliminate_by(tables: &mut Tables, v: Var, at: usize) -> bool
    requires within { at < length (items_of tables.old) }
    requires sound { IsSound tables.old }
    requires fits { ItemsFit false (items_of tables.old) }
    requires below { MadeBelow (2 ^ 126) (items_of tables.old) }
    ensures defined { tidied (items_of tables.new) result ≡ tidy_items false (all_cancelled (next_made_is (items_of tables.old)) (cut_of (items_of tables.old) at).at v (others_of (cut_of (items_of tables.old) at))) }
    ensures ready { KeepsReady tables.old tables.new }
{
    cancel(tables, v, at);
    tidy_tables(tables)
}

/// What an elimination says: whether it is exact, whether a row was lost, and whether lower and upper rows were paired.
#[derive(Clone, Copy)]
pub struct Outcome {
    pub exact: bool,
    pub lost: bool,
    pub paired: bool,
}

fn outcome_of(unit: bool, lost: bool, paired: bool) -> Outcome
    ensures exact { result.exact ≡ (unit && not lost) }
    ensures lost { result.lost ≡ lost }
    ensures paired { result.paired ≡ paired }
{
    Outcome {
        exact: unit && !lost,
        lost,
        paired,
    }
}

/// Eliminates v from the rows that are held, with their originals and numbers: by an equal row with v, one with factor
/// 1 or -1 before others, else by each pair of a lower and an upper row.
pub fn eliminate_rows(tables: &mut Tables, v: Var) -> Outcome
    requires sound { IsSound tables.old }
    requires fits { ItemsFit false (items_of tables.old) }
    requires below { MadeBelow (2 ^ 126) (items_of tables.old) }
    ensures done { Eliminates v (items_of tables.old) (items_of tables.new) result }
    ensures ready { KeepsReady tables.old tables.new }
{
    let rows = tables.rows.as_slice();
    let front = &rows[..tables.len];
    if !any_has(front, v) {
        return outcome_of(true, false, false);
    }
    match find_unit(front, v) {
        None => {}
        Some(at) => {
            let lost = eliminate_by(tables, v, at);
            return outcome_of(true, lost, false);
        }
    }
    match find_equal(front, v) {
        None => {}
        Some(at) => {
            let lost = eliminate_by(tables, v, at);
            return outcome_of(false, lost, false);
        }
    }
    let unit = is_exact(tables, v);
    let lost = pair_off(tables, v);
    outcome_of(unit, lost, true)
}
