//! Elimination of a variable by the pairs of lower and upper rows, in the reserved tables.
ghost use Rattle.std.specs.Prelude.{◌≡◌, ◌&&◌, ◌∷◌, ◌++◌, ◌+◌, ◌*◌, ◌<◌, ◌≤◌, ◌^◌, [], true, false, length, take, List as Elements};
ghost use Rattle.affine_systems.specs.declared.items.Item.{Item as AnItem};
ghost use Rattle.affine_systems.specs.Rows.{AllRows};
ghost use Rattle.affine_systems.specs.Given.{IsNormal, IsSmallRow, ItemsSmall, ItemsFit};
ghost use Rattle.affine_systems.specs.Items.{rows_of, tidied, next_made as next_made_is};
ghost use Rattle.affine_systems.specs.Tidy.{tidy_items};
ghost use Rattle.affine_systems.specs.Forms.{IsForm};
ghost use Rattle.affine_systems.specs.Eliminate.{any_has, has_unit as has_unit_is, all_have_unit, every_pair_unit as every_pair_unit_is, is_lower as is_lower_is, is_upper as is_upper_is, is_without, keep, pair, with_uppers, pairs};
ghost use Rattle.work_area.specs.Slots.{row_in, item_in, items_in, room, FitIn, KeepsRoom};
ghost use Rattle.work_area.specs.Columns.{IsRoomy};
ghost use Rattle.work_area.specs.Filling.{Stands};
ghost use Rattle.work_area.specs.Tables.{items_of, IsReady, IsSound, KeepsReady, MadeBelow};
ghost use Rattle.work_area.specs.Outcomes.{paired_items};

use crate::tables::Tables;
use crate::tidying::{next_made, tidy_formed};
use crate::{Filled, Slot, add, begin, factor, finish, occurs, put_combined};
use affine_systems::Var;
use affine_systems::items::is_unit;
use std::mem;

/// Whether it bounds v from below.
fn is_lower(slot: &Slot, v: Var) -> bool
    requires { IsSmallRow (row_in slot.now) }
    ensures { result ≡ is_lower_is v (item_in slot.now) }
{
    factor(slot, v) < 0
}

/// Whether it bounds v from above.
fn is_upper(slot: &Slot, v: Var) -> bool
    requires { IsSmallRow (row_in slot.now) }
    ensures { result ≡ is_upper_is v (item_in slot.now) }
{
    0 < factor(slot, v)
}

/// Whether the factor of v is 1 or -1.
fn has_unit(slot: &Slot, v: Var) -> bool
    requires { IsSmallRow (row_in slot.now) }
    ensures { result ≡ has_unit_is v (item_in slot.now) }
{
    is_unit(factor(slot, v))
}

#[tactic(auto, using(crate::proofs::PairSteps::uppers_loop))]
/// Whether each upper row has v with factor 1 or -1.
fn uppers_have_unit(rows: &[Slot], v: Var) -> bool
    requires { ItemsSmall (items_in rows.now) }
    ensures { result ≡ all_have_unit v (keep (is_upper_is v) (items_in rows.now)) }
{
    for slot in rows {
        if is_upper(slot, v) && !has_unit(slot, v) {
            return false;
        }
    }
    true
}

#[tactic(auto, using(crate::proofs::PairSteps::units_loop))]
/// Whether in every pair one factor is 1 or -1.
fn every_pair_unit(rows: &[Slot], v: Var) -> bool
    requires { ItemsSmall (items_in rows.now) }
    ensures { result ≡ every_pair_unit_is v (keep (is_lower_is v) (items_in rows.now)) (keep (is_upper_is v) (items_in rows.now)) }
{
    let uppers_have = uppers_have_unit(rows, v);
    for slot in rows {
        if is_lower(slot, v) && !has_unit(slot, v) && !uppers_have {
            return false;
        }
    }
    true
}

/// Puts the pair of a lower and an upper row, without v, in a row's place, with the originals of both. Not normalised.
fn put_pair(out: &mut Slot, made: u128, v: Var, low: &Slot, up: &Slot)
    requires lower { is_lower_is v (item_in low.now) ≡ true }
    requires one { IsSmallRow (row_in low.now) }
    requires two { IsSmallRow (row_in up.now) }
    requires room { length (pair made v (item_in low.now) (item_in up.now)).row.terms ≤ room out.now }
    ensures item { item_in out.new ≡ pair made v (item_in low.now) (item_in up.now) }
    ensures room { room out.old ≤ room out.new }
{
    let c = factor(up, v);
    let a = -factor(low, v);
    put_combined(out, made, false, c, low, a, up);
}

/// Takes in the pair of a lower and an upper row.
fn add_pair(
    out: &mut [Slot],
    filled: &mut Filled,
    scratch: &mut Slot,
    made: u128,
    v: Var,
    low: &Slot,
    up: &Slot,
)
    requires lower { is_lower_is v (item_in low.now) ≡ true }
    requires places { length out.old ≡ 512 }
    requires len { filled.old.len ≤ 512 }
    requires one { IsSmallRow (row_in low.now) }
    requires two { IsSmallRow (row_in up.now) }
    requires room { length (pair made v (item_in low.now) (item_in up.now)).row.terms ≤ room scratch.old }
    ensures within { filled.new.len ≤ 512 }
    ensures stands { (is : Elements AnItem) → Stands is out.old filled.old → Stands (is ++ pair made v (item_in low.now) (item_in up.now) ∷ []) out.new filled.new }
    ensures room { KeepsRoom (scratch.old ∷ out.old) (scratch.new ∷ out.new) }
{
    put_pair(scratch, made, v, low, up);
    add(out, filled, scratch);
}

/// Takes in the pairs of a lower row with each upper one, and says which number comes next.
fn add_uppers(
    rows: &[Slot],
    out: &mut [Slot],
    filled: &mut Filled,
    scratch: &mut Slot,
    made: u128,
    v: Var,
    low: &Slot,
) -> u128
    requires made { made + length rows.now < 2 ^ 128 }
    requires lower { is_lower_is v (item_in low.now) ≡ true }
    requires places { length out.old ≡ 512 }
    requires len { filled.old.len ≤ 512 }
    requires each { ItemsSmall (items_in rows.now) }
    requires low { IsSmallRow (row_in low.now) }
    requires roomy { IsRoomy (scratch.old ∷ out.old) (item_in low.now ∷ items_in rows.now) }
    ensures within { filled.new.len ≤ 512 }
    ensures stands { (is : Elements AnItem) → Stands is out.old filled.old → Stands (is ++ with_uppers made v (item_in low.now) (keep (is_upper_is v) (items_in rows.now))) out.new filled.new }
    ensures next { result ≡ made + length (keep (is_upper_is v) (items_in rows.now)) }
    ensures room { KeepsRoom (scratch.old ∷ out.old) (scratch.new ∷ out.new) }
{
    let mut next = made;
    for up in rows {
        if !is_upper(up, v) {
            continue;
        }
        add_pair(out, filled, scratch, next, v, low, up);
        next += 1;
    }
    next
}

/// Takes in the pairs of each lower row with each upper one.
fn add_pairs(
    rows: &[Slot],
    out: &mut [Slot],
    filled: &mut Filled,
    scratch: &mut Slot,
    made: u128,
    v: Var,
)
    requires made { made + length rows.now * length rows.now + length rows.now < 2 ^ 128 }
    requires places { length out.old ≡ 512 }
    requires len { filled.old.len ≤ 512 }
    requires each { ItemsSmall (items_in rows.now) }
    requires roomy { IsRoomy (scratch.old ∷ out.old) (items_in rows.now) }
    ensures within { filled.new.len ≤ 512 }
    ensures stands { (is : Elements AnItem) → Stands is out.old filled.old → Stands (is ++ pairs made v (keep (is_lower_is v) (items_in rows.now)) (keep (is_upper_is v) (items_in rows.now))) out.new filled.new }
    ensures room { KeepsRoom (scratch.old ∷ out.old) (scratch.new ∷ out.new) }
{
    let mut next = made;
    for low in rows {
        if !is_lower(low, v) {
            continue;
        }
        next = add_uppers(rows, out, filled, scratch, next, v, low);
    }
}

/// Copies the rows without v to the front of others, in order, and says how many they are.
fn copy_without(rows: &[Slot], out: &mut [Slot], v: Var) -> usize
    requires places { length rows.now ≤ length out.old }
    requires each { ItemsSmall (items_in rows.now) }
    requires fit { FitIn rows.now out.old }
    ensures within { result ≤ length rows.now }
    ensures items { take result (items_in out.new) ≡ keep (is_without v) (items_in rows.now) }
    ensures room { KeepsRoom out.old out.new }
{
    let mut kept = 0;
    for slot in rows {
        if occurs(slot, v) {
            continue;
        }
        out[kept].copy_from(slot);
        kept += 1;
    }
    kept
}

/// The form of the rows without v and the pairs, in other places: how many rows there are, and whether one was lost.
fn pair_form(
    rows: &[Slot],
    out: &mut [Slot],
    scratch: &mut Slot,
    made: u128,
    v: Var,
) -> (usize, bool)
    requires made { made < 2 ^ 127 }
    requires few { length rows.now ≤ 512 }
    requires places { length out.old ≡ 512 }
    requires each { ItemsSmall (items_in rows.now) }
    requires normal { AllRows IsNormal (rows_of (items_in rows.now)) }
    requires roomy { IsRoomy (scratch.old ∷ out.old) (items_in rows.now) }
    ensures within { result.0 ≤ 512 }
    ensures form { IsForm false (paired_items made v (items_in rows.now)) (take result.0 (items_in out.new)) result.1 }
    ensures room { KeepsRoom (scratch.old ∷ out.old) (scratch.new ∷ out.new) }
{
    let kept = copy_without(rows, out, v);
    let mut filled = begin(out, kept);
    add_pairs(rows, out, &mut filled, scratch, made, v);
    finish(out, filled)
}

/// The same of the leading rows, in the other table, which then changes places with the first; whether a row was lost.
fn form_pairs(tables: &mut Tables, v: Var) -> bool
    requires sound { IsSound tables.old }
    requires fits { ItemsFit false (items_of tables.old) }
    requires has { any_has v (items_of tables.old) ≡ true }
    requires below { MadeBelow (2 ^ 126) (items_of tables.old) }
    ensures form { IsForm false (paired_items (next_made_is (items_of tables.old)) v (items_of tables.old)) (items_of tables.new) result }
    ensures ready { KeepsReady tables.old tables.new }
{
    let rows = tables.rows.as_slice();
    let front = &rows[..tables.len];
    let made = next_made(front);
    let (len, lost) = pair_form(
        front,
        tables.others.as_mut_slice(),
        &mut tables.scratch,
        made,
        v,
    );
    mem::swap(&mut tables.rows, &mut tables.others);
    tables.len = len;
    lost
}

/// Eliminates v by pairs of lower and upper rows; whether a row was lost.
pub fn pair_off(tables: &mut Tables, v: Var) -> bool
    requires sound { IsSound tables.old }
    requires fits { ItemsFit false (items_of tables.old) }
    requires has { any_has v (items_of tables.old) ≡ true }
    requires below { MadeBelow (2 ^ 126) (items_of tables.old) }
    ensures defined { tidied (items_of tables.new) result ≡ tidy_items false (paired_items (next_made_is (items_of tables.old)) v (items_of tables.old)) }
    ensures ready { KeepsReady tables.old tables.new }
{
    let lost = form_pairs(tables, v);
    tidy_formed(tables, lost)
}

/// Whether in every pair of the rows that are held one factor is 1 or -1.
pub fn is_exact(tables: &Tables, v: Var) -> bool
    requires small { ItemsSmall (items_of tables.now) }
    requires places { IsReady 0 tables.now }
    ensures { result ≡ every_pair_unit_is v (keep (is_lower_is v) (items_of tables.now)) (keep (is_upper_is v) (items_of tables.now)) }
{
    let rows = tables.rows.as_slice();
    every_pair_unit(&rows[..tables.len], v)
}
