//! Tidying in the reserved tables.
ghost use Rattle.std.specs.Prelude.{◌≡◌, ◌||◌, ◌*◌, ◌<◌, ◌≤◌, ◌^◌, false, length, List as Elements};
ghost use Rattle.affine_systems.specs.declared.items.Item.{Item as AnItem};
ghost use Rattle.affine_systems.specs.Given.{ItemsGiven, ItemsSmall};
ghost use Rattle.affine_systems.specs.Forms.{IsForm, HasForm};
ghost use Rattle.affine_systems.specs.Items.{next_made as next_made_is, collapsed, cut_of, tidied, FindsCut};
ghost use Rattle.affine_systems.specs.Tidy.{sorted, one_each, faced_all, merged, any_too_big, in_form as in_form_is, round as round_is, is_lossy, is_to_take, pivoted, tidy_turns, tidy_items};
ghost use Rattle.work_area.specs.Slots.{items_in};
ghost use Rattle.work_area.specs.Tables.{items_of, IsReady, IsSound, KeepsReady, MadeBelow};

use crate::tables::Tables;
use crate::{Slot, arrange_front, face_all, find_pivot, form_front, take_pivot_front};
use std::mem;

#[tactic(auto, using(crate::proofs::MadeLaws::next_made_loop))]
/// The least number above those of rows, 0 of none.
pub fn next_made(rows: &[Slot]) -> u128
    requires { MadeBelow (2 ^ 127) (items_in rows.now) }
    ensures defined { result ≡ next_made_is (items_in rows.now) }
    ensures small { result ≤ 2 ^ 127 }
{
    let mut least: u128 = 0;
    for slot in rows {
        least = least.max(slot.made + 1);
    }
    least
}

/// Each row against its opposite, in the other table, which then changes places with the first.
fn face(tables: &mut Tables)
    requires sound { IsSound tables.old }
    requires small { ItemsSmall (items_of tables.old) }
    requires below { MadeBelow (2 ^ 127) (items_of tables.old) }
    ensures items { items_of tables.new ≡ faced_all (next_made_is (items_of tables.old)) (items_of tables.old) (items_of tables.old) }
    ensures ready { KeepsReady tables.old tables.new }
{
    let rows = tables.rows.as_slice();
    let front = &rows[..tables.len];
    let made = next_made(front);
    face_all(front, tables.others.as_mut_slice(), made);
    mem::swap(&mut tables.rows, &mut tables.others);
}

/// The rows in order, one for each list of terms.
fn put_in_order(tables: &mut Tables)
    requires { IsReady 0 tables.old }
    ensures items { items_of tables.new ≡ collapsed (one_each (sorted (items_of tables.old))) }
    ensures ready { KeepsReady tables.old tables.new }
{
    let len = arrange_front(tables.rows.as_mut_slice(), tables.len);
    tables.len = len;
}

/// Opposite rows made equal rows, in order again.
fn merge(tables: &mut Tables)
    requires sound { IsSound tables.old }
    requires small { ItemsSmall (items_of tables.old) }
    requires below { MadeBelow (2 ^ 127) (items_of tables.old) }
    ensures items { items_of tables.new ≡ merged (items_of tables.old) }
    ensures ready { KeepsReady tables.old tables.new }
{
    face(tables);
    put_in_order(tables);
}

/// Normal rows in order, one for each list of terms; and whether one was too big.
fn form(tables: &mut Tables) -> bool
    requires { IsReady 0 tables.old }
    ensures items { items_of tables.new ≡ in_form_is false (items_of tables.old) }
    ensures lost { result ≡ any_too_big false (items_of tables.old) }
    ensures ready { KeepsReady tables.old tables.new }
{
    let (len, lost) = form_front(tables.rows.as_mut_slice(), tables.len);
    tables.len = len;
    lost
}

/// One round, and whether a row was lost in it.
fn round(tables: &mut Tables) -> bool
    requires sound { IsSound tables.old }
    requires given { ItemsGiven (items_of tables.old) }
    requires below { MadeBelow (2 ^ 127) (items_of tables.old) }
    ensures items { items_of tables.new ≡ (round_is false (items_of tables.old)).items }
    ensures lost { result ≡ is_lossy false (items_of tables.old) }
    ensures ready { KeepsReady tables.old tables.new }
{
    let lost = form(tables);
    merge(tables);
    lost
}

/// Substitutes the pivot of the equal row at an index in all others, and puts that row first.
fn take_pivot(tables: &mut Tables, at: usize)
    requires within { at < length (items_of tables.old) }
    requires sound { IsSound tables.old }
    requires small { ItemsSmall (items_of tables.old) }
    requires below { MadeBelow (2 ^ 127) (items_of tables.old) }
    ensures items { items_of tables.new ≡ pivoted (items_of tables.old) (cut_of (items_of tables.old) at) }
    ensures ready { KeepsReady tables.old tables.new }
{
    let rows = tables.rows.as_slice();
    let made = next_made(&rows[..tables.len]);
    take_pivot_front(
        tables.rows.as_mut_slice(),
        tables.len,
        &mut tables.scratch,
        &mut tables.pivot,
        made,
        at,
    );
}

/// The index of the first row whose pivot is to be taken.
fn next_pivot(tables: &Tables) -> Option<usize>
    requires small { ItemsSmall (items_of tables.now) }
    requires places { IsReady 0 tables.now }
    ensures { FindsCut (is_to_take (items_of tables.now)) (items_of tables.now) result }
{
    let rows = tables.rows.as_slice();
    find_pivot(&rows[..tables.len])
}

/// Whether one of both is.
pub fn either(one: bool, other: bool) -> bool
    ensures { result ≡ (one || other) }
{
    one || other
}

/// Rounds until no pivot of an equal row occurs in another row, at most so many pivots being taken between them; and
/// whether a row was lost.
fn rounds(tables: &mut Tables, turns: u64) -> bool
    requires turns { turns ≤ 2 ^ 44 }
    requires sound { IsSound tables.old }
    requires given { ItemsGiven (items_of tables.old) }
    requires below { MadeBelow (3 * 2 ^ 125) (items_of tables.old) }
    ensures defined { tidied (items_of tables.new) result ≡ tidy_turns turns false (items_of tables.old) }
    ensures ready { KeepsReady tables.old tables.new }
{
    let mut lost = false;
    let mut turns = turns;
    while turns > 0 {
        turns -= 1;
        let less = round(tables);
        lost = either(lost, less);
        match next_pivot(tables) {
            None => return lost,
            Some(at) => take_pivot(tables, at),
        }
    }
    let less = round(tables);
    either(lost, less)
}

/// More pivots than any system takes: each raises that of some row, and 512 rows have at most 2^34 variables.
const TURNS: u64 = 1 << 44;

/// Simplified rows, in order; and whether a row was lost.
pub fn tidy_tables(tables: &mut Tables) -> bool
    requires sound { IsSound tables.old }
    requires given { ItemsGiven (items_of tables.old) }
    requires below { MadeBelow (3 * 2 ^ 125) (items_of tables.old) }
    ensures defined { tidied (items_of tables.new) result ≡ tidy_items false (items_of tables.old) }
    ensures ready { KeepsReady tables.old tables.new }
{
    rounds(tables, TURNS)
}

/// The rounds of rows of which the form is there already; and whether a row was lost before or in them.
pub fn tidy_formed(tables: &mut Tables, lost: bool) -> bool
    requires sound { IsSound tables.old }
    requires form { HasForm false (items_of tables.old) lost }
    requires below { MadeBelow (5 * 2 ^ 124) (items_of tables.old) }
    ensures defined { (is : Elements AnItem) → ItemsGiven is → IsForm false is (items_of tables.old) lost → tidied (items_of tables.new) result ≡ tidy_items false is }
    ensures ready { KeepsReady tables.old tables.new }
{
    merge(tables);
    match next_pivot(tables) {
        None => lost,
        Some(at) => {
            take_pivot(tables, at);
            let less = rounds(tables, TURNS - 1);
            either(lost, less)
        }
    }
}
