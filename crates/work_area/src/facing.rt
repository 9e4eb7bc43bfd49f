//! Opposite at-most rows: two that leave one number become an equal row.
ghost use Rattle.std.specs.Prelude.{◌≡◌, ◌+◌, ◌+ℤ◌, ◌<◌, ◌≤◌, ◌^◌, length, take};
ghost use Rattle.affine_systems.specs.Given.{IsSmallRow, ItemsSmall};
ghost use Rattle.affine_systems.specs.Items.{item as item_of, joined};
ghost use Rattle.affine_systems.specs.Tidy.{merged_row as merged_row_is, against as against_is, face_opposite as face_opposite_is, faced_all as faced_all_is};
ghost use Rattle.work_area.specs.Slots.{row_in, item_in, items_in, room, AreShort, FitIn, KeepsRoom};

use crate::normal::last_is_negative;
use crate::order::are_opposite;
use crate::slot::Slot;
use std::cmp::Ordering;

/// The sum of two small bounds.
fn total(one: &Slot, other: &Slot) -> i128
    requires one { IsSmallRow (row_in one.now) }
    requires two { IsSmallRow (row_in other.now) }
    ensures { result ≡ one.now.bound +ℤ other.now.bound }
{
    one.bound + other.bound
}

/// Puts the side of two opposite rows whose last factor is positive into a row, as an equal row with the originals of
/// both.
fn put_merged(out: &mut Slot, made: u128, one: &Slot, other: &Slot)
    requires one { length one.now.terms.items ≤ room out.now }
    requires two { length other.now.terms.items ≤ room out.now }
    ensures item { item_in out.new ≡ item_of (merged_row_is (row_in one.now) (row_in other.now)) (joined one.now.originals other.now.originals) made }
    ensures room { room out.old ≤ room out.new }
{
    if last_is_negative(one.terms.as_slice()) {
        out.copy_from(other);
    } else {
        out.copy_from(one);
    }
    out.equal = true;
    out.originals = one.originals.union(other.originals);
    out.made = made;
}

/// Puts a row whose opposite is another into a row; `made` is the number of a new one.
fn put_against(out: &mut Slot, made: u128, slot: &Slot, other: &Slot)
    requires small { IsSmallRow (row_in slot.now) }
    requires other { IsSmallRow (row_in other.now) }
    requires one { length slot.now.terms.items ≤ room out.now }
    requires two { length other.now.terms.items ≤ room out.now }
    ensures item { item_in out.new ≡ against_is made (item_in slot.now) (item_in other.now) }
    ensures room { room out.old ≤ room out.new }
{
    match total(slot, other).cmp(&0) {
        Ordering::Less => out.put_false(),
        Ordering::Equal => put_merged(out, made, slot, other),
        Ordering::Greater => out.copy_from(slot),
    }
}

#[tactic(auto, using(crate::proofs::FaceSteps::faced_loop))]
/// Puts a row against its opposite among others into a row.
fn put_facing(out: &mut Slot, made: u128, slot: &Slot, rows: &[Slot])
    requires small { IsSmallRow (row_in slot.now) }
    requires each { ItemsSmall (items_in rows.now) }
    requires one { length slot.now.terms.items ≤ room out.now }
    requires all { AreShort (room out.now) rows.now }
    ensures item { item_in out.new ≡ face_opposite_is made (item_in slot.now) (items_in rows.now) }
    ensures room { room out.old ≤ room out.new }
{
    for other in rows {
        if are_opposite(slot, other) {
            put_against(out, made, slot, other);
            return;
        }
    }
    out.copy_from(slot);
}

/// Puts each row against the first opposite row, if any, in order into the leading ones of others: it becomes
/// `0 <= -1` where their bounds exclude each other, an equal row where they leave one number, and else stays. At worst
/// quadratic in the number of rows.
pub fn face_all(rows: &[Slot], out: &mut [Slot], made: u128)
    requires room { made + length rows.now < 2 ^ 128 }
    requires places { length rows.now ≤ length out.old }
    requires each { ItemsSmall (items_in rows.now) }
    requires fit { FitIn rows.now out.old }
    ensures items { take (length rows.now) (items_in out.new) ≡ faced_all_is made (items_in rows.now) (items_in rows.now) }
    ensures room { KeepsRoom out.old out.new }
{
    for i in 0..rows.len() {
        put_facing(&mut out[i], made + i as u128, &rows[i], rows);
    }
}
