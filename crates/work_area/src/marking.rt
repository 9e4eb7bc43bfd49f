//! Originals of rows, and rows that come from too many, in the reserved tables.
ghost use Rattle.std.specs.Prelude.{◌≡◌, ◌<◌, ◌≤◌, length, take};
ghost use Rattle.work_area.specs.Slots.{item_in, items_in, room, KeepsRoom};
ghost use Rattle.hull_projection.specs.Refute.{as_original, with_originals, has_few as has_few_is, with_few};
ghost use Rattle.work_area.specs.Tables.{items_of, IsReady, KeepsReady};

use crate::Slot;
use crate::tables::Tables;
use affine_systems::items::Originals;

/// An at-most row as the original with a number; an equal row is none.
fn mark(slot: &mut Slot, number: u32)
    requires { number < 512 }
    ensures item { item_in slot.new ≡ as_original number (item_in slot.old) }
    ensures room { room slot.old ≤ room slot.new }
{
    slot.originals = if slot.equal {
        Originals::none()
    } else {
        Originals::only(number)
    };
    slot.made = number as u128;
}

/// The at-most rows of the leading ones as originals, numbered from 0.
fn mark_front(rows: &mut [Slot], len: usize)
    requires len { len ≤ length rows.old }
    requires few { len ≤ 512 }
    ensures items { take len (items_in rows.new) ≡ with_originals 0 (take len (items_in rows.old)) }
    ensures room { KeepsRoom rows.old rows.new }
{
    for i in 0..len {
        mark(&mut rows[i], i as u32);
    }
}

/// The at-most rows that are held as originals, numbered from 0.
pub fn mark_rows(tables: &mut Tables)
    requires { IsReady 0 tables.old }
    ensures items { items_of tables.new ≡ with_originals 0 (items_of tables.old) }
    ensures ready { KeepsReady tables.old tables.new }
{
    mark_front(tables.rows.as_mut_slice(), tables.len);
}

/// Whether a row has at most `pairs` + 1 originals.
fn has_few(slot: &Slot, pairs: usize) -> bool
    ensures { result ≡ has_few_is pairs (item_in slot.now) }
{
    slot.originals.len().saturating_sub(1) as usize <= pairs
}

/// Brings those of the leading rows that have at most `pairs` + 1 originals to the front, in order, and says how many
/// these are.
fn few_front(rows: &mut [Slot], len: usize, pairs: usize) -> usize
    requires { len ≤ length rows.old }
    ensures within { result ≤ len }
    ensures items { take result (items_in rows.new) ≡ with_few pairs (take len (items_in rows.old)) }
    ensures room { KeepsRoom rows.old rows.new }
{
    let mut kept = 0;
    for i in 0..len {
        if !has_few(&rows[i], pairs) {
            continue;
        }
        rows.swap(kept, i);
        kept += 1;
    }
    kept
}

/// Drops the rows with more than `pairs` + 1 originals.
pub fn drop_many(tables: &mut Tables, pairs: usize)
    requires { IsReady 0 tables.old }
    ensures items { items_of tables.new ≡ with_few pairs (items_of tables.old) }
    ensures ready { KeepsReady tables.old tables.new }
{
    let len = few_front(tables.rows.as_mut_slice(), tables.len, pairs);
    tables.len = len;
}
