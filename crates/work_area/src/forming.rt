//! The normal form of rows, in order, in place.
ghost use Rattle.std.specs.Prelude.{◌≡◌, ◌≤◌, length, take, false};
ghost use Rattle.affine_systems.specs.Items.{collapsed};
ghost use Rattle.affine_systems.specs.Normal.{normal};
ghost use Rattle.affine_systems.specs.Tidy.{normal_items as normal_items_is, any_too_big, in_form as in_form_is};
ghost use Rattle.work_area.specs.Slots.{row_in, item_in, items_in, room, KeepsRoom};
ghost use Rattle.work_area.specs.Choices.{Settles};

use crate::normal::normalise;
use crate::slot::Slot;
use crate::sorting::{arrange, collapse};
use affine_systems::Norm;

/// What becomes of a row.
#[derive(Clone, Copy)]
pub enum Fate {
    /// It is in normal form, or `0 <= -1` where it is infeasible.
    Stays,
    /// It is trivial.
    Goes,
    /// A number of its normal form is too big.
    Lost,
}

/// Brings a row to normal form, an infeasible one to `0 <= -1`.
pub fn settle_form(slot: &mut Slot) -> Fate
    ensures form { Settles (normal false (row_in slot.old)) result (item_in slot.old) (item_in slot.new) }
    ensures room { room slot.old ≤ room slot.new }
{
    match normalise(slot) {
        Norm::Kept => Fate::Stays,
        Norm::True => Fate::Goes,
        Norm::False => {
            slot.put_false();
            Fate::Stays
        }
        Norm::TooBig => Fate::Lost,
    }
}

/// Brings the normal rows to the front, and says how many they are and whether one was too big. A trivial row is
/// dropped, an infeasible one becomes `0 <= -1`.
fn normal_rows(rows: &mut [Slot]) -> (usize, bool)
    ensures within { result.0 ≤ length rows.new }
    ensures items { take result.0 (items_in rows.new) ≡ normal_items_is false (items_in rows.old) }
    ensures lost { result.1 ≡ any_too_big false (items_in rows.old) }
    ensures room { KeepsRoom rows.old rows.new }
{
    let mut kept = 0;
    let mut lost = false;
    for i in 0..rows.len() {
        match settle_form(&mut rows[i]) {
            Fate::Stays => {}
            Fate::Goes => continue,
            Fate::Lost => {
                lost = true;
                continue;
            }
        }
        rows.swap(kept, i);
        kept += 1;
    }
    (kept, lost)
}

/// Normal rows in order, one for each list of terms: how many there are, and whether one was too big.
pub fn in_form(rows: &mut [Slot]) -> (usize, bool)
    ensures within { result.0 ≤ length rows.new }
    ensures items { take result.0 (items_in rows.new) ≡ in_form_is false (items_in rows.old) }
    ensures lost { result.1 ≡ any_too_big false (items_in rows.old) }
    ensures room { KeepsRoom rows.old rows.new }
{
    let (kept, lost) = normal_rows(rows);
    let kept = collapse(rows, kept);
    let len = arrange(&mut rows[..kept]);
    (len, lost)
}

/// The same of the leading rows.
pub fn form_front(rows: &mut [Slot], len: usize) -> (usize, bool)
    requires { len ≤ length rows.old }
    ensures within { result.0 ≤ len }
    ensures items { take result.0 (items_in rows.new) ≡ in_form_is false (take len (items_in rows.old)) }
    ensures lost { result.1 ≡ any_too_big false (take len (items_in rows.old)) }
    ensures room { KeepsRoom rows.old rows.new }
{
    let front = &mut rows[..len];
    in_form(front)
}
