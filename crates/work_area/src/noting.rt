//! The variables of the rows that are held.
ghost use Rattle.std.specs.Prelude.{◌≡◌, ◌≤◌, []};
ghost use Rattle.std.specs.Vec.{vec_capacity};
ghost use Rattle.affine_systems.specs.Items.{rows_of};
ghost use Rattle.affine_systems.specs.Places.{has_var};
ghost use Rattle.work_area.specs.Slots.{items_in};
ghost use Rattle.work_area.specs.Columns.{InColumns, noted_rows};
ghost use Rattle.work_area.specs.Tables.{items_of, IsReady};

use crate::tables::Tables;
use crate::{Slot, note_terms};
use affine_systems::{Term, Var};

/// Puts the variables of rows into a sum, in place of what was there. They are at most `limit`, and there is room for
/// these.
fn note_slots(sum: &mut Vec<Term>, limit: usize, rows: &[Slot])
    requires room { limit ≤ vec_capacity sum.old }
    requires held { InColumns limit (items_in rows.now) }
    ensures sum { sum.new.items ≡ noted_rows [] (rows_of (items_in rows.now)) }
    ensures room { vec_capacity sum.old ≤ vec_capacity sum.new }
{
    sum.clear();
    for slot in rows {
        let _ = note_terms(sum, limit, slot.terms.as_slice());
    }
}

/// The same of the rows that are held.
pub fn note_tables(sum: &mut Vec<Term>, limit: usize, tables: &Tables)
    requires room { limit ≤ vec_capacity sum.old }
    requires places { IsReady 0 tables.now }
    requires held { InColumns limit (items_of tables.now) }
    ensures sum { sum.new.items ≡ noted_rows [] (rows_of (items_of tables.now)) }
    ensures room { vec_capacity sum.old ≤ vec_capacity sum.new }
{
    let rows = tables.rows.as_slice();
    note_slots(sum, limit, &rows[..tables.len]);
}

#[tactic(auto, using(crate::proofs::NoteSteps::has_loop))]
/// Whether a variable stands in a sum.
pub fn is_noted(sum: &[Term], v: Var) -> bool
    ensures { result ≡ has_var v sum.now }
{
    for t in sum {
        if v.is_same(t.var) {
            return true;
        }
    }
    false
}
