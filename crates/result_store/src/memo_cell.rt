//! The values that were seen of one item and name.
ghost use Rattle.std.specs.Prelude.{◌≡◌, map, slice_get, Some, IfOk, OnOk, OnErr, IfSome, IfNone, option_map};
ghost use Rattle.pipsmake_meaning.specs.MemoCells.{Keeps, IsNew, kept_value, no_memo_cell, forgotten, Sees};
ghost use Rattle.result_store.specs.Fits.{ValueFits, MemoCellFits};
ghost use Rattle.result_store.specs.Rows.{memo_cell_tree};
ghost use Rattle.result_store.specs.Seen.{kept_at};
ghost use Rattle.result_store.specs.Values.{value_tree, stamped_tree};

use crate::item::{Kept, Stamped};
use crate::same::same_value;
use crate::value::Value;
use fx_lists::List;
use std::alloc::{AllocError as Memory, Global};

/// The values that were seen of one item and name, none twice and the newest last, and what is kept.
#[derive(Drop)]
pub struct MemoCell {
    pub values: List<Value>,
    pub kept: Option<Kept>,
}

/// A place as a stamp. Err past 2^32 - 1.
fn stamp_at(place: usize) -> Result<u32, Memory>
    ensures { IfOk result (λ n. n ≡ place) }
{
    u32::try_from(place).map_err(|_| Memory)
}

impl MemoCell {
    /// Nothing was seen. Takes no memory.
    pub fn new(alloc: Global) -> MemoCell
        ensures { memo_cell_tree result ≡ no_memo_cell }
    {
        MemoCell {
            values: List::new(alloc),
            kept: None,
        }
    }

    /// The place of a value among those that were seen; None where it is new. Linear in their number.
    fn place(&self, value: &Value) -> Option<usize>
        ensures found { IfSome result (λ n. slice_get (memo_cell_tree self.now).values n ≡ Some (value_tree value.now)) }
        ensures new { IfNone result (IsNew (value_tree value.now) (memo_cell_tree self.now).values) }
    {
        let seen = self.values.as_slice();
        let mut at = seen.len();
        while at > 0 {
            at -= 1;
            if same_value(&seen[at], value) {
                return Some(at);
            }
        }
        None
    }

    /// The value is among those that were seen; its stamp. Err also where 2^32 values were seen.
    pub fn see(&mut self, value: Value) -> Result<u32, Memory>
        requires value { ValueFits (value_tree value) }
        requires memo_cell { MemoCellFits (memo_cell_tree self.old) }
        ensures ok { IfOk result (λ n. Sees (memo_cell_tree self.old) (value_tree value) n (memo_cell_tree self.new)) }
        ensures err { OnErr result (memo_cell_tree self.new ≡ memo_cell_tree self.old) }
        ensures fits { MemoCellFits (memo_cell_tree self.new) }
    {
        if let Some(place) = self.place(&value) {
            return stamp_at(place);
        }
        let stamp = stamp_at(self.values.len())?;
        self.values.push(value)?;
        Ok(stamp)
    }

    /// The value is kept. Err as of `see`; what was seen and what is kept is then as it was.
    pub fn keep(&mut self, value: Value, needs: List<Stamped>) -> Result<(), Memory>
        requires value { ValueFits (value_tree value) }
        requires memo_cell { MemoCellFits (memo_cell_tree self.old) }
        ensures ok { OnOk result (Keeps (memo_cell_tree self.old) (value_tree value) (map stamped_tree needs) (memo_cell_tree self.new)) }
        ensures err { OnErr result (memo_cell_tree self.new ≡ memo_cell_tree self.old) }
        ensures fits { MemoCellFits (memo_cell_tree self.new) }
    {
        let stamp = self.see(value)?;
        self.kept = Some(Kept { stamp, needs });
        Ok(())
    }

    /// The value with a stamp is kept. Takes no memory.
    pub fn keep_seen(&mut self, stamp: u32, needs: List<Stamped>)
        ensures { memo_cell_tree self.new ≡ kept_at (memo_cell_tree self.old) stamp (map stamped_tree needs) }
    {
        self.kept = Some(Kept { stamp, needs });
    }

    /// Nothing is kept; what was seen stays.
    pub fn forget(&mut self)
        ensures { memo_cell_tree self.new ≡ forgotten (memo_cell_tree self.old) }
    {
        self.kept = None;
    }

    /// The value that is kept.
    pub fn value(&self) -> Option<&Value>
        requires { MemoCellFits (memo_cell_tree self.now) }
        ensures value { option_map (λ v. value_tree v.now) result ≡ kept_value (memo_cell_tree self.now) }
        ensures fits { IfSome result (λ v. ValueFits (value_tree v.now)) }
    {
        match &self.kept {
            None => None,
            Some(kept) => self.values.get(kept.stamp as usize),
        }
    }
}
