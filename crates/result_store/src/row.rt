//! The memo cells of a name.
ghost use Rattle.std.specs.Prelude.{◌≡◌, map, replicate, IfOk, OnOk, OnErr};
ghost use Rattle.pipsmake_meaning.specs.MemoCells.{Keeps, no_memo_cell, forgotten, Sees};
ghost use Rattle.result_store.specs.Fits.{ValueFits, MemoCellFits};
ghost use Rattle.result_store.specs.Rows.{row_tree, memo_cell_tree, memo_cell_at, RowFits};
ghost use Rattle.result_store.specs.RowChanges.{IsEmptyRow, ChangesAt, ForgetsAll};
ghost use Rattle.result_store.specs.Seen.{kept_at};
ghost use Rattle.result_store.specs.Values.{value_tree, stamped_tree, item_of};

use crate::item::{Item, Stamped};
use crate::memo_cell::MemoCell;
use crate::value::Value;
use fx_lists::{List, Text};
use pipsmake_rules::KINDS;
use std::alloc::{AllocError as Memory, Global};

/// The memo cells of a name: that of its text, and those of its results in the order of the kinds.
#[derive(Drop)]
pub struct Row {
    pub name: Text,
    pub text: MemoCell,
    pub results: Vec<MemoCell>,
}

/// A memo cell for each kind, of which nothing was seen.
fn empty_memo_cells(alloc: Global) -> Result<Vec<MemoCell>, Memory>
    ensures { IfOk result (λ memo_cells. map memo_cell_tree memo_cells.items ≡ replicate 12 no_memo_cell) }
{
    let mut memo_cells = Vec::new(alloc);
    for _kind in 0..KINDS.len() {
        memo_cells.push(MemoCell::new(alloc))?;
    }
    Ok(memo_cells)
}

/// Nothing is kept of these; what was seen stays.
fn forget_all(memo_cells: &mut [MemoCell])
    ensures { map memo_cell_tree memo_cells.new ≡ map (λ s. forgotten (memo_cell_tree s)) memo_cells.old }
{
    for memo_cell in memo_cells.iter_mut() {
        memo_cell.forget();
    }
}

impl Row {
    /// The row of a name of which nothing was seen.
    pub fn new(alloc: Global, name: Text) -> Result<Row, Memory>
        ensures { IfOk result (λ row. IsEmptyRow name (row_tree row)) }
    {
        let results = empty_memo_cells(alloc)?;
        Ok(Row {
            name,
            text: MemoCell::new(alloc),
            results,
        })
    }

    /// The memo cell of an item.
    pub fn memo_cell(&self, item: Item) -> &MemoCell
        requires { RowFits (row_tree self.now) }
        ensures memo_cell { memo_cell_tree result.now ≡ memo_cell_at (row_tree self.now) (item_of item) }
        ensures fits { MemoCellFits (memo_cell_tree result.now) }
    {
        match item {
            Item::Text => &self.text,
            Item::Result(kind) => &self.results[kind.number() as usize],
        }
    }

    /// The value of an item is kept; on Err all is as it was.
    pub fn keep(&mut self, item: Item, value: Value, needs: List<Stamped>) -> Result<(), Memory>
        requires row { RowFits (row_tree self.old) }
        requires value { ValueFits (value_tree value) }
        ensures changes { ChangesAt (item_of item) (row_tree self.old) (row_tree self.new) }
        ensures ok { OnOk result (Keeps (memo_cell_at (row_tree self.old) (item_of item)) (value_tree value) (map stamped_tree needs) (memo_cell_at (row_tree self.new) (item_of item))) }
        ensures err { OnErr result (row_tree self.new ≡ row_tree self.old) }
    {
        match item {
            Item::Text => self.text.keep(value, needs),
            Item::Result(kind) => {
                let memo_cell = &mut self.results[kind.number() as usize];
                memo_cell.keep(value, needs)
            }
        }
    }

    /// The value is among those that were seen of an item; its stamp. On Err all is as it was.
    pub fn see(&mut self, item: Item, value: Value) -> Result<u32, Memory>
        requires row { RowFits (row_tree self.old) }
        requires value { ValueFits (value_tree value) }
        ensures changes { ChangesAt (item_of item) (row_tree self.old) (row_tree self.new) }
        ensures ok { IfOk result (λ n. Sees (memo_cell_at (row_tree self.old) (item_of item)) (value_tree value) n (memo_cell_at (row_tree self.new) (item_of item))) }
        ensures err { OnErr result (row_tree self.new ≡ row_tree self.old) }
    {
        match item {
            Item::Text => self.text.see(value),
            Item::Result(kind) => {
                let memo_cell = &mut self.results[kind.number() as usize];
                memo_cell.see(value)
            }
        }
    }

    /// The value of an item with a stamp is kept. Takes no memory.
    pub fn keep_seen(&mut self, item: Item, stamp: u32, needs: List<Stamped>)
        requires { RowFits (row_tree self.old) }
        ensures changes { ChangesAt (item_of item) (row_tree self.old) (row_tree self.new) }
        ensures kept { memo_cell_at (row_tree self.new) (item_of item) ≡ kept_at (memo_cell_at (row_tree self.old) (item_of item)) stamp (map stamped_tree needs) }
    {
        match item {
            Item::Text => self.text.keep_seen(stamp, needs),
            Item::Result(kind) => {
                let memo_cell = &mut self.results[kind.number() as usize];
                memo_cell.keep_seen(stamp, needs)
            }
        }
    }

    /// No result is kept; what was seen stays.
    pub fn forget(&mut self)
        requires { RowFits (row_tree self.old) }
        ensures { ForgetsAll (row_tree self.old) (row_tree self.new) }
    {
        forget_all(&mut self.results);
    }
}
