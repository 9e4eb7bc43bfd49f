//! The memo cells of all names.
ghost use Rattle.std.specs.Prelude.{◌≡◌, ◌<◌, ◌↔◌, ℕ, List, length, map, Some, IfOk, OnOk, OnErr, IfSome, IsTrue, option_map};
ghost use Rattle.f77_ast.specs.Symbols.{number_from};
ghost use Rattle.pipsmake_meaning.specs.Making.{stamp_of, AllStay};
ghost use Rattle.pipsmake_meaning.specs.MemoCells.{KeepsIn, kept_value, no_memo_cell, SeenIn, Forgets};
ghost use Rattle.pipsmake_meaning.specs.Values.{Item as Of};
ghost use Rattle.result_store.specs.Fits.{ValueFits};
ghost use Rattle.result_store.specs.Rows.{row_tree, row_in, names_of, memo_cells_of, RowFits};
ghost use Rattle.result_store.specs.Seen.{KeepsSeen};
ghost use Rattle.result_store.specs.Values.{item_of, value_tree, stamped_tree, kept_tree};

use crate::item::{Item, Kept, Stamped};
use crate::row::Row;
use crate::stamps::same_stamps;
use crate::value::Value;
use f77_ast::NameIndex;
use fx_lists::{List, Text};
use std::alloc::{AllocError as Memory, Global};
use std::marker::Model;

/// The values that were seen of each item and name, none twice, and what is kept of them. A name is looked up in constant time.
#[derive(Drop)]
pub struct Store {
    rows: Vec<Row>,
    index: NameIndex,
}

impl Model for Store {
    ghost use Rattle.std.specs.Prelude.{List};
    ghost use Rattle.result_store.specs.declared.row.Row.{Row};
    ghost use Rattle.result_store.specs.Rows.{AreRows};
    ghost use Rattle.f77_ast.specs.contracts.expr.Expr as expr;
    ghost use Rattle.f77_ast.specs.contracts.stmt.Stmt as stmt;
    ghost use Rattle.std.specs.Coded.{codes};

    ghost Value = { List Row };

    ghost coded = { Prim.hlevel (codes, expr.the_row.coded, stmt.the_row.coded) };

    ghost view = { λ s. s.rows.items };

    ghost invariant = { λ s. AreRows s.index s.rows.items };
}

impl Store {
    /// Nothing was seen, and nothing is kept. Takes no memory.
    pub fn new(alloc: Global) -> Store
        ensures { (item : Of) (x : List ℕ) → memo_cells_of result item x ≡ no_memo_cell }
    {
        Store {
            rows: Vec::new(alloc),
            index: NameIndex::new(alloc),
        }
    }

    fn look_up(&self, name: &Text) -> Option<u32>
        ensures { result ≡ number_from 0 (names_of self.now) name.now }
    {
        self.index.place(name)
    }

    /// The place of the row of a name, from 0.
    fn place(&self, name: &Text) -> Option<u32>
        ensures place { result ≡ number_from 0 (names_of self.now) name.now }
        ensures within { IfSome result (λ at. at < length self.now) }
    {
        self.look_up(name)
    }

    /// The row of a name.
    fn row(&self, name: &Text) -> Option<&Row>
        ensures row { option_map (λ r. row_tree r.now) result ≡ row_in (map row_tree self.now) name.now }
        ensures fits { IfSome result (λ r. RowFits (row_tree r.now)) }
    {
        match self.place(name) {
            None => None,
            Some(at) => Some(&self.rows[at as usize]),
        }
    }

    /// What is kept of an item and name.
    fn kept(&self, item: Item, name: &Text) -> Option<&Kept>
        ensures { option_map (λ k. kept_tree k.now) result ≡ (memo_cells_of self.now (item_of item) name.now).kept }
    {
        match self.row(name) {
            None => None,
            Some(row) => row.memo_cell(item).kept.as_ref(),
        }
    }

    /// The value that is kept; None where none is. Takes no memory.
    pub fn value(&self, item: Item, name: &Text) -> Option<&Value>
        ensures value { option_map (λ v. value_tree v.now) result ≡ kept_value (memo_cells_of self.now (item_of item) name.now) }
        ensures fits { IfSome result (λ v. ValueFits (value_tree v.now)) }
    {
        match self.row(name) {
            None => None,
            Some(row) => row.memo_cell(item).value(),
        }
    }

    /// The stamp of the value that is kept: its place among those that were seen of its item and name, from 0. It is 0 too where none is kept. Takes no memory.
    pub fn stamp(&self, item: Item, name: &Text) -> u32
        ensures { result ≡ (stamp_of (memo_cells_of self.now) (item_of item) name.now).stamp }
    {
        match self.kept(item, name) {
            None => 0,
            Some(kept) => kept.stamp,
        }
    }

    /// What the kept value was made from; None where none is kept. Takes no memory.
    pub fn needs(&self, item: Item, name: &Text) -> Option<&List<Stamped>>
        ensures { option_map (λ ns. map stamped_tree ns.now) result ≡ option_map (λ k. k.needs) (memo_cells_of self.now (item_of item) name.now).kept }
    {
        match self.kept(item, name) {
            None => None,
            Some(kept) => Some(&kept.needs),
        }
    }

    /// Whether the kept value was made from just these, in this order. Takes no memory.
    pub fn is_made_from(&self, item: Item, name: &Text, stamps: &[Stamped]) -> bool
        ensures { IsTrue result ↔ (option_map (λ k. k.needs) (memo_cells_of self.now (item_of item) name.now).kept ≡ Some (map stamped_tree stamps.now)) }
    {
        match self.needs(item, name) {
            None => false,
            Some(needs) => same_stamps(needs.as_slice(), stamps),
        }
    }

    /// Adds a row of a name that has none; its place.
    fn add(&mut self, alloc: Global, name: &Text) -> Result<usize, Memory>
        requires { number_from 0 (names_of self.old) name.now ≡ None }
        ensures place { IfOk result (λ at. number_from 0 (names_of self.new) name.now ≡ Some at) }
        ensures within { IfOk result (λ at. at < length self.new) }
        ensures same { AllStay (memo_cells_of self.old) (memo_cells_of self.new) }
    {
        let row = Row::new(alloc, name.clone()?)?;
        let key = Vec::from_slice(alloc, name.as_slice())?;
        let at = self.rows.len();
        self.index.push(key, &mut self.rows, row)?;
        Ok(at)
    }

    /// The place of the row of a name, which is added where it lacks.
    fn place_or_add(&mut self, alloc: Global, name: &Text) -> Result<usize, Memory>
        ensures place { IfOk result (λ at. number_from 0 (names_of self.new) name.now ≡ Some at) }
        ensures within { IfOk result (λ at. at < length self.new) }
        ensures same { AllStay (memo_cells_of self.old) (memo_cells_of self.new) }
    {
        match self.place(name) {
            Some(at) => Ok(at as usize),
            None => self.add(alloc, name),
        }
    }

    /// The value is kept of an item and name, with what it was made from. It is compared with each value that was seen there, the newest first.
    /// Err also where 2^32 values or names were seen; all is then as it was.
    pub fn keep(
        &mut self,
        alloc: Global,
        item: Item,
        name: &Text,
        value: Value,
        needs: List<Stamped>,
    ) -> Result<(), Memory>
        requires { ValueFits (value_tree value) }
        ensures ok { OnOk result (KeepsIn (memo_cells_of self.old) (memo_cells_of self.new) (item_of item) name.now (value_tree value) (map stamped_tree needs)) }
        ensures err { OnErr result (AllStay (memo_cells_of self.old) (memo_cells_of self.new)) }
    {
        let at = self.place_or_add(alloc, name)?;
        let row = &mut self.rows[at];
        row.keep(item, value, needs)
    }

    /// The value is among those that were seen of an item and name; its stamp. What is kept stays. It is compared as by `keep`, and Err comes as there.
    pub fn see(
        &mut self,
        alloc: Global,
        item: Item,
        name: &Text,
        value: Value,
    ) -> Result<u32, Memory>
        requires { ValueFits (value_tree value) }
        ensures ok { IfOk result (λ n. SeenIn (memo_cells_of self.old) (memo_cells_of self.new) (item_of item) name.now (value_tree value) n) }
        ensures err { OnErr result (AllStay (memo_cells_of self.old) (memo_cells_of self.new)) }
    {
        let at = self.place_or_add(alloc, name)?;
        let row = &mut self.rows[at];
        row.see(item, value)
    }

    /// The value that was seen with a stamp is kept of an item and name, with what it was made from. Takes no memory.
    pub fn keep_seen(&mut self, item: Item, name: &Text, stamp: u32, needs: List<Stamped>)
        ensures { KeepsSeen (memo_cells_of self.old) (memo_cells_of self.new) (item_of item) name.now stamp (map stamped_tree needs) }
    {
        match self.place(name) {
            None => {}
            Some(at) => {
                let row = &mut self.rows[at as usize];
                row.keep_seen(item, stamp, needs);
            }
        }
    }

    /// No result of a name is kept any more. What was seen stays, and what is kept of its text. Takes no memory.
    pub fn forget(&mut self, name: &Text)
        ensures { Forgets (memo_cells_of self.old) (memo_cells_of self.new) name.now }
    {
        match self.place(name) {
            None => {}
            Some(at) => {
                let row = &mut self.rows[at as usize];
                row.forget();
            }
        }
    }
}
