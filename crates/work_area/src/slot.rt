//! A row in reserved memory.
ghost use Rattle.std.specs.Prelude.{◌≡◌, ◌+◌, ◌++◌, ◌∷◌, [], ◌<◌, ◌≤◌, length, IfOk};
ghost use Rattle.std.specs.Vec.{vec_len, vec_capacity};
ghost use Rattle.affine_systems.specs.Rows.{row as row_of};
ghost use Rattle.affine_systems.specs.Items.{no_originals, item as item_of, false_item};
ghost use Rattle.work_area.specs.Slots.{row_in, item_in, room};

use affine_systems::items::Originals;
use affine_systems::{Row, Term};
use fx_lists::List;
use std::alloc::{AllocError as Memory, Global};

/// A row in reserved memory, with its originals and the number of its making, as an item has them.
#[derive(Debug, Drop)]
pub struct Slot {
    pub equal: bool,
    pub terms: Vec<Term>,
    pub bound: i128,
    pub originals: Originals,
    pub made: u128,
}

/// Adds a term, for which there is room.
pub fn put_term(terms: &mut Vec<Term>, term: Term)
    requires { vec_len terms.now < vec_capacity terms.now }
    ensures items { terms.new.items ≡ terms.old.items ++ term ∷ [] }
    ensures room { vec_capacity terms.old ≤ vec_capacity terms.new }
{
    let _ = terms.push(term);
}

/// Copies terms, for which there is room.
fn put_terms(terms: &mut Vec<Term>, more: &[Term])
    requires { vec_len terms.now + length more.now ≤ vec_capacity terms.now }
    ensures items { terms.new.items ≡ terms.old.items ++ more.now }
    ensures room { vec_capacity terms.old ≤ vec_capacity terms.new }
{
    let _ = terms.extend_from_slice(more);
}

impl Slot {
    /// Memory for a row of at most so many terms; it holds `0 <= 0`.
    pub fn with_room(alloc: Global, columns: usize) -> Result<Slot, Memory>
        ensures { IfOk result (λ s. columns ≤ room s) }
    {
        Ok(Slot {
            equal: false,
            terms: Vec::with_capacity(alloc, columns)?,
            bound: 0,
            originals: Originals::none(),
            made: 0,
        })
    }

    /// Copies a row in, without originals.
    pub fn put_row(&mut self, row: &Row, made: u128)
        requires { length row.now.terms ≤ room self.now }
        ensures item { item_in self.new ≡ item_of row.now no_originals made }
        ensures room { room self.old ≤ room self.new }
    {
        self.equal = row.equal;
        self.terms.clear();
        put_terms(&mut self.terms, row.terms.as_slice());
        self.bound = row.bound;
        self.originals = Originals::none();
        self.made = made;
    }

    /// Copies another row in, with its originals and its number.
    pub fn copy_from(&mut self, other: &Slot)
        requires { length other.now.terms.items ≤ room self.now }
        ensures item { item_in self.new ≡ item_in other.now }
        ensures room { room self.old ≤ room self.new }
    {
        self.equal = other.equal;
        self.terms.clear();
        put_terms(&mut self.terms, other.terms.as_slice());
        self.bound = other.bound;
        self.originals = other.originals;
        self.made = other.made;
    }

    /// Puts `0 <= -1` in.
    pub fn put_false(&mut self)
        ensures item { item_in self.new ≡ false_item }
        ensures room { room self.old ≤ room self.new }
    {
        self.equal = false;
        self.terms.clear();
        self.bound = -1;
        self.originals = Originals::none();
        self.made = 0;
    }

    /// Takes the originals away, and gives another number.
    pub fn number(&mut self, made: u128)
        ensures item { item_in self.new ≡ item_of (row_in self.old) no_originals made }
        ensures room { room self.old ≤ room self.new }
    {
        self.originals = Originals::none();
        self.made = made;
    }

    /// A copy of the row.
    pub fn row(&self, alloc: Global) -> Result<Row, Memory>
        ensures { IfOk result (λ r. r ≡ row_in self.now) }
    {
        Ok(Row {
            equal: self.equal,
            terms: List::from_slice(alloc, self.terms.as_slice())?,
            bound: self.bound,
        })
    }
}
