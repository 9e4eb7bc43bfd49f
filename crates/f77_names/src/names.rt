//! The names of a module in order of first appearance.
ghost use Rattle.std.specs.Prelude.{◌≡◌, ◌<◌, [], OnOk, OnErr, IfSome, List, length, map};
ghost use Rattle.std.specs.Option.{option_map};
ghost use Rattle.f77_names.specs.Entries.{changed, entry_tree, find, has_shape, place_in, seen, with_value};
ghost use Rattle.f77_names.specs.Words.{was_said_of, with_word};

use crate::{Entry, Word};
use f77_ast::{Constant, Constants, NameIndex};
use fx_lists::Text;
use std::alloc::{AllocError as Memory, Global};
use std::marker::Model;

/// The names of a module, counted from 0. A name is looked up in constant time.
#[derive(Drop)]
pub struct Names {
    entries: Vec<Entry>,
    index: NameIndex,
}

impl Model for Names {
    ghost use Rattle.std.specs.Prelude.{List, map};
    ghost use Rattle.f77_names.specs.declared.entry.Entry.{Entry};
    ghost use Rattle.f77_names.specs.Entries.{entry_tree, entry_names};
    ghost use Rattle.f77_ast.specs.Index.{Indexes};
    ghost use Rattle.f77_ast.specs.contracts.expr.Expr as expr;
    ghost use Rattle.std.specs.Coded.{codes};

    ghost Value = { List Entry };

    ghost coded = { Prim.hlevel (codes, expr.the_row.coded) };

    ghost view = { λ n. n.entries.items };

    ghost invariant = { λ n. Indexes n.index (entry_names (map entry_tree n.entries.items)) };
}

impl Names {
    /// No names. Takes no memory.
    pub fn new(alloc: Global) -> Names
        ensures { result ≡ [] }
    {
        Names {
            entries: Vec::new(alloc),
            index: NameIndex::new(alloc),
        }
    }

    /// The names in the order of first appearance.
    pub fn as_slice(&self) -> &[Entry]
        ensures { result.now ≡ self.now }
    {
        self.entries.as_slice()
    }

    /// The names without their index, in the same order. Takes no memory.
    pub fn into_entries(self) -> Vec<Entry>
        ensures { result.items ≡ self }
    {
        let Names { entries, .. } = self;
        entries
    }

    #[tactic(auto, unfolding(crate::specs::Entries::place_in))]
    fn look_up(&self, name: &Text) -> Option<usize>
        ensures { result ≡ place_in (map entry_tree self.now) name.now }
    {
        match self.index.place(name) {
            None => None,
            Some(at) => Some(at as usize),
        }
    }

    /// The place of a name, from 0; None where the name is not there. Takes no memory.
    pub fn place(&self, name: &Text) -> Option<usize>
        ensures place { result ≡ place_in (map entry_tree self.now) name.now }
        ensures within { IfSome result (λ at. at < length self.now) }
    {
        self.look_up(name)
    }

    /// What is known of a name; None where the name is not there. Takes no memory.
    pub fn find(&self, name: &Text) -> Option<&Entry>
        ensures { option_map (λ e. entry_tree e.now) result ≡ find name.now (map entry_tree self.now) }
    {
        match self.place(name) {
            None => None,
            Some(at) => Some(&self.entries[at]),
        }
    }

    /// Whether a name is there and has bounds. Takes no memory.
    pub fn is_array(&self, name: &Text) -> bool
        ensures { result ≡ has_shape name.now (map entry_tree self.now) }
    {
        match self.find(name) {
            None => false,
            Some(entry) => entry.shape.is_some(),
        }
    }

    /// Adds a name at the end with its line, unless it is there. Err also where there are 2^32 - 1 names; the names are then as
    /// before.
    pub fn see(&mut self, alloc: Global, name: &Text, line: u32) -> Result<(), Memory>
        ensures ok { OnOk result (map entry_tree self.new ≡ seen name.now line (map entry_tree self.old)) }
        ensures err { OnErr result (self.new ≡ self.old) }
    {
        if self.place(name).is_some() {
            return Ok(());
        }
        let key = Vec::from_slice(alloc, name.as_slice())?;
        let entry = Entry::new(name.clone()?, line);
        self.index.push(key, &mut self.entries, entry)?;
        Ok(())
    }

    /// Gives a name one more property; whether it had one of that kind before. A name that is not there gets none. Takes no memory.
    pub fn say(&mut self, name: &Text, word: Word) -> bool
        ensures entries { map entry_tree self.new ≡ changed name.now (with_word word) (map entry_tree self.old) }
        ensures twice { result ≡ was_said_of word name.now (map entry_tree self.old) }
    {
        match self.place(name) {
            None => false,
            Some(at) => {
                let entry = &mut self.entries[at];
                entry.say(word)
            }
        }
    }

    /// Gives a PARAMETER its value; a name that is not there gets none. Takes no memory.
    pub fn set_value(&mut self, name: &Text, value: Constant)
        ensures { map entry_tree self.new ≡ changed name.now (with_value value) (map entry_tree self.old) }
    {
        let _ = self.say(name, Word::Value(value));
    }
}

impl Constants for Names {
    ghost use Rattle.std.specs.Prelude.{map};
    ghost use Rattle.f77_names.specs.Entries.{entry_tree, value_among};

    ghost value_in = { λ n. value_among (map entry_tree n) };

    fn value(&self, name: &Text) -> Option<Constant> {
        match self.find(name) {
            None => None,
            Some(entry) => entry.value,
        }
    }
}
