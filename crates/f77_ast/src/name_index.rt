//! The index in which the names of a list are looked up.
ghost use Rattle.std.specs.Prelude.{◌≡◌, ◌++◌, ◌∷◌, ◌+◌, [], IfOk, OnOk, OnErr, List, ℕ};
ghost use Rattle.f77_ast.specs.Symbols.{number_from};
ghost use Rattle.f77_ast.specs.Index.{Indexes};

use fx_lists::Text;
use std::alloc::{AllocError as Memory, Global};
use std::collections::HashMap;

/// Finds a name in a list in constant time. The list is beside the index, and gets its elements by `push`: an element has the
/// name that is pushed with it. Of a name that is there several times the first counts.
#[derive(Drop)]
pub struct NameIndex {
    count: u32,
    numbers: HashMap<Vec<u8>, u32>,
}

impl NameIndex {
    /// The index of no names. Takes no memory.
    pub fn new(alloc: Global) -> NameIndex
        ensures { Indexes result [] }
    {
        NameIndex {
            count: 0,
            numbers: HashMap::new(alloc),
        }
    }

    /// The number of a name, from 1; None where the name is not there. Takes no memory.
    pub fn number(&self, name: &Text) -> Option<u32>
        ensures { (names : List (List ℕ)) → Indexes self.now names → result ≡ number_from 1 names name.now }
    {
        self.numbers.get(name.as_slice()).copied()
    }

    /// The place of a name, from 0; None where the name is not there. Takes no memory.
    pub fn place(&self, name: &Text) -> Option<u32>
        ensures { (names : List (List ℕ)) → Indexes self.now names → result ≡ number_from 0 names name.now }
    {
        match self.number(name) {
            None => None,
            Some(number) => Some(number.saturating_sub(1)),
        }
    }

    /// One name more, at the end.
    fn add(&mut self, name: Vec<u8>) -> Result<(), Memory>
        ensures ok { OnOk result
            ((names : List (List ℕ)) → Indexes self.old names → Indexes self.new (names ++ name.items ∷ [])) }
        ensures err { OnErr result ((names : List (List ℕ)) → Indexes self.old names → Indexes self.new names) }
    {
        let number = next_number(self.count)?;
        if !self.numbers.contains_key(&name) {
            self.numbers.insert(name, number)?;
        }
        self.count = number;
        Ok(())
    }

    /// Adds an element at the end of the list, and its name to the index. Err also where there are 2^32 - 1 names; list and index
    /// are then as before.
    pub fn push<T: Drop>(
        &mut self,
        name: Vec<u8>,
        list: &mut Vec<T>,
        element: T,
    ) -> Result<(), Memory>
        ensures list { OnOk result (list.new.items ≡ list.old.items ++ element ∷ []) }
        ensures index { OnOk result
            ((names : List (List ℕ)) → Indexes self.old names → Indexes self.new (names ++ name.items ∷ [])) }

        ensures same_list { OnErr result (list.new.items ≡ list.old.items) }
        ensures same_index { OnErr result
            ((names : List (List ℕ)) → Indexes self.old names → Indexes self.new names) }
    {
        list.push(element)?;
        match self.add(name) {
            Ok(()) => Ok(()),
            Err(_) => {
                let _ = list.pop();
                Err(Memory)
            }
        }
    }
}

/// The number after so many.
fn next_number(count: u32) -> Result<u32, Memory>
    ensures { IfOk result (λ n. n ≡ count + 1) }
{
    count.checked_add(1).ok_or(Memory)
}
