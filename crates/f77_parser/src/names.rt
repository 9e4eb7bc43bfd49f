//! Names and numbers in lists, which are looked up in constant time.
ghost use Rattle.std.specs.Prelude.{◌≡◌, ◌++◌, ◌∷◌, [], OnOk, IfOk, nat_eq};
ghost use Rattle.std.specs.List.{list_any};
ghost use Rattle.std.specs.HashSet.{IsFromIterResult};
ghost use Rattle.f77_parser.specs.Functions.{has};

use f77_ast::NameIndex;
use fx_lists::{List, Text};
use std::alloc::{AllocError as Memory, Global};
use std::collections::HashSet;
use std::marker::Model;

/// Names, which may be there several times.
#[derive(Drop)]
pub struct NameSet {
    names: Vec<Text>,
    index: NameIndex,
}

impl Model for NameSet {
    ghost use Rattle.std.specs.Prelude.{ℕ, List};
    ghost use Rattle.f77_ast.specs.Index.{Indexes};

    ghost Value = { List (List ℕ) };

    ghost view = { λ n. n.names.items };

    ghost invariant = { λ n. Indexes n.index n.names.items };
}

impl NameSet {
    /// No names. Takes no memory.
    pub fn new(alloc: Global) -> NameSet
        ensures { result ≡ [] }
    {
        NameSet {
            names: Vec::new(alloc),
            index: NameIndex::new(alloc),
        }
    }

    /// Whether a name is among them. Takes no memory.
    #[tactic(auto, using(crate::proofs::NameLaws::numbered))]
    pub fn has(&self, name: &Text) -> bool
        ensures { result ≡ has self.now name.now }
    {
        self.index.number(name).is_some()
    }

    /// One name more. Err also where there are 2^32 - 1 names.
    pub fn add(&mut self, name: &Text) -> Result<(), Memory>
        ensures { OnOk result (self.new ≡ self.old ++ name.now ∷ []) }
    {
        let key = name.clone()?.into_vec();
        let copy = name.clone()?;
        self.index.push(key, &mut self.names, copy)
    }

    /// All these names more.
    pub fn add_all(&mut self, names: &List<Text>) -> Result<(), Memory>
        ensures { OnOk result (self.new ≡ self.old ++ names.now) }
    {
        for name in names.as_slice() {
            self.add(name)?;
        }
        Ok(())
    }
}

/// Numbers, which may be there several times.
#[derive(Drop)]
pub struct NumberSet {
    numbers: List<u32>,
    set: HashSet<u32>,
}

impl Model for NumberSet {
    ghost use Rattle.std.specs.Prelude.{◌≡◌, ℕ, List, nat_eq};
    ghost use Rattle.std.specs.List.{list_any};
    ghost use Rattle.std.specs.HashSet.{contains};

    ghost Value = { List ℕ };

    ghost view = { λ n. n.numbers };

    ghost invariant = { λ n. (q : ℕ) → contains nat_eq n.set q ≡ list_any (nat_eq q) n.numbers };
}

fn set_of(alloc: Global, numbers: &[u32]) -> Result<HashSet<u32>, Memory>
    ensures { IfOk result (IsFromIterResult nat_eq numbers.now) }
{
    numbers.iter().copied().collect(alloc)
}

impl NumberSet {
    /// The set of these numbers.
    pub fn of(alloc: Global, numbers: &List<u32>) -> Result<NumberSet, Memory>
        ensures { IfOk result (λ n. n ≡ numbers.now) }
    {
        let set = set_of(alloc, numbers.as_slice())?;
        let numbers = List::from_slice(alloc, numbers.as_slice())?;
        Ok(NumberSet { numbers, set })
    }

    /// Whether a number is among them. Takes no memory.
    pub fn has(&self, number: u32) -> bool
        ensures { result ≡ list_any (nat_eq number) self.now }
    {
        self.set.contains(&number)
    }
}
