//! Results in the order in which they are made.
ghost use Rattle.std.specs.Prelude.{◌≡◌, [], ◌∷◌, ◌++◌, map, IfOk};
ghost use Rattle.f77_ast.specs.Symbols.{number_from};
ghost use Rattle.pipsmake_rules.specs.Keys.{holds, code_of};

use crate::key::{Key, code_of};
use crate::kind::Kind;
use f77_ast::NameIndex;
use fx_lists::{List, Text};
use std::alloc::{AllocError as Memory, Global};
use std::marker::Model;

/// Results in an order. One is found in constant time, by the number of its kind and its name.
#[derive(Drop)]
pub struct Listed {
    keys: Vec<Key>,
    index: NameIndex,
}

impl Model for Listed {
    ghost use Rattle.std.specs.Prelude.{List, map};
    ghost use Rattle.f77_ast.specs.Index.{Indexes};
    ghost use Rattle.pipsmake_rules.specs.declared.key.Key.{Key};
    ghost use Rattle.pipsmake_rules.specs.Keys.{code_of};

    ghost Value = { List Key };

    ghost view = { λ l. l.keys.items };

    ghost invariant = { λ l. Indexes l.index (map code_of l.keys.items) };
}

impl Listed {
    /// No results. Takes no memory.
    pub fn new(alloc: Global) -> Listed
        ensures { result ≡ [] }
    {
        Listed {
            keys: Vec::new(alloc),
            index: NameIndex::new(alloc),
        }
    }

    /// The first place of a code, from 0.
    fn place(&self, code: &Text) -> Option<u32>
        ensures { result ≡ number_from 0 (map code_of self.now) code.now }
    {
        self.index.place(code)
    }

    /// Whether a result is there.
    #[tactic(auto, using(crate::proofs::KeyLaws::key_steps))]
    pub fn has(&self, alloc: Global, key: &Key) -> Result<bool, Memory>
        ensures { IfOk result (λ has. has ≡ holds self.now key.now) }
    {
        let code = code_of(alloc, key)?;
        let place = self.place(&code);
        Ok(place.is_some())
    }

    /// Whether the result of a kind and a name is there. Takes no memory; all are looked at.
    pub fn lists(&self, kind: Kind, name: &[u8]) -> bool
        ensures { result ≡ holds self.now (record { kind = kind; name = name.now }) }
    {
        let mut rest = self.keys.as_slice();
        while let [key, more @ ..] = rest {
            if key.kind == kind && key.name.as_slice() == name {
                return true;
            }
            rest = more;
        }
        false
    }

    /// Adds a result at the end. Err also where there are 2^32 - 1.
    pub fn push(&mut self, alloc: Global, key: Key) -> Result<(), Memory>
        ensures { IfOk result (λ _. self.new ≡ self.old ++ key ∷ []) }
    {
        let code = code_of(alloc, &key)?;
        self.index.push(code.into_vec(), &mut self.keys, key)
    }

    /// Adds copies of results at the end. Err also where there are 2^32 - 1.
    fn push_all(&mut self, alloc: Global, keys: &[Key]) -> Result<(), Memory>
        ensures { IfOk result (λ _. self.new ≡ self.old ++ keys.now) }
    {
        let mut rest = keys;
        while let [key, more @ ..] = rest {
            let name = key.name.clone()?;
            let kind = key.kind;
            self.push(alloc, Key { kind, name })?;
            rest = more;
        }
        Ok(())
    }

    /// The same results once more, in the same order.
    pub fn copied(&self, alloc: Global) -> Result<Listed, Memory>
        ensures { IfOk result (λ l. l ≡ self.now) }
    {
        let mut all = Listed::new(alloc);
        all.push_all(alloc, self.keys.as_slice())?;
        Ok(all)
    }

    /// The results, in order. Takes no memory.
    pub fn into_list(self) -> List<Key>
        ensures { result ≡ self }
    {
        let Listed { keys, index: _ } = self;
        List::from_vec(keys)
    }
}
