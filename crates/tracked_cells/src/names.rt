//! Lists of names.
ghost use Rattle.std.specs.Prelude.{◌≡◌, ◌++◌, ◌∷◌, [], map, slice_get, IfOk, OnOk, OnErr};
ghost use Rattle.std.specs.Option.{option_copied};
ghost use Rattle.f77_ast.specs.PlainDecl.{parsed_tree};
ghost use Rattle.f77_ast.specs.Symbols.{number_from};
ghost use Rattle.tracked_cells.specs.Names.{names_of};

use f77_ast::{NameIndex, Parsed};
use fx_lists::{List, Text};
use std::alloc::{AllocError as Memory, Global};
use std::marker::Model;

/// Names by their places, from 0, perhaps with repeats. The first place of a name is found in constant time.
#[derive(Drop)]
pub struct Names {
    names: Vec<Text>,
    index: NameIndex,
}

impl Model for Names {
    ghost use Rattle.std.specs.Prelude.{List, ℕ};
    ghost use Rattle.f77_ast.specs.Index.{Indexes};

    ghost Value = { List (List ℕ) };

    ghost view = { λ n. n.names.items };

    ghost invariant = { λ n. Indexes n.index n.names.items };
}

impl Names {
    /// No names. Takes no memory.
    pub fn new(alloc: Global) -> Names
        ensures { result ≡ [] }
    {
        Names {
            names: Vec::new(alloc),
            index: NameIndex::new(alloc),
        }
    }

    /// The first place of a name, from 0; None where the name is not there.
    pub fn place(&self, name: &Text) -> Option<u32>
        ensures { result ≡ number_from 0 self.now name.now }
    {
        self.index.place(name)
    }

    /// The name at a place, from 0; None past the last name.
    pub fn name(&self, place: u32) -> Option<&Text>
        ensures { option_copied result ≡ slice_get self.now place }
    {
        self.names.get(place as usize)
    }

    /// All names, in the order of their places.
    pub fn names(&self) -> &[Text]
        ensures { result.now ≡ self.now }
    {
        self.names.as_slice()
    }

    /// Adds a name at the end, also one that is there. Err also where there are 2^32 - 1 names. After an Err all is as it was.
    pub fn push(&mut self, alloc: Global, name: &Text) -> Result<(), Memory>
        ensures ok { OnOk result (self.new ≡ self.old ++ name.now ∷ []) }
        ensures err { OnErr result (self.new ≡ self.old) }
    {
        let key = Vec::from_slice(alloc, name.as_slice())?;
        let name = name.clone()?;
        self.index.push(key, &mut self.names, name)?;
        Ok(())
    }

    /// The names of these modules, in their order.
    pub fn of(alloc: Global, modules: &List<Parsed>) -> Result<Names, Memory>
        ensures { IfOk result (λ names. names ≡ names_of (map parsed_tree modules.now)) }
    {
        let mut names = Names::new(alloc);
        for parsed in modules.as_slice() {
            names.push(alloc, &parsed.module.name)?;
        }
        Ok(names)
    }
}
