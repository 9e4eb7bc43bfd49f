//! The storage groups of locals, numbered in the order of their first symbols.
ghost use Rattle.std.specs.Prelude.{◌≡◌, ◌||◌, ℕ, IfOk, OnOk, OnErr, [], is_some, map, nat_eq};
ghost use Rattle.std.specs.HashMap.{get};
ghost use Rattle.f77_names.specs.Entries.{entry_tree};
ghost use Rattle.storage_layout.specs.Groups.{groups_from, index_from, keeps, some_keeps, with_entry, with_group};

use f77_names::Entry;
use indexmap::IndexSet;
use std::alloc::{AllocError as Memory, Global};
use std::collections::HashMap;
use std::marker::Model;
use storage_data::{Groups, Home, OffsetNode};

/// Storage groups of locals in the order of their first symbols, each by the number of the variable that it began with. A group
/// is looked up in constant time.
#[derive(Drop)]
pub struct Numbering {
    began: IndexSet<u32>,
}

impl Model for Numbering {
    ghost use Rattle.std.specs.Prelude.{◌<◌, ◌^◌, List, ℕ, length};
    ghost use Rattle.std.specs.Coded.{coded_list, coded_ℕ};

    ghost Value = { List ℕ };

    ghost coded = { coded_list coded_ℕ };

    ghost view = { λ n. n.began.keys };

    ghost invariant = { λ n. length n.began.keys < 2 ^ 32 };
}

impl Numbering {
    fn new(alloc: Global) -> Numbering
        ensures { result ≡ [] }
    {
        Numbering {
            began: IndexSet::new(alloc),
        }
    }

    /// The number of a group, from 1; None where it is not numbered.
    pub fn number(&self, began: u32) -> Option<u32>
        ensures { result ≡ index_from 1 self.now began }
    {
        match self.began.get_index_of(&began) {
            None => None,
            Some(index) => Some(index as u32 + 1),
        }
    }

    /// Adds a group at the end unless it is there. Err also where there are 2^32 - 1 groups.
    fn add(&mut self, began: u32) -> Result<(), Memory>
        ensures ok { OnOk result (self.new ≡ with_group began self.old) }
        ensures err { OnErr result (self.new ≡ self.old) }
    {
        if self.began.len() >= u32::MAX as usize {
            return Err(Memory);
        }
        self.began.insert(began)?;
        Ok(())
    }

    fn add_entry(&mut self, entry: &Entry, offset_node: Option<OffsetNode>) -> Result<(), Memory>
        ensures { OnOk result (self.new ≡ with_entry (entry_tree entry.now) offset_node self.old) }
    {
        if entry.dummy.is_some() || entry.parameter {
            return Ok(());
        }
        match offset_node {
            None => Ok(()),
            Some(offset_node) => match offset_node.home {
                Home::Block(_) => Ok(()),
                Home::Own(began) => self.add(began),
            },
        }
    }

    /// The groups of the locals among these names, in the order of the names. Dummies, PARAMETER names and variables in blocks
    /// give none. Err also where there are 2^32 - 1 groups.
    #[tactic(auto, using(f77_ast::proofs::PlainlyDecl::decl_lists))]
    pub fn of(alloc: Global, entries: &[Entry], offset_nodes: &Groups) -> Result<Numbering, Memory>
        ensures { IfOk result (λ n. n ≡ groups_from 0 (map entry_tree entries.now) offset_nodes.now []) }
    {
        let mut numbering = Numbering::new(alloc);
        for (place, entry) in entries.iter().enumerate() {
            numbering.add_entry(entry, offset_nodes.offset_node(place))?;
        }
        Ok(numbering)
    }
}

#[tactic(auto, using(crate::proofs::KeptLaws::kept_steps))]
fn keep(
    kept: &mut HashMap<u32, bool>,
    entry: &Entry,
    offset_node: Option<OffsetNode>,
) -> Result<(), Memory>
    ensures { OnOk result
        ((h : ℕ) → is_some (get nat_eq kept.new h) ≡ (is_some (get nat_eq kept.old h) || keeps h (entry_tree entry.now) offset_node)) }
{
    if !(entry.saved || entry.initial) {
        return Ok(());
    }
    match offset_node {
        None => Ok(()),
        Some(offset_node) => match offset_node.home {
            Home::Block(_) => Ok(()),
            Home::Own(began) => match kept.insert(began, true) {
                Ok(_) => Ok(()),
                Err(_) => Err(Memory),
            },
        },
    }
}

/// The storage groups of which some variable is named in SAVE or in DATA (ANSI X3.9-1978, §8.9), as keys: the numbers of the
/// variables that they began with. Groups of blocks are left out.
#[tactic(auto, using(storage_data::proofs::TestLaws::twice_steps))]
pub fn kept_groups(
    alloc: Global,
    entries: &[Entry],
    offset_nodes: &Groups,
) -> Result<HashMap<u32, bool>, Memory>
    ensures { IfOk result
        (λ m. (h : ℕ) → is_some (get nat_eq m h) ≡ some_keeps h 0 (map entry_tree entries.now) offset_nodes.now) }
{
    let mut kept = HashMap::new(alloc);
    for (place, entry) in entries.iter().enumerate() {
        keep(&mut kept, entry, offset_nodes.offset_node(place))?;
    }
    Ok(kept)
}
