//! A store in memory, with calls that fail. Contracts see its files.
ghost use Rattle.std.specs.Prelude.{◌≡◌, [], ◌∷◌, Some, option_map, OnOk, OnErr};
ghost use Rattle.fx_base.specs.Files.{Files, bytes_of};

use crate::tally::next_count;
use crate::{Fetched, Kept, Role, Store, Tallies};
use fx_lists::{List, Text};
use std::alloc::{AllocError as Memory, Global};

/// A store in memory, of which contracts see the files. Calls with chosen numbers fail.
#[derive(Drop)]
pub struct MemStore {
    files: Vec<(Text, Text)>,
    failing: List<u64>,
    calls: u64,
    counts: Tallies,
}

/// The bytes under a name.
fn find<'a>(files: &'a [(Text, Text)], name: &Text) -> Option<&'a Text>
    ensures { option_map (λ text. text.now) result ≡ bytes_of files.now name.now }
{
    for file in files {
        if file.0 == *name {
            return Some(&file.1);
        }
    }
    None
}

/// Puts a file before the others, where it counts.
fn put_first(files: &mut Vec<(Text, Text)>, name: &Text, text: &Text) -> Result<(), Memory>
    ensures ok { OnOk result (files.new.items ≡ (name.now, text.now) ∷ files.old.items) }
    ensures err { OnErr result (files.new.items ≡ files.old.items) }
{
    files.insert(0, (name.clone()?, text.clone()?))?;
    Ok(())
}

impl MemStore {
    /// The store without files, with all counts 0. Its fetches and keeps are numbered together from 0, and those in
    /// `failing` answer Failed.
    pub fn new(alloc: Global, failing: List<u64>) -> MemStore
        ensures { ⟦<MemStore as Store>⟧.files result ≡ Some [] }
    {
        MemStore {
            files: Vec::new(alloc),
            failing,
            calls: 0,
            counts: Tallies::new(),
        }
    }

    /// Puts a file into the store, in place of one of its name; this is no numbered call. On Err the files are those it
    /// had.
    pub fn hold(&mut self, name: &Text, text: &Text) -> Result<(), Memory>
        ensures ok { OnOk result ((held : Files) → ⟦<MemStore as Store>⟧.files self.old ≡ Some held → ⟦<MemStore as Store>⟧.files self.new ≡ Some ((name.now, text.now) ∷ held)) }
        ensures err { OnErr result (⟦<MemStore as Store>⟧.files self.new ≡ ⟦<MemStore as Store>⟧.files self.old) }
    {
        put_first(&mut self.files, name, text)
    }

    /// Whether the call that begins now fails.
    fn fails(&mut self) -> bool
        ensures { self.new ≡ record self.old { calls = self.new.calls } }
    {
        let call = self.calls;
        self.calls = next_count(call);
        self.failing.as_slice().contains(&call)
    }
}

impl Store for MemStore {
    ghost use Rattle.std.specs.Prelude.{Some};
    ghost use Rattle.fx_base.specs.Tallies.{tally_of};

    ghost files = { λ s. Some s.files.items };

    ghost counts = { λ s. tally_of s.counts };

    fn fetch(&mut self, _alloc: Global, role: Role, name: &Text, limit: u64) -> Fetched {
        if self.fails() {
            self.counts.fault(role);
            return Fetched::Failed;
        }
        match find(self.files.as_slice(), name) {
            None => {
                self.counts.miss(role);
                Fetched::Absent
            }
            Some(text) => {
                if text.len() as u64 > limit {
                    self.counts.overrun(role);
                    return Fetched::TooLong;
                }
                match text.clone() {
                    Ok(text) => Fetched::Got(text),
                    Err(_) => Fetched::Memory,
                }
            }
        }
    }

    fn keep(&mut self, name: &Text, text: &Text) -> Kept {
        if self.fails() {
            self.counts.fault_of_keep();
            return Kept::Failed;
        }
        match put_first(&mut self.files, name, text) {
            Ok(()) => Kept::Done,
            Err(_) => Kept::Memory,
        }
    }
}
