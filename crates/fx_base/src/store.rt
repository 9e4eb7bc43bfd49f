//! A store of files: what a fetch and a keep answer, and why.
ghost use Rattle.std.specs.Prelude.{◌≡◌};
ghost use Rattle.fx_base.specs.declared.store.Role.TheVariants.{Base};
ghost use Rattle.fx_base.specs.Store.{OnlyCounts, OnlyBaseFaults, FetchedBy, KeptBy};

use fx_lists::Text;
use std::alloc::Global;

/// What a fetch found: a file's text, or why there is none.
#[derive(Drop)]
pub enum Fetched {
    /// The bytes of the file, at most as many as the limit.
    Got(Text),
    /// There is no file of the name; a miss of the role.
    Absent,
    /// The file has more bytes than the limit; counted as overlong for the role.
    TooLong,
    /// It can't be opened or read; a fault of the role.
    Failed,
    /// There is not enough memory for its bytes.
    Memory,
}

/// Whether a file was written.
#[derive(Clone, Copy, Debug, PartialEq, Eq)]
pub enum Kept {
    /// The file of the name has the text.
    Done,
    /// It can't be written, and no file has changed; a fault of the base.
    Failed,
    /// There is not enough memory, and no file has changed.
    Memory,
}

/// What a file is to the program, for the counts.
#[derive(Clone, Copy, Debug, PartialEq, Eq)]
pub enum Role {
    /// A file that the program reads.
    Input,
    /// A file that the program writes, or has written.
    Base,
}

/// Files by name. `files` has the names with their bytes, None where contracts don't see them; `counts` has for each
/// role its faults, misses and overlong files.
pub trait Store {
    ghost use Rattle.std.specs.Prelude.{Option};
    ghost use Rattle.fx_base.specs.declared.store.Role.{Role};
    ghost use Rattle.fx_base.specs.declared.tally.Tally.{Tally};
    ghost use Rattle.fx_base.specs.Files.{Files};

    ghost files: { Self → Option Files };

    ghost counts: { Self → Role → Tally };

    /// The bytes of the file of a name, where it has at most `limit` bytes. What goes wrong but for memory is counted
    /// for the role.
    fn fetch(&mut self, alloc: Global, role: Role, name: &Text, limit: u64) -> Fetched
        ensures answer { FetchedBy (files self.old) (counts self.old role) (counts self.new role) name.now limit result }
        ensures unchanged { files self.new ≡ files self.old }
        ensures counts { OnlyCounts (counts self.old) (counts self.new) role };

    /// Writes the text to the file of a name, in place of what it had. A failure is counted as a fault of `Role::Base`.
    fn keep(&mut self, name: &Text, text: &Text) -> Kept
        ensures answer { KeptBy (files self.old) (files self.new) (counts self.old Base) (counts self.new Base) name.now text.now result }
        ensures counts { OnlyBaseFaults (counts self.old) (counts self.new) };
}
