//! The files of the system, and standard input under the name `-`. Contracts see the counts alone.
ghost use Rattle.std.specs.Prelude.{ℕ};
ghost use Rattle.fx_base.specs.Store.{WithinLimit};

use crate::replacing::replace;
use crate::{Fetched, Kept, Role, Store, Tallies};
use fx_lists::Text;
use std::alloc::Global;
use std::fs::File;
use std::io::{ErrorKind, Read};
use std::rt::Files;
use std::{io, str};

/// Files of the system, through the runtime; a fetch of the name `-` reads standard input. A name that is no UTF-8
/// can't be opened, which is a fault. Contracts see its counts alone.
#[derive(Drop)]
pub struct FileStore<R: Files<File = File> + Input + AllocGlobal> {
    rt: R,
    counts: Tallies,
}

impl<R: Files<File = File> + Input + AllocGlobal> FileStore<R> {
    /// The store of the files of this runtime, with all counts 0.
    pub fn new(rt: R) -> FileStore<R> {
        FileStore {
            rt,
            counts: Tallies::new(),
        }
    }

    fn read_named(&self, alloc: Global, name: &Text, limit: u64) -> Fetched
        ensures { WithinLimit limit result }
    {
        if name.as_slice() == b"-".as_slice() {
            return read_within(alloc, &mut self.rt.reader(), limit);
        }
        let path = match str::from_utf8(name.as_slice()) {
            Ok(path) => path,
            Err(_) => return Fetched::Failed,
        };
        match File::open(&self.rt, path) {
            Ok(mut file) => read_within(alloc, &mut file, limit),
            Err(error) => failure(error),
        }
    }

    fn replace_named(&self, name: &Text, text: &Text) -> Kept {
        let Ok(path) = str::from_utf8(name.as_slice()) else {
            return Kept::Failed;
        };
        match replace(&self.rt, path, text.as_slice()) {
            Ok(()) => Kept::Done,
            Err(error) if error.kind() == ErrorKind::OutOfMemory => Kept::Memory,
            Err(_) => Kept::Failed,
        }
    }
}

/// The answer to an error of opening or reading.
fn failure(error: io::Error) -> Fetched
    ensures { (limit : ℕ) → WithinLimit limit result }
{
    match error.kind() {
        ErrorKind::NotFound => Fetched::Absent,
        ErrorKind::OutOfMemory => Fetched::Memory,
        _ => Fetched::Failed,
    }
}

/// Reads to the end, in pieces, and stops past the limit.
fn read_within<I: Read>(alloc: Global, input: &mut I, limit: u64) -> Fetched
    ensures { WithinLimit limit result }
{
    let mut text = Text::new(alloc);
    let mut piece = [0u8; 4096];
    for _ in 0..u64::MAX {
        let n = match input.read(&mut piece) {
            Ok(n) => n,
            Err(error) => return failure(error),
        };
        if n == 0 {
            return Fetched::Got(text);
        }
        if n as u64 > limit - text.len() as u64 {
            return Fetched::TooLong;
        }
        if text.append(&piece[..n]).is_err() {
            return Fetched::Memory;
        }
    }
    Fetched::Failed
}

impl<R: Files<File = File> + Input + AllocGlobal> Store for FileStore<R> {
    ghost use Rattle.std.specs.Prelude.{None};
    ghost use Rattle.fx_base.specs.Tallies.{tally_of};

    ghost files = { λ _. None };

    ghost counts = { λ s. tally_of s.counts };

    fn fetch(&mut self, alloc: Global, role: Role, name: &Text, limit: u64) -> Fetched {
        let fetched = self.read_named(alloc, name, limit);
        match &fetched {
            Fetched::Absent => self.counts.miss(role),
            Fetched::TooLong => self.counts.overrun(role),
            Fetched::Failed => self.counts.fault(role),
            Fetched::Got(_) | Fetched::Memory => {}
        }
        fetched
    }

    fn keep(&mut self, name: &Text, text: &Text) -> Kept {
        let kept = self.replace_named(name, text);
        if kept == Kept::Failed {
            self.counts.fault_of_keep();
        }
        kept
    }
}
