//! Stores and sinks in memory, whose calls of one number fail.
ghost use Rattle.std.specs.Prelude.{◌<◌};

use fx_base::{MemSink, MemStore};
use fx_lists::{List, Text};
use std::alloc::{AllocError as Memory, Global};

/// The number of a call that is never made.
pub const NEVER: u64 = 1_000_000;

/// A list of this number alone.
pub fn one(alloc: Global, call: u64) -> Result<List<u64>, Memory> {
    let mut calls = List::new(alloc);
    calls.push(call)?;
    Ok(calls)
}

/// A store that holds one file.
pub fn store(alloc: Global, name: &[u8], held: &[u8], failing: u64) -> Result<MemStore, Memory> {
    let mut files = MemStore::new(alloc, one(alloc, failing)?);
    files.hold(
        &Text::from_bytes(alloc, name)?,
        &Text::from_bytes(alloc, held)?,
    )?;
    Ok(files)
}

/// A sink that takes at most `piece` bytes in a put, and has room for this many.
pub fn sink(alloc: Global, piece: usize, room: usize, failing: u64) -> Result<MemSink, Memory>
    requires { 0 < piece }
{
    let mut sink = MemSink::new(alloc, piece, one(alloc, failing)?);
    sink.room(room)?;
    Ok(sink)
}
