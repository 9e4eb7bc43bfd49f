//! A sink in memory, with puts that fail. Contracts see its bytes.
ghost use Rattle.std.specs.Prelude.{◌≡◌, ◌<◌, [], Some, OnOk};

use crate::tally::next_count;
use crate::{Put, Sink};
use fx_lists::List;
use std::alloc::{AllocError as Memory, Global};

/// A sink in memory, of which contracts see the bytes. It has a limited room, and puts with chosen numbers fail.
#[derive(Drop)]
pub struct MemSink {
    bytes: Vec<u8>,
    room: usize,
    piece: usize,
    failing: List<u64>,
    calls: u64,
    faults: u64,
    ghost takes_some: { 0 < piece },
}

impl MemSink {
    /// The sink without bytes, which takes at most `piece` bytes in a put and has no room yet. Its puts are numbered
    /// from 0, and those in `failing` fail.
    pub fn new(alloc: Global, piece: usize, failing: List<u64>) -> MemSink
        requires { 0 < piece }
        ensures { ⟦<MemSink as Sink>⟧.taken result ≡ Some [] }
    {
        MemSink {
            bytes: Vec::new(alloc),
            room: 0,
            piece,
            failing,
            calls: 0,
            faults: 0,
        }
    }

    /// Reserves memory for this many bytes more than it has taken. A put past this room is a fault.
    pub fn room(&mut self, bytes: usize) -> Result<(), Memory>
        ensures { ⟦<MemSink as Sink>⟧.taken self.new ≡ ⟦<MemSink as Sink>⟧.taken self.old }
    {
        self.bytes.reserve(bytes)?;
        self.room = self.bytes.len().saturating_add(bytes);
        Ok(())
    }

    /// The bytes taken so far, in order.
    pub fn bytes(&self) -> &[u8]
        ensures { ⟦<MemSink as Sink>⟧.taken self.now ≡ Some result.now }
    {
        self.bytes.as_slice()
    }
}

impl Sink for MemSink {
    ghost use Rattle.std.specs.Prelude.{Some};

    ghost taken = { λ s. Some s.bytes.items };

    ghost faults = { λ s. s.faults };

    fn put(&mut self, piece: &[u8]) -> Put {
        let call = self.calls;
        self.calls = next_count(call);
        let size = self.piece.min(piece.len());
        let is_past_room = size > self.room.saturating_sub(self.bytes.len());
        if is_past_room || self.failing.as_slice().contains(&call) {
            self.faults = next_count(self.faults);
            return Put::Failed;
        }
        match self.bytes.extend_from_slice(&piece[..size]) {
            Ok(()) => Put::Took(size),
            Err(_) => {
                self.faults = next_count(self.faults);
                Put::Failed
            }
        }
    }
}
