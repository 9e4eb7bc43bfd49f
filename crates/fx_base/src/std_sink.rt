//! Standard output or standard error. Contracts see the count of its faults alone.
use crate::tally::next_count;
use crate::{Put, Sink};

/// A stream that is printed to, with the count of its faults, which is all that contracts see of it.
#[derive(Drop)]
pub struct StdSink<P: Print> {
    to: P,
    faults: u64,
}

impl<P: Print> StdSink<P> {
    /// The sink of this stream, with no faults.
    pub fn new(to: P) -> StdSink<P> {
        StdSink { to, faults: 0 }
    }
}

impl<P: Print> Sink for StdSink<P> {
    ghost use Rattle.std.specs.Prelude.{None};

    ghost taken = { λ _. None };

    ghost faults = { λ s. s.faults };

    fn put(&mut self, piece: &[u8]) -> Put {
        if piece.is_empty() {
            return Put::Took(0);
        }
        match self.to.write_some(piece) {
            Ok(n) if n > 0 => Put::Took(n),
            _ => {
                self.faults = next_count(self.faults);
                Put::Failed
            }
        }
    }
}
