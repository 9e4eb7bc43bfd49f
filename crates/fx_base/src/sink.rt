//! A sink of bytes: what a put took.
ghost use Rattle.std.specs.Prelude.{◌≡◌, ◌≤◌};
ghost use Rattle.fx_base.specs.Sink.{PutBy};

/// What a put did.
#[derive(Clone, Copy, Debug, PartialEq, Eq)]
pub enum Put {
    /// The sink took this many of the first bytes of the piece, 0 only of an empty piece.
    Took(usize),
    /// A fault, which is counted: the sink took no byte.
    Failed,
}

/// Takes bytes, a piece at a time. `taken` has the bytes so far, None where contracts don't see them, and `faults`
/// counts the puts that failed.
pub trait Sink {
    ghost use Rattle.std.specs.Prelude.{Option, List, ℕ};

    ghost taken: { Self → Option (List ℕ) };

    ghost faults: { Self → ℕ };

    /// Appends the first bytes of a piece, at least one of a piece that has one, or fails and appends none.
    fn put(&mut self, piece: &[u8]) -> Put
        ensures answer { PutBy (taken self.old) (taken self.new) (faults self.old) (faults self.new) piece.now result }
        ensures counts { faults self.old ≤ faults self.new };
}
