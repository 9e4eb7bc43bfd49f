//! Sends a whole text, in as many pieces as the sink takes.
ghost use Rattle.std.specs.Prelude.{◌≤◌};
ghost use Rattle.fx_base.specs.Sink.{SentBy};

use crate::{Put, Sink};
use fx_lists::Text;

/// What a send did.
#[derive(Clone, Copy, Debug, PartialEq, Eq)]
pub enum Sent {
    /// The sink has taken all bytes.
    All,
    /// A put failed; the sink has taken this many of the first bytes.
    Failed(u64),
}

/// Sends a text to a sink, in as many puts as the sink needs: appends all of it, or its first n bytes up to a fault.
/// Takes no memory.
pub fn send<S: Sink>(sink: &mut S, text: &Text) -> Sent
    ensures answer { SentBy (S.taken sink.old) (S.taken sink.new) (S.faults sink.old) (S.faults sink.new) text.now result }
    ensures counts { S.faults sink.old ≤ S.faults sink.new }
{
    send_bytes(sink, text.as_slice())
}

/// Sends the bytes of a slice, as `send` does those of a text. Takes no memory.
pub fn send_bytes<S: Sink>(sink: &mut S, bytes: &[u8]) -> Sent
    ensures answer { SentBy (S.taken sink.old) (S.taken sink.new) (S.faults sink.old) (S.faults sink.new) bytes.now result }
    ensures counts { S.faults sink.old ≤ S.faults sink.new }
{
    let mut at = 0;
    while at < bytes.len() {
        match sink.put(&bytes[at..]) {
            Put::Took(n) => at += n,
            Put::Failed => return Sent::Failed(at as u64),
        }
    }
    Sent::All
}
