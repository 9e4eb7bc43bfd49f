//! The top call: reply, then write.
ghost use Rattle.std.specs.Prelude.{◌≤◌};
ghost use Rattle.pips_top.specs.Run.{Gains, Outside, Runs};

use crate::Status;
use crate::laws::{answered_is_sound, written_is_sound};
use crate::reply::{Reply, reply_to};
use fx_base::{Sent, Sink, Store, Words, send, send_bytes};
use std::alloc::Global;

/// Writes a line on err. A failure changes no status.
fn tell<E: Sink>(err: &mut E, line: &[u8])
    ensures gains { Gains (E.taken err.old) (E.taken err.new) (E.faults err.old) (E.faults err.new) line.now }
    ensures counts { E.faults err.old ≤ E.faults err.new }
{
    match send_bytes(err, line) {
        Sent::All => {}
        Sent::Failed(_) => {}
    }
}

/// All that the program does: it reads INPUT, from standard input where no word names it or `-` does, and writes the program with what
/// `--show` requests on `out`, with `--session` the answers to the commands of its script, or with `--generate` the counts of a sample
/// program; where this fails, it writes one line on `err`. With `--base` it first opens a base, whose results need not be made again, and
/// keeps what it leaves. The whole output is made and the base is kept before the first byte is written, and writing takes no memory.
pub fn run<F: Store, O: Sink, E: Sink>(
    alloc: Global,
    words: &Words,
    files: &mut F,
    out: &mut O,
    err: &mut E,
) -> Status
    ensures { let old : Outside = record {
      store = record { files = F.files files.old; counts = F.counts files.old };
      out = O.taken out.old;
      out_faults = O.faults out.old;
      err = E.taken err.old;
      err_faults = E.faults err.old;
    } in
        let new : Outside = record {
          store = record { files = F.files files.new; counts = F.counts files.new };
          out = O.taken out.new;
          out_faults = O.faults out.new;
          err = E.taken err.new;
          err_faults = E.faults err.new;
        } in
        Runs words.now old new result }
{
    written_is_sound();
    answered_is_sound();
    match reply_to(alloc, words, files) {
        Reply::Writing(text) => match send(out, &text) {
            Sent::All => Status::Done,
            Sent::Failed(_) => {
                tell(err, b"pips: cannot write\n");
                Status::WriteFault
            }
        },
        Reply::Stopping(status, line) => {
            tell(err, line.as_slice());
            status
        }
        Reply::NoMemory => {
            tell(err, b"pips: out of memory\n");
            Status::Memory
        }
    }
}
