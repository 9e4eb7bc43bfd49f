//! The command: words, files and streams from the runtime, and an exit number.
#![tactic(auto)]

mod args;

use fx_base::{FileStore, Sent, Sink, StdSink, send_bytes};
use pips_top::{Status, run};
use std::process::ExitCode;

/// Where there is no memory for the words, one line says so. A failure of it changes no status.
fn without_words<E: Sink>(err: &mut E) -> Status {
    match send_bytes(err, b"pips: out of memory\n") {
        Sent::All | Sent::Failed(_) => Status::Memory,
    }
}

/// Runs over the real files and streams.
fn status_of(rt: &HostRuntime) -> Status {
    let mut err = StdSink::new(rt.stderr());
    let Ok(words) = args::words_of(rt, rt.alloc()) else {
        return without_words(&mut err);
    };
    let mut files = FileStore::new(rt);
    let mut out = StdSink::new(rt.stdout());
    run(rt.alloc(), &words, &mut files, &mut out, &mut err)
}

fn main(rt: HostRuntime) -> ExitCode {
    ExitCode::from(status_of(&rt).number())
}
