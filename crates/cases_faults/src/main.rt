//! Runs the command over a store and sinks in memory of which chosen calls fail, and prints how each run ended, what it wrote, and what was kept.
//!
//! Standard input has texts, each ended by a line that begins with `== `; the LF before that line is not the text's.
//!
//! - `== more COUNT`: the text, so many times, begins the next file.
//! - `== hold NAME`: with what was begun before it the text is the file of this name.
//! - `== run STORE OUT PIECE ERR WORDS`: the command is run with these words, one blank between two, over the files that were held since the last run. Call STORE of the store fails, call OUT of
//!   out, which takes at most PIECE bytes in a call, and call ERR of err; `-` is none.
//!
//! An answer has a line `== STATUS`, the bytes of out, a line `== err`, the bytes of err, and what is held as `b.json` afterwards, behind a line `== base`: or one of the lines `== no base` and `== base as before`.
#![tactic(auto)]

mod case;
mod held;

use held::Held;
use std::io::{self, BufRead, BufReader, Write};

fn main(rt: HostRuntime) -> io::Result<()> {
    let alloc = rt.alloc();
    let mut held = Held::new(alloc);
    for line in BufReader::new(alloc, rt.reader())?.split(alloc, b'\n') {
        let line = line?;
        if let Some(count) = line.as_slice().strip_prefix(b"== more ") {
            held.repeat(count)?;
        } else if let Some(name) = line.as_slice().strip_prefix(b"== hold ") {
            held.hold(name)?;
        } else if let Some(words) = line.as_slice().strip_prefix(b"== run ") {
            let answer = case::answer(alloc, words, held.files())?;
            io::writer(&rt).write_all(answer.as_slice())?;
            held = Held::new(alloc);
        } else {
            held.add(line.as_slice())?;
        }
    }
    Ok(())
}
