//! Reads texts of bases, and writes each again as it was read, or prints the number of its refusal.
//!
//! A line that begins with `==` ends each text of standard input; neither that line nor the line end before it is part of the text. A number on it is a limit of bytes:
//! then what is kept of the base within the limit is printed, or `none`.
#![tactic(auto)]

mod case;

use fx_lists::Text;
use std::alloc::{AllocError as Memory, Global};
use std::io::{self, BufRead, BufReader, Write};

/// Bytes without the last one.
fn without_last(alloc: Global, bytes: &[u8]) -> Result<Text, Memory> {
    match bytes {
        [] => Ok(Text::new(alloc)),
        [front @ .., _] => Text::from_bytes(alloc, front),
    }
}

fn main(rt: HostRuntime) -> io::Result<()> {
    let alloc = rt.alloc();
    let mut held = Vec::new(alloc);
    for line in BufReader::new(alloc, rt.reader())?.split(alloc, b'\n') {
        let line = line?;
        if line.as_slice().starts_with(b"==") {
            let text = without_last(alloc, held.as_slice())?;
            let answer = case::answer(alloc, line.as_slice(), &text)?;
            io::writer(&rt).write_all(answer.as_slice())?;
            held = Vec::new(alloc);
        } else {
            held.extend_from_slice(line.as_slice())?;
            held.push(b'\n')?;
        }
    }
    Ok(())
}
