//! Runs the command on programs in memory, and prints how each run ended and what it wrote.
//!
//! A line `== WORDS` of standard input ends a program and has the words of the command line, in which the program is `p.f`.
//! The LF before that line is not the program's, so that a program may lack the one of its last line. The answer begins
//! with a line `== STATUS`; after it come the bytes of out and then those of err.
#![tactic(auto)]

mod case;

use fx_lists::Text;
use std::io::{self, BufRead, BufReader};

fn main(rt: HostRuntime) -> io::Result<()> {
    let alloc = rt.alloc();
    let mut program = Text::new(alloc);
    let mut is_begun = false;
    for line in BufReader::new(alloc, rt.reader())?.split(alloc, b'\n') {
        let line = line?;
        if let Some(words) = line.as_slice().strip_prefix(b"==") {
            let answer = case::answer(alloc, words, &program)?;
            print!(rt; "{answer}")?;
            program = Text::new(alloc);
            is_begun = false;
        } else {
            if is_begun {
                program.push(b'\n')?;
            }
            program.append(line.as_slice())?;
            is_begun = true;
        }
    }
    Ok(())
}
