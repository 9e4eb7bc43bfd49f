//! Reads programs and prints of each what is asked for, or its first refusal.
//!
//! A line `== KIND` ends each program of standard input: `storage` prints the symbols of each module and the pairs that overlap, `graph` the graph with
//! the tracked cells of the modules, `effects` the effects of the modules and their statements, `scalars` what these do to tracked cells and what holds
//! where they begin, and `loops` the conflicts of the iterations of their loops.
#![tactic(auto)]

mod case;
mod effects_of;
mod graphs;
mod loops_of;
mod reading;
mod scalars;
mod shown;
mod storage;
mod variables;

use fx_lists::Text;
use std::io::{self, BufRead, BufReader};

fn main(rt: HostRuntime) -> io::Result<()> {
    let alloc = rt.alloc();
    let mut program = Text::new(alloc);
    for line in BufReader::new(alloc, rt.reader())?.lines(alloc) {
        let line = line?;
        if let Some(words) = line.as_str().strip_prefix("==") {
            let answer = case::answer(alloc, words, &program)?;
            print!(rt; "{answer}==\n")?;
            program = Text::new(alloc);
        } else {
            program.append(line.as_bytes())?;
            program.push(b'\n')?;
        }
    }
    Ok(())
}
