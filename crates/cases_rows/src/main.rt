//! Reads calls on rows, systems, forms and transformers, one a line, and prints what each call answers.
//!
//! A line is a call with its words and, behind each `;`, a part: `project c0 ; -1 c0 <= -1 , 2 c0 -1 p1 == 0`. A variable is its
//! kind (c, x, p or a for cell, exit, phi and auxiliary) and its number; `weak` marks a weak system. A transformer is its cells,
//! its foreign units and its system: `1 2 | B 5 | 1 x1 -1 c1 == 1`. A table of symbols has a name for a tracked cell, `J*` for
//! one that is not tracked, and `N=5` or `L=T` for a constant; an expression has its operators behind the operands: `I 2 K mul add`.
#![tactic(auto)]

mod area_calls;
mod calls;
mod decode_error;
mod expressions;
mod form_calls;
mod given;
mod loop_calls;
mod naming_calls;
mod row_calls;
mod rows;
mod tables;
mod text_calls;
mod transformer_calls;
mod transformers;
mod written;

use std::io::{self, BufRead, BufReader};

fn main(rt: HostRuntime) -> io::Result<()> {
    let alloc = rt.alloc();
    for line in BufReader::new(alloc, rt.reader())?.lines(alloc) {
        let line = line?;
        let answer = calls::answer(alloc, line.as_str())?;
        println!(rt; "{answer}")?;
    }
    Ok(())
}
