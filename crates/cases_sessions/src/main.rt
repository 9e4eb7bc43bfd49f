//! Answers scripts of sessions, each by a database of its own, and prints the answers.
//!
//! A line `== SHOW` of standard input ends a script, and says with `all`, `bare` or `why` what is written beside the texts of modules. The LF before that line
//! is not the script's, so that a script may lack the one of its last line. The answer begins with a line `==`.
#![tactic(auto)]

mod case;

use fx_lists::Text;
use std::io::{self, BufRead, BufReader};

fn main(rt: HostRuntime) -> io::Result<()> {
    let alloc = rt.alloc();
    let mut script = Text::new(alloc);
    let mut is_begun = false;
    for line in BufReader::new(alloc, rt.reader())?.split(alloc, b'\n') {
        let line = line?;
        if let Some(word) = line.as_slice().strip_prefix(b"== ") {
            let answer = case::answer(alloc, word, &script)?;
            let lines = case::text_of(answer.as_slice());
            print!(rt; "==\n{lines}")?;
            script = Text::new(alloc);
            is_begun = false;
        } else {
            if is_begun {
                script.push(b'\n')?;
            }
            script.append(line.as_slice())?;
            is_begun = true;
        }
    }
    Ok(())
}
