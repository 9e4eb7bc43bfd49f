//! The calls on a work area.

use crate::decode_error::DecodeError;
use crate::rows::{system_of, vars_of};
use crate::written::{exact_text, truth_text};
use affine_systems::Var;
use std::alloc::Global;
use work_area::{Loaded, Work, eliminate_in, refuted_in};

/// An area of so many columns as the first word says, and the words after it.
fn area_of<'a>(alloc: Global, words: &'a str) -> Result<(Work, &'a str), DecodeError> {
    let (columns, rest) = words.split_once(' ').unwrap_or((words, ""));
    let columns = columns.parse().map_err(|_| DecodeError::Malformed)?;
    Ok((Work::with_room(alloc, columns)?, rest))
}

/// Eliminates variables one after another; whether that is exact.
fn eliminate_each(work: &mut Work, vars: &[Var]) -> bool {
    let mut exact = true;
    for v in vars {
        exact = eliminate_in(work, *v) && exact;
    }
    exact
}

/// What is left of a system in an area of so many columns without these variables.
pub fn eliminated_case(alloc: Global, words: &str, parts: &[&str]) -> Result<String, DecodeError> {
    let [sys] = parts else {
        return Err(DecodeError::Malformed);
    };
    let (mut work, words) = area_of(alloc, words)?;
    let vars = vars_of(alloc, words)?;
    let text = match work.load(&system_of(alloc, sys)?) {
        Loaded::NoRoom => String::from_str(alloc, "no room")?,
        Loaded::Done => {
            let exact = eliminate_each(&mut work, vars.as_slice());
            exact_text(alloc, exact, &work.system(alloc)?)?
        }
    };
    Ok(text)
}

/// Whether a system that is taken into the area is refuted there.
fn refuted_text(alloc: Global, work: &mut Work, part: &str) -> Result<String, DecodeError> {
    let text = match work.load(&system_of(alloc, part)?) {
        Loaded::NoRoom => String::from_str(alloc, "no room")?,
        Loaded::Done => truth_text(alloc, refuted_in(work))?,
    };
    Ok(text)
}

/// Which of some systems are refuted, one after another in one area.
pub fn refuted_cases(alloc: Global, words: &str, parts: &[&str]) -> Result<String, DecodeError> {
    let (mut work, _) = area_of(alloc, words)?;
    let mut out = String::new(alloc);
    for part in parts {
        if !out.is_empty() {
            out.push_str(" , ")?;
        }
        out.push_str(&refuted_text(alloc, &mut work, part)?)?;
    }
    Ok(out)
}
