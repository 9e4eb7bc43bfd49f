//! The calls that rename many variables, add rows together, and number fresh variables.

use crate::decode_error::DecodeError;
use crate::rows::{rows_of, system_of, vars_of};
use crate::written::system_text;
use affine_systems::Var;
use std::alloc::{AllocError, Global};
use transformer_algebra::{Naming, fresh_over, of_rows, push_rows, rename_all};

/// Each variable with what stands for it behind it.
fn namings_of(alloc: Global, vars: &[Var]) -> Result<Vec<Naming>, AllocError> {
    let mut names = Vec::new(alloc);
    let mut first: Option<Var> = None;
    for v in vars {
        match first.take() {
            None => first = Some(*v),
            Some(from) => names.push(Naming { from, to: *v })?,
        }
    }
    Ok(names)
}

pub fn all_renamed(alloc: Global, words: &str, parts: &[&str]) -> Result<String, DecodeError> {
    let [sys] = parts else {
        return Err(DecodeError::Malformed);
    };
    let names = namings_of(alloc, vars_of(alloc, words)?.as_slice())?;
    let sys = system_of(alloc, sys)?;
    Ok(system_text(alloc, &rename_all(alloc, &sys, names.as_slice())?)?)
}

pub fn variables_case(alloc: Global, parts: &[&str]) -> Result<String, DecodeError> {
    let [rows] = parts else {
        return Err(DecodeError::Malformed);
    };
    let rows = rows_of(alloc, rows)?;
    Ok(system_text(alloc, &of_rows(alloc, rows)?)?)
}

pub fn all_pushed(alloc: Global, parts: &[&str]) -> Result<String, DecodeError> {
    let [sys, rows] = parts else {
        return Err(DecodeError::Malformed);
    };
    let sys = system_of(alloc, sys)?;
    let rows = rows_of(alloc, rows)?;
    Ok(system_text(alloc, &push_rows(alloc, &sys, rows)?)?)
}

/// The first fresh number of so many, or that there are none left.
pub fn fresh_case(alloc: Global, words: &str, parts: &[&str]) -> Result<String, DecodeError> {
    let [one, other] = parts else {
        return Err(DecodeError::Malformed);
    };
    let more = words.parse().map_err(|_| DecodeError::Malformed)?;
    let one = system_of(alloc, one)?;
    let other = system_of(alloc, other)?;
    let text = match fresh_over(&one, &other, more) {
        Ok(number) => format!(in alloc; "{number}")?,
        Err(_) => String::from_str(alloc, "none")?,
    };
    Ok(text)
}
