//! The calls on a row, on a system, and on two systems.

use crate::decode_error::DecodeError;
use crate::given::are_cells;
use crate::rows::{normal_of, row_of, system_of, var_of, vars_of};
use crate::written::{exact_text, row_text, system_text, truth_text};
use affine_systems::terms::factor_of;
use affine_systems::{Norm, Var, meet, normalise, push_row, rename, substitute};
use elimination::eliminate;
use hull_projection::{Minus, clean, closure, entails, hull, minus, project, refuted};
use std::alloc::Global;

/// The only variable of words.
fn only_var(words: &str) -> Result<Var, DecodeError> {
    var_of(words).ok_or(DecodeError::Malformed)
}

pub fn normalise_case(alloc: Global, parts: &[&str]) -> Result<String, DecodeError> {
    let [row] = parts else {
        return Err(DecodeError::Malformed);
    };
    let mut row = row_of(alloc, row)?;
    let text = match normalise(&mut row) {
        Norm::Kept => row_text(alloc, &row)?,
        Norm::True => String::from_str(alloc, "true")?,
        Norm::False => String::from_str(alloc, "false")?,
        Norm::TooBig => String::from_str(alloc, "too big")?,
    };
    Ok(text)
}

pub fn tidy_case(alloc: Global, parts: &[&str]) -> Result<String, DecodeError> {
    let [sys] = parts else {
        return Err(DecodeError::Malformed);
    };
    Ok(system_text(alloc, &system_of(alloc, sys)?)?)
}

pub fn push_row_case(alloc: Global, parts: &[&str]) -> Result<String, DecodeError> {
    let [sys, row] = parts else {
        return Err(DecodeError::Malformed);
    };
    let sys = system_of(alloc, sys)?;
    let row = row_of(alloc, row)?;
    Ok(system_text(alloc, &push_row(alloc, &sys, &row)?)?)
}

pub fn meet_case(alloc: Global, parts: &[&str]) -> Result<String, DecodeError> {
    let [one, other] = parts else {
        return Err(DecodeError::Malformed);
    };
    let one = system_of(alloc, one)?;
    let other = system_of(alloc, other)?;
    Ok(system_text(alloc, &meet(alloc, &one, &other)?)?)
}

pub fn rename_case(alloc: Global, words: &str, parts: &[&str]) -> Result<String, DecodeError> {
    let [sys] = parts else {
        return Err(DecodeError::Malformed);
    };
    let (from, to) = words.split_once(' ').ok_or(DecodeError::Malformed)?;
    let from = only_var(from)?;
    let to = only_var(to)?;
    let sys = system_of(alloc, sys)?;
    Ok(system_text(alloc, &rename(alloc, &sys, from, to)?)?)
}

pub fn substitute_case(alloc: Global, words: &str, parts: &[&str]) -> Result<String, DecodeError> {
    let [row, by] = parts else {
        return Err(DecodeError::Malformed);
    };
    let row = normal_of(alloc, row)?;
    let by = normal_of(alloc, by)?;
    let var = only_var(words)?;
    if !by.equal || factor_of(by.terms.as_slice(), var).unsigned_abs() != 1 {
        return Err(DecodeError::Malformed);
    }
    let text = match substitute(alloc, &row, var, &by)? {
        Some(new) => row_text(alloc, &new)?,
        None => String::from_str(alloc, "too big")?,
    };
    Ok(text)
}

pub fn eliminate_case(alloc: Global, words: &str, parts: &[&str]) -> Result<String, DecodeError> {
    let [sys] = parts else {
        return Err(DecodeError::Malformed);
    };
    let sys = system_of(alloc, sys)?;
    let e = eliminate(alloc, sys, only_var(words)?)?;
    Ok(exact_text(alloc, e.exact, &e.system)?)
}

pub fn project_case(alloc: Global, words: &str, parts: &[&str]) -> Result<String, DecodeError> {
    let [sys] = parts else {
        return Err(DecodeError::Malformed);
    };
    let sys = system_of(alloc, sys)?;
    let s = project(alloc, &sys, &vars_of(alloc, words)?)?;
    Ok(exact_text(alloc, s.exact, &s.system)?)
}

pub fn is_refuted(alloc: Global, parts: &[&str]) -> Result<String, DecodeError> {
    let [sys] = parts else {
        return Err(DecodeError::Malformed);
    };
    let sys = system_of(alloc, sys)?;
    Ok(truth_text(alloc, refuted(alloc, &sys)?)?)
}

pub fn is_entailed(alloc: Global, parts: &[&str]) -> Result<String, DecodeError> {
    let [sys, row] = parts else {
        return Err(DecodeError::Malformed);
    };
    let sys = system_of(alloc, sys)?;
    let row = normal_of(alloc, row)?;
    Ok(truth_text(alloc, entails(alloc, &sys, &row)?)?)
}

pub fn clean_case(alloc: Global, parts: &[&str]) -> Result<String, DecodeError> {
    let [sys] = parts else {
        return Err(DecodeError::Malformed);
    };
    let sys = system_of(alloc, sys)?;
    Ok(system_text(alloc, &clean(alloc, &sys)?)?)
}

pub fn hull_case(alloc: Global, parts: &[&str]) -> Result<String, DecodeError> {
    let [one, other] = parts else {
        return Err(DecodeError::Malformed);
    };
    let one = system_of(alloc, one)?;
    let other = system_of(alloc, other)?;
    Ok(system_text(alloc, &hull(alloc, &one, &other)?)?)
}

pub fn minus_case(alloc: Global, parts: &[&str]) -> Result<String, DecodeError> {
    let [one, other] = parts else {
        return Err(DecodeError::Malformed);
    };
    let one = system_of(alloc, one)?;
    let other = system_of(alloc, other)?;
    let Minus { system, exact } = minus(alloc, &one, &other)?;
    let text = match system {
        Some(sys) => exact_text(alloc, exact, &sys)?,
        None => String::from_str(alloc, if exact { "nothing" } else { "not exact" })?,
    };
    Ok(text)
}

pub fn closure_case(alloc: Global, words: &str, parts: &[&str]) -> Result<String, DecodeError> {
    let [sys] = parts else {
        return Err(DecodeError::Malformed);
    };
    let changes = vars_of(alloc, words)?;
    if !are_cells(changes.as_slice()) {
        return Err(DecodeError::Malformed);
    }
    let sys = system_of(alloc, sys)?;
    Ok(system_text(alloc, &closure(alloc, &changes, &sys)?)?)
}
