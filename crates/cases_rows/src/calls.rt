//! What each call answers.

use crate::area_calls::{eliminated_case, refuted_cases};
use crate::decode_error::DecodeError;
use crate::form_calls::{condition_answer, form_answer};
use crate::loop_calls::loop_answer;
use crate::naming_calls::{all_pushed, all_renamed, fresh_case, variables_case};
use crate::row_calls;
use crate::text_calls::{precondition_answer, system_answer, transformer_answer};
use crate::transformer_calls::{apply_answer, closed_answer, one_answer, then_answer};
use std::alloc::{AllocError, Global};

/// The calls on forms, transformers and DO statements, and those of texts.
fn scalar_call(
    alloc: Global,
    call: &str,
    words: &str,
    parts: &[&str],
) -> Result<String, DecodeError> {
    match call {
        "form" => form_answer(alloc, parts),
        "condition" => condition_answer(alloc, parts),
        "then" => then_answer(alloc, parts),
        "apply" => apply_answer(alloc, parts),
        "closed" => closed_answer(alloc, parts),
        "one" => one_answer(alloc, parts),
        "loop" => loop_answer(alloc, parts),
        "text" => system_answer(alloc, words, parts),
        "precondition" => precondition_answer(alloc, words, parts),
        "transformer" => transformer_answer(alloc, words, parts),
        _ => Err(DecodeError::Malformed),
    }
}

/// The calls on a work area.
fn area_call(
    alloc: Global,
    call: &str,
    words: &str,
    parts: &[&str],
) -> Result<String, DecodeError> {
    match call {
        "eliminate_in" => eliminated_case(alloc, words, parts),
        "refuted_in" => refuted_cases(alloc, words, parts),
        _ => scalar_call(alloc, call, words, parts),
    }
}

/// The calls that make systems of rows of other systems.
fn naming_call(
    alloc: Global,
    call: &str,
    words: &str,
    parts: &[&str],
) -> Result<String, DecodeError> {
    match call {
        "rename_all" => all_renamed(alloc, words, parts),
        "of_rows" => variables_case(alloc, parts),
        "push_rows" => all_pushed(alloc, parts),
        "fresh_over" => fresh_case(alloc, words, parts),
        _ => area_call(alloc, call, words, parts),
    }
}

fn row_call(alloc: Global, call: &str, words: &str, parts: &[&str]) -> Result<String, DecodeError> {
    match call {
        "normalise" => row_calls::normalise_case(alloc, parts),
        "tidy" => row_calls::tidy_case(alloc, parts),
        "push_row" => row_calls::push_row_case(alloc, parts),
        "meet" => row_calls::meet_case(alloc, parts),
        "rename" => row_calls::rename_case(alloc, words, parts),
        "substitute" => row_calls::substitute_case(alloc, words, parts),
        "eliminate" => row_calls::eliminate_case(alloc, words, parts),
        "project" => row_calls::project_case(alloc, words, parts),
        "refuted" => row_calls::is_refuted(alloc, parts),
        "entails" => row_calls::is_entailed(alloc, parts),
        "clean" => row_calls::clean_case(alloc, parts),
        "hull" => row_calls::hull_case(alloc, parts),
        "minus" => row_calls::minus_case(alloc, parts),
        "closure" => row_calls::closure_case(alloc, words, parts),
        _ => naming_call(alloc, call, words, parts),
    }
}

fn call_case(alloc: Global, line: &str) -> Result<String, DecodeError> {
    let mut parts = Vec::new(alloc);
    for part in line.split(';') {
        parts.push(part)?;
    }
    match parts.as_slice() {
        [head, parts @ ..] => match head.trim().split_once(' ') {
            None => row_call(alloc, head.trim(), "", parts),
            Some((call, words)) => row_call(alloc, call, words, parts),
        },
        [] => Err(DecodeError::Malformed),
    }
}

/// The answer of a line, or that it is malformed.
pub fn answer(alloc: Global, line: &str) -> Result<String, AllocError> {
    match call_case(alloc, line) {
        Ok(text) => Ok(text),
        Err(DecodeError::Memory) => Err(AllocError),
        Err(DecodeError::Malformed) => String::from_str(alloc, "malformed"),
    }
}
