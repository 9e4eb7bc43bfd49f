//! The calls that write systems with names, as they stand.

use crate::decode_error::DecodeError;
use crate::rows::written_system;
use crate::transformers::cells_of;
use affine_systems::System;
use fx_lists::Text;
use std::alloc::{AllocError, Global};
use system_text::{precondition_line, system_text, transformer_line};

/// The names of the symbols from 1 on.
fn names_of(alloc: Global, words: &str) -> Result<Vec<Text>, AllocError> {
    let mut names = Vec::new(alloc);
    for word in words.split_whitespace() {
        names.push(Text::from_bytes(alloc, word.as_bytes())?)?;
    }
    Ok(names)
}

fn text_of(alloc: Global, text: &Text) -> Result<String, DecodeError> {
    let text = str::from_utf8(text.as_slice()).map_err(|_| DecodeError::Malformed)?;
    Ok(String::from_str(alloc, text)?)
}

/// The system of rows that are not tidied.
pub fn system_answer(alloc: Global, words: &str, parts: &[&str]) -> Result<String, DecodeError> {
    let [sys] = parts else {
        return Err(DecodeError::Malformed);
    };
    let names = names_of(alloc, words)?;
    let sys: System = written_system(alloc, sys)?;
    text_of(alloc, &system_text(alloc, names.as_slice(), &sys)?)
}

pub fn precondition_answer(
    alloc: Global,
    words: &str,
    parts: &[&str],
) -> Result<String, DecodeError> {
    let [sys] = parts else {
        return Err(DecodeError::Malformed);
    };
    let names = names_of(alloc, words)?;
    let sys = written_system(alloc, sys)?;
    text_of(alloc, &precondition_line(alloc, names.as_slice(), &sys)?)
}

pub fn transformer_answer(
    alloc: Global,
    words: &str,
    parts: &[&str],
) -> Result<String, DecodeError> {
    let [cells, sys] = parts else {
        return Err(DecodeError::Malformed);
    };
    let names = names_of(alloc, words)?;
    let cells = cells_of(alloc, cells)?;
    let sys = written_system(alloc, sys)?;
    text_of(
        alloc,
        &transformer_line(alloc, names.as_slice(), cells.as_slice(), &sys)?,
    )
}
