//! The words after the program's name, as bytes, since a word need not be text.
use fx_base::Words;
use fx_lists::{List, Text};
use std::alloc::{AllocError as Memory, Global};
use std::env::FillError;
use std::rt::Env;

/// A word, from 0 the program's name, or why it does not fill a buffer of this size.
fn word_within<R: Env>(
    rt: &R,
    alloc: Global,
    at: usize,
    size: usize,
) -> Result<Result<Text, FillError>, Memory> {
    let mut buffer = vec![in alloc; 0u8; size]?;
    match rt.arg(at, buffer.as_mut_slice()) {
        Ok(n) => Ok(Ok(Text::from_bytes(alloc, &buffer[..n])?)),
        Err(error) => Ok(Err(error)),
    }
}

/// A word, or None where there are fewer. The buffer is doubled until the word fits.
fn word<R: Env>(rt: &R, alloc: Global, at: usize) -> Result<Option<Text>, Memory> {
    let mut size = 256usize;
    for _ in 0..usize::BITS {
        match word_within(rt, alloc, at, size)? {
            Ok(word) => return Ok(Some(word)),
            Err(FillError::NotPresent) => return Ok(None),
            Err(FillError::TooLong) => size = size.saturating_add(size),
        }
    }
    Err(Memory)
}

/// The words after the program's name, in order, each with all of its bytes, which need not be text.
pub fn words_of<R: Env>(rt: &R, alloc: Global) -> Result<Words, Memory> {
    let mut words = List::new(alloc);
    for at in 1..usize::MAX {
        match word(rt, alloc, at)? {
            Some(word) => words.push(word)?,
            None => break,
        }
    }
    Ok(words)
}
