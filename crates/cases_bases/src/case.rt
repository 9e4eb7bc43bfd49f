//! One base.
use base_text::{Base, BaseRefusal, base_read, base_write, kept_text};
use fx_lists::Text;
use std::alloc::{AllocError as Memory, Global};

/// The number of a limit; None where the line has none.
fn limit_of(line: &[u8]) -> Option<u64> {
    let Ok(words) = str::from_utf8(line) else {
        return None;
    };
    words.trim_start_matches('=').trim().parse().ok()
}

fn kept_within(alloc: Global, base: &Base, limit: u64) -> Result<Text, Memory> {
    match kept_text(alloc, base, limit)? {
        Some(text) => Ok(text),
        None => Text::from_bytes(alloc, b"none"),
    }
}

/// The text of a base, or of what is kept of it where the line has a limit.
fn written(alloc: Global, line: &[u8], base: &Base) -> Result<Text, Memory> {
    match limit_of(line) {
        Some(limit) => kept_within(alloc, base, limit),
        None => base_write(alloc, base),
    }
}

fn code_of(alloc: Global, refusal: &BaseRefusal) -> Result<Text, Memory> {
    let Some(number) = refusal.number() else {
        return Err(Memory);
    };
    let mut code = String::new(alloc);
    write!(code, "{number}")?;
    Text::from_bytes(alloc, code.as_bytes())
}

/// What is printed of a text, which the line ends.
pub fn answer(alloc: Global, line: &[u8], text: &Text) -> Result<Text, Memory> {
    let mut answer = match base_read(alloc, text) {
        Ok(base) => written(alloc, line, &base)?,
        Err(refusal) => code_of(alloc, &refusal)?,
    };
    answer.push(b'\n')?;
    Ok(answer)
}
