//! Numbers and texts out of JSON values.
ghost use Rattle.std.specs.Prelude.{◌≡◌, IfOk};
ghost use Rattle.std.specs.Str.{chars};
ghost use Rattle.serde_json.specs.View.{view};
ghost use Rattle.base_json.specs.Shapes.{number_below as number_below_is, offset_of, whole_of, flag_of, text_of, is_latin, latin, when};
ghost use Rattle.base_json.specs.Gives.{Gives};

use crate::DecodeError;
use crate::shapes::word;
use fx_lists::Text;
use serde_json::Value;
use std::alloc::{AllocError as Memory, Global};

/// A whole number from 0 to 2^64 - 1; None for another value.
pub fn offset_at(value: &Value) -> Option<u64>
    ensures { result ≡ offset_of (view value.now) }
{
    value.as_u64()
}

/// A whole number from 0 that is below a limit; None for another value.
pub fn number_below(value: &Value, limit: u64) -> Option<u64>
    ensures { result ≡ number_below_is limit (view value.now) }
{
    match offset_at(value) {
        None => None,
        Some(n) => if n < limit { Some(n) } else { None },
    }
}

/// A whole number of 64 bits, with or without sign; None for another value.
pub fn whole_at(value: &Value) -> Option<i128>
    ensures { result ≡ whole_of (view value.now) }
{
    match value.as_number() {
        None => None,
        Some(number) => number.as_i128(),
    }
}

/// 1 for true, 0 for false; None for another value.
pub fn flag_at(value: &Value) -> Option<bool>
    ensures { result ≡ flag_of (view value.now) }
{
    match offset_at(value) {
        Some(0) => Some(false),
        Some(1) => Some(true),
        _ => None,
    }
}

/// The text whose bytes are the numbers of the characters; Shape where one is above 255.
#[tactic(auto, using(crate::proofs::Latin::latin_steps))]
fn latin_bytes(alloc: Global, characters: &[char]) -> Result<Text, DecodeError>
    ensures { Gives result (when (is_latin characters.now) characters.now) }
{
    let mut bytes = Text::new(alloc);
    for character in characters {
        match u8::try_from(u32::from(*character)) {
            Ok(byte) => bytes.push(byte)?,
            Err(_) => return Err(DecodeError::Shape),
        }
    }
    Ok(bytes)
}

#[tactic(auto, using(std::proofs::lemmas::Str::chars_from_encodes))]
fn characters_of(alloc: Global, text: &str) -> Result<Vec<char>, Memory>
    ensures { IfOk result (λ v. v.items ≡ chars text.now) }
{
    text.chars().collect(alloc)
}

/// The text whose bytes are the numbers of the characters; Shape where one is above 255.
fn latin_text(alloc: Global, text: &str) -> Result<Text, DecodeError>
    ensures { Gives result (latin text.now) }
{
    let characters = characters_of(alloc, text)?;
    latin_bytes(alloc, characters.as_slice())
}

/// A text out of a string: each character is the byte of its number.
pub fn text_at(alloc: Global, value: &Value) -> Result<Text, DecodeError>
    ensures { Gives result (text_of (view value.now)) }
{
    match word(value) {
        None => Err(DecodeError::Shape),
        Some(text) => latin_text(alloc, text),
    }
}
