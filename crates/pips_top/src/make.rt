//! What becomes of a text.
ghost use Rattle.std.specs.Prelude.{◌≡◌, ◌≤◌, length, IfOk};
ghost use Rattle.pips_top.specs.Made.{counted, made, input_limit};

use crate::counts::count_program;
use crate::reading::read;
use crate::sample_program;
use crate::wanted::Wanted;
use crate::written::write_program;
use f77_parser::ParseRefusal;
use fx_lists::Text;
use std::alloc::{AllocError as Memory, Global};

/// What becomes of a text.
#[derive(Drop)]
pub enum Made {
    /// The text to be written.
    Writes(Text),
    /// The refusal: its line, from 1, its code, and the keyword of what is outside the accepted subset, empty for other codes.
    Refuses(u32, u32, Text),
}

/// Reads a text of at most 2^20 bytes, analyses its program, and makes the text to be written, or the refusal.
pub fn make(alloc: Global, wanted: Wanted, text: &Text) -> Result<Made, Memory>
    requires { length text.now ≤ input_limit }
    ensures { IfOk result (λ m. m ≡ made wanted text.now) }
{
    match read(alloc, text) {
        Ok(program) => Ok(Made::Writes(write_program(alloc, wanted, &program)?)),
        Err(ParseRefusal::At(line, code, keyword)) => Ok(Made::Refuses(line, code, keyword)),
        Err(ParseRefusal::Memory) => Err(Memory),
    }
}

/// Makes a sample program of this many parts, reads it as an INPUT, and counts what is found of it.
#[tactic(auto, using(crate::proofs::SampleSize::sample_short))]
pub fn count_sample(alloc: Global, parts: u8) -> Result<Made, Memory>
    ensures { IfOk result (λ m. m ≡ counted parts) }
{
    let text = sample_program(alloc, parts)?;
    match read(alloc, &text) {
        Ok(program) => Ok(Made::Writes(count_program(alloc, &program)?)),
        Err(ParseRefusal::At(line, code, keyword)) => Ok(Made::Refuses(line, code, keyword)),
        Err(ParseRefusal::Memory) => Err(Memory),
    }
}
