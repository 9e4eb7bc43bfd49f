//! The text of each module of a source text.

ghost use Rattle.std.specs.Prelude.{◌≡◌, ◌<◌, ◌^◌, ◌-◌, All, IfOk};
ghost use Rattle.fixed_form.specs.Laws.{AreSmall};
ghost use Rattle.fixed_form.specs.Reading.{is_end};
ghost use Rattle.fixed_form.specs.Cuts.{after_lines};
ghost use Rattle.fixed_form.specs.Pieces.{end_lines, module_text, cut_from, pieces_of, HasAll};

use crate::cut::cut_after;
use crate::{Line, Lines};
use fx_lists::{List, Text};
use std::alloc::{AllocError as Memory, Global};

/// The text of a module, and where it begins in the source text.
#[derive(Drop)]
pub struct Piece {
    /// The line of the source text that the piece begins with, from 1.
    pub first: u32,
    /// Whole lines of the source text, with their line ends.
    pub text: Text,
}

fn is_end(statement: &Line) -> bool
    ensures { result ≡ is_end statement.now }
{
    statement.body.as_slice() == b"END".as_slice()
}

/// The last lines of the END statements.
fn end_lines(alloc: Global, statements: &[Line]) -> Result<Vec<u32>, Memory>
    ensures { IfOk result (λ ends. ends.items ≡ end_lines statements.now) }
{
    let mut ends = Vec::new(alloc);
    let mut rest = statements;
    while let [statement, more @ ..] = rest {
        if is_end(statement) {
            ends.push(statement.last)?;
        }
        rest = more;
    }
    Ok(ends)
}

/// Of a text that begins with the line `first`, the module that goes on to the line before `next`, and what follows it. Where no
/// further module ends, the module is all of the text.
fn cut_module<'a>(text: &'a [u8], first: u32, next: u32, more: &[u32]) -> (&'a [u8], &'a [u8])
    ensures module { result.0.now ≡ module_text more.now (next - first) text.now }
    ensures after { result.1.now ≡ after_lines (next - first) text.now }
{
    let (front, after) = cut_after(text, next.saturating_sub(first));
    match more {
        [] => (text, after),
        [_, ..] => (front, after),
    }
}

fn cut(alloc: Global, text: &[u8], ends: &[u32]) -> Result<List<Piece>, Memory>
    requires { All (λ end. end < 2 ^ 28) ends.now }
    ensures { IfOk result (λ pieces. pieces ≡ cut_from 1 ends.now text.now) }
{
    let mut pieces = List::new(alloc);
    let mut first: u32 = 1;
    let mut left = text;
    let mut rest = ends;
    while let [end, more @ ..] = rest {
        let next = *end + 1;
        let (module, after) = cut_module(left, first, next, more);
        let text = Text::from_bytes(alloc, module)?;
        pieces.push(Piece { first, text })?;
        first = next;
        left = after;
        rest = more;
    }
    Ok(pieces)
}

/// The texts of the modules of a source text that is read as these statements: each begins after the last line of the END before
/// it, and the last has all the rest. A text without END has none. Err is want of memory. Takes time in proportion to the text
/// and its statements.
#[tactic(auto, using(crate::proofs::PieceEnds::end_steps, crate::proofs::Joined::has_all_of), unfolding(crate::specs::Pieces::pieces_of))]
pub fn pieces(alloc: Global, text: &Text, lines: &Lines) -> Result<List<Piece>, Memory>
    requires small { AreSmall lines.now.lines }
    ensures defined { IfOk result (λ pieces. pieces ≡ pieces_of text.now lines.now.lines) }
    ensures whole { IfOk result (λ pieces. HasAll pieces text.now) }
{
    let ends = end_lines(alloc, lines.lines.as_slice())?;
    cut(alloc, text.as_slice(), ends.as_slice())
}
