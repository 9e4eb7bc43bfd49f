//! The statements of a text, in one pass over its lines.

ghost use Rattle.std.specs.Prelude.{◌≡◌, ◌<◌, ◌^◌, length, IfOk};
ghost use Rattle.fixed_form.specs.Faults.{fault_of, continuations_of};
ghost use Rattle.fixed_form.specs.Reading.{reading, Gives, ends_well};
ghost use Rattle.fixed_form.specs.Laws.{IsRead, AreSpans};
ghost use Rattle.fixed_form.specs.Steps.{begun_of, step, line_fault, line_step, Takes, outcome_at};

use crate::cards::{card, is_comment, is_dropped};
use crate::fault::fault_of;
use crate::line::{Line, Lines, ReadRefusal};
use crate::progress::{Progress, begun_of, finish_all, keep_comment, take_statement_line};
use crate::text_lines::{first_line, without_returns};
use fx_lists::{Code, List, Text};
use std::alloc::Global;

/// A line that is no comment.
fn statement_line(
    alloc: Global,
    progress: Progress,
    number: u32,
    card: &[u8],
) -> Result<Progress, ReadRefusal>
    requires length { length card.now ≡ 72 }
    requires room { continuations_of (begun_of progress.current) < 2 ^ 30 }
    ensures { Takes number (fault_of (begun_of progress.current) card.now) (step number card.now progress) result }
{
    match fault_of(begun_of(&progress.current), card) {
        Some(code) => Err(ReadRefusal::At(number, code.number())),
        None => Ok(take_statement_line(alloc, progress, number, card)?),
    }
}

fn take_line(
    alloc: Global,
    progress: Progress,
    number: u32,
    line: &[u8],
) -> Result<Progress, ReadRefusal>
    requires { continuations_of (begun_of progress.current) < 2 ^ 30 }
    ensures { Takes number (line_fault progress.current line.now) (line_step number line.now progress) result }
{
    if is_comment(line) {
        if is_dropped(line) {
            return Ok(progress);
        }
        return Ok(keep_comment(alloc, progress, line)?);
    }
    let card = card(alloc, line)?;
    statement_line(alloc, progress, number, card.as_slice())
}

fn ends_well(lines: &[Line]) -> bool
    ensures { result ≡ ends_well lines.now }
{
    match lines {
        [] => true,
        [.., last] => last.body.as_slice() == b"END".as_slice(),
    }
}

fn finish(progress: Progress, count: u32) -> Result<Lines, ReadRefusal>
    ensures { Gives result (outcome_at count progress) }
{
    let Progress {
        done,
        current,
        comments,
    } = progress;
    let lines = finish_all(done, current)?;
    if !ends_well(lines.as_slice()) {
        return Err(ReadRefusal::At(count, Code::NoEnd.number()));
    }
    Ok(Lines {
        lines,
        closing: comments,
    })
}

fn pass(alloc: Global, text: &[u8]) -> Result<Lines, ReadRefusal>
    requires { length text.now < 2 ^ 28 }
    ensures { Gives result (reading text.now) }
{
    let mut progress = Progress {
        done: List::new(alloc),
        current: None,
        comments: List::new(alloc),
    };
    let mut rest = text;
    let mut count: u32 = 0;
    while !rest.is_empty() {
        let (line, others) = first_line(rest);
        count += 1;
        match take_line(alloc, progress, count, without_returns(line)) {
            Ok(taken) => progress = taken,
            Err(e) => return Err(e),
        }
        rest = others;
    }
    finish(progress, count)
}

/// The statements of a text. Err is its first fault, the earliest line and there the lowest code, or lack of memory; a last
/// statement that is not END is code 6 at the last line. A text without statements is read too. Takes time in proportion to the
/// text.
pub fn statements(alloc: Global, text: &Text) -> Result<Lines, ReadRefusal>
    requires fits { length text.now < 2 ^ 28 }
    ensures defined { Gives result (reading text.now) }
    ensures lawful { IfOk result (λ read. IsRead read.lines) }
    ensures spans { IfOk result (λ read. AreSpans read.lines) }
{
    pass(alloc, text.as_slice())
}
