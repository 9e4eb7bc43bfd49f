//! What one line changes of what was read before it.

ghost use Rattle.std.specs.Prelude.{◌≡◌, ◌<◌, ◌^◌, ◌++◌, length, IfOk};
ghost use Rattle.fixed_form.specs.Cards.{label_field};
ghost use Rattle.fixed_form.specs.Faults.{continuations_of};
ghost use Rattle.fixed_form.specs.Reading.{label_of};
ghost use Rattle.fixed_form.specs.Steps.{begun_of, finish_all, keep_comment, initial, continue_line, continuation, step};

use crate::cards::is_initial;
use crate::fault::Begun;
use crate::label::{LabelField, label_field};
use crate::line::Line;
use crate::strip::strip;
use fx_lists::{List, Text};
use std::alloc::{AllocError as Memory, Global};

/// The last statement that was begun, and what a continuation line of it needs.
#[derive(Drop)]
pub struct Current {
    pub line: Line,
    /// Of the lines in `line`.
    pub begun: Begun,
}

/// What was read of the lines so far.
#[derive(Drop)]
pub struct Progress {
    /// The statements before the current one.
    pub done: List<Line>,
    /// None before the first initial line.
    pub current: Option<Current>,
    /// The kept comments since the last statement line.
    pub comments: List<Text>,
}

/// What is known of the current statement; None where there is none.
pub fn begun_of(current: &Option<Current>) -> Option<Begun>
    ensures { result ≡ begun_of current.now }
{
    match current {
        None => None,
        Some(open) => Some(open.begun),
    }
}

/// Keeps a comment, whose line is copied, for the next statement line.
#[tactic(auto, unfolding(crate::specs::Steps::keep_comment))]
pub fn keep_comment(alloc: Global, progress: Progress, line: &[u8]) -> Result<Progress, Memory>
    ensures { IfOk result (λ p. p ≡ keep_comment line.now progress) }
{
    let mut progress = progress;
    progress.comments.push(Text::from_bytes(alloc, line)?)?;
    Ok(progress)
}

/// The statements in their order, with the current one last, where there is one.
pub fn finish_all(done: List<Line>, current: Option<Current>) -> Result<List<Line>, Memory>
    ensures { IfOk result (λ all. all ≡ done ++ finish_all current) }
{
    let mut all = done;
    match current {
        None => {}
        Some(Current { line, .. }) => all.push(line)?,
    }
    Ok(all)
}

fn label_of(card: &[u8]) -> Option<u32>
    requires { length card.now ≡ 72 }
    ensures { result ≡ label_of (label_field card.now) }
{
    match label_field(card) {
        LabelField::Label(label) => Some(label),
        LabelField::Blank => None,
        LabelField::Bad => None,
    }
}

/// An initial line ends the statement before it and begins another.
#[tactic(auto, unfolding(crate::specs::Steps::initial))]
fn initial(alloc: Global, progress: Progress, number: u32, card: &[u8]) -> Result<Progress, Memory>
    requires { length card.now ≡ 72 }
    ensures { IfOk result (λ p. p ≡ initial number card.now progress) }
{
    let Progress {
        done,
        current,
        comments,
    } = progress;
    let done = finish_all(done, current)?;
    let mut body = Text::new(alloc);
    let quoted = strip(&mut body, false, &card[6..])?;
    let line = Line {
        first: number,
        last: number,
        label: label_of(card),
        body,
        comments,
    };
    let begun = Begun {
        quoted,
        continuations: 0,
    };
    Ok(Progress {
        done,
        current: Some(Current { line, begun }),
        comments: List::new(alloc),
    })
}

fn join(first: List<Text>, second: List<Text>) -> Result<List<Text>, Memory>
    ensures { IfOk result (λ all. all ≡ first ++ second) }
{
    let mut all = first.into_vec();
    let mut more = second.into_vec();
    all.append(&mut more)?;
    Ok(List::from_vec(all))
}

fn continue_line(
    number: u32,
    card: &[u8],
    comments: List<Text>,
    current: Current,
) -> Result<Current, Memory>
    requires length { length card.now ≡ 72 }
    requires room { current.begun.continuations < 2 ^ 30 }
    ensures { IfOk result (λ c. c ≡ continue_line number card.now comments current) }
{
    let Current { line, begun } = current;
    let Line {
        first,
        label,
        mut body,
        comments: before,
        ..
    } = line;
    let quoted = strip(&mut body, begun.quoted, &card[6..])?;
    let line = Line {
        first,
        last: number,
        label,
        body,
        comments: join(before, comments)?,
    };
    let continuations = begun.continuations + 1;
    Ok(Current {
        line,
        begun: Begun {
            quoted,
            continuations,
        },
    })
}

/// A continuation line goes on with the statement.
#[tactic(auto, unfolding(crate::specs::Steps::continuation))]
fn continuation(
    alloc: Global,
    progress: Progress,
    number: u32,
    card: &[u8],
) -> Result<Progress, Memory>
    requires length { length card.now ≡ 72 }
    requires room { continuations_of (begun_of progress.current) < 2 ^ 30 }
    ensures { IfOk result (λ p. p ≡ continuation number card.now progress) }
{
    let Progress {
        done,
        current,
        comments,
    } = progress;
    match current {
        None => Ok(Progress {
            done,
            current: None,
            comments,
        }),
        Some(current) => {
            let current = continue_line(number, card, comments, current)?;
            Ok(Progress {
                done,
                current: Some(current),
                comments: List::new(alloc),
            })
        }
    }
}

/// The progress after a statement line without a fault: an initial line begins a statement, a continuation line goes on with
/// the current one. `number` is that of the line, from 1.
#[tactic(auto, using(crate::proofs::Steps::step_cases))]
pub fn take_statement_line(
    alloc: Global,
    progress: Progress,
    number: u32,
    card: &[u8],
) -> Result<Progress, Memory>
    requires length { length card.now ≡ 72 }
    requires room { continuations_of (begun_of progress.current) < 2 ^ 30 }
    ensures { IfOk result (λ p. p ≡ step number card.now progress) }
{
    if is_initial(card) {
        initial(alloc, progress, number, card)
    } else {
        continuation(alloc, progress, number, card)
    }
}
