//! The statements of a text, each by itself.
ghost use Rattle.std.specs.Prelude.{◌≡◌, ◌<◌, ◌^◌, [], length, IfOk, map, sum_by};
ghost use Rattle.f77_statements.specs.Phrases.{phrase_tree};
ghost use Rattle.f77_parser.specs.Gives.{Gives};
ghost use Rattle.f77_parser.specs.Statements.{statement_tree, keyword_of, refusal_at, statement_of, all_read, those_read, mark_of, marks_of, length_of};

use crate::refusal::ParseRefusal;
use crate::role::role_of;
use f77_statements::{Cause, Phrase, Refusal, phrase_of};
use f77_structure::{Mark, is_deep};
use fixed_form::Line;
use fx_lists::{List, Text};
use std::alloc::{AllocError as Memory, Global};

/// A statement that was read by itself.
#[derive(Drop)]
pub struct Statement {
    /// The number of its first line in the text, from 1.
    pub first: u32,
    pub label: Option<u32>,
    /// Whether more than 64 of its parentheses are open at once.
    pub deep: bool,
    /// The comments before it, in the order of the text.
    pub comments: List<Text>,
    pub phrase: Phrase,
}

impl Statement {
    /// The statement as far as structure asks.
    fn mark(&self) -> Mark
        ensures { result ≡ mark_of (statement_tree self.now) }
    {
        Mark {
            line: self.first,
            label: self.label,
            role: role_of(&self.phrase),
            deep: self.deep,
        }
    }
}

/// A copy of a list of texts.
#[tactic(auto, using(crate::proofs::StatementLemmas::copies))]
pub fn copy_texts(texts: &List<Text>) -> Result<List<Text>, Memory>
    ensures { IfOk result (λ copy. copy ≡ texts.now) }
{
    texts.clone()
}

/// The keyword that the profile leaves out.
fn keyword_of(alloc: Global, cause: Cause) -> Result<Text, Memory>
    ensures { IfOk result (λ keyword. keyword ≡ keyword_of cause) }
{
    match cause {
        Cause::OutOfProfile(refused) => Text::from_bytes(alloc, refused.keyword().as_bytes()),
        Cause::Syntax | Cause::RealConstant | Cause::NumberTooBig | Cause::NameTooLong => {
            Ok(Text::new(alloc))
        }
    }
}

pub fn refusal_at(alloc: Global, line: u32, cause: Cause) -> ParseRefusal
    ensures { Gives statement_tree (Err result) (Err (refusal_at line cause)) }
{
    match keyword_of(alloc, cause) {
        Ok(keyword) => ParseRefusal::At(line, cause.code().number(), keyword),
        Err(_) => ParseRefusal::Memory,
    }
}

/// One statement, by its body.
fn statement_of(alloc: Global, line: &Line) -> Result<Statement, ParseRefusal>
    requires { length line.now.body < 2 ^ 28 }
    ensures { Gives statement_tree result (statement_of line.now) }
{
    match phrase_of(alloc, &line.body) {
        Err(Refusal::Memory) => Err(ParseRefusal::Memory),
        Err(Refusal::Because(cause)) => Err(refusal_at(alloc, line.first, cause)),
        Ok(phrase) => Ok(Statement {
            first: line.first,
            label: line.label,
            deep: is_deep(line.body.as_slice()),
            comments: copy_texts(&line.comments)?,
            phrase,
        }),
    }
}

/// All statements in the order of the text, each read by itself. Err is the first that is refused, or lack of memory.
pub fn all_read(alloc: Global, lines: &[Line]) -> Result<List<Statement>, ParseRefusal>
    requires { sum_by length_of lines.now < 2 ^ 28 }
    ensures { Gives (map statement_tree) result (all_read [] lines.now) }
{
    let mut done = List::new(alloc);
    let mut rest = lines;
    while let [line, more @ ..] = rest {
        match statement_of(alloc, line) {
            Ok(statement) => done.push(statement)?,
            Err(refusal) => return Err(refusal),
        }
        rest = more;
    }
    Ok(done)
}

/// The statements of these lines in the order of the text, without those that are refused.
#[tactic(auto, using(crate::proofs::StatementLemmas::passes))]
pub fn those_read(alloc: Global, lines: &[Line]) -> Result<List<Statement>, Memory>
    requires { sum_by length_of lines.now < 2 ^ 28 }
    ensures { IfOk result (λ ss. map statement_tree ss ≡ those_read lines.now) }
{
    let mut done = List::new(alloc);
    let mut rest = lines;
    while let [line, more @ ..] = rest {
        match statement_of(alloc, line) {
            Ok(statement) => done.push(statement)?,
            Err(refusal) => {
                if refusal.is_memory() {
                    return Err(Memory);
                }
            }
        }
        rest = more;
    }
    Ok(done)
}

/// The marks of the statements of a module, in the order of the text.
pub fn marks_of(alloc: Global, statements: &[Statement]) -> Result<List<Mark>, Memory>
    ensures { IfOk result (λ marks. marks ≡ marks_of (map statement_tree statements.now)) }
{
    let mut marks = List::new(alloc);
    for statement in statements {
        marks.push(statement.mark())?;
    }
    Ok(marks)
}
