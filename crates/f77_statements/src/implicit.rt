//! The parts of IMPLICIT (ANSI X3.9-1978 §8.5).
ghost use Rattle.std.specs.Prelude.{◌≡◌, ℕ};
ghost use Rattle.f77_exprs.specs.State.{state, GivesAs};
ghost use Rattle.f77_statements.specs.Parts.{letter, letters, ranges, implicit_part};

use crate::lists::{Rule, items_before};
use f77_ast::{ImplicitPart, Letters, Scalar};
use f77_exprs::{Cursor, ParseError, Reading};
use std::alloc::Global;

#[tactic(auto, unfolding(crate::specs::Parts::letter))]
fn letter(at: Cursor<'_>) -> Reading<'_, u8>
    ensures { GivesAs (λ c. c) result (letter (state at.entry)) }
{
    match at.rest {
        [] => Err(ParseError::Syntax),
        [c, rest @ ..] => {
            if c.is_ascii_uppercase() {
                let notes = at.notes;
                Ok((*c, Cursor { rest, notes }))
            } else {
                Err(ParseError::Syntax)
            }
        }
    }
}

/// A letter, or a range of letters `a-b` that does not descend.
pub enum LetterRanges {}

impl Rule for LetterRanges {
    ghost use Rattle.f77_ast.specs.declared.decl.Letters.{Letters as Range};

    type Value = Letters;

    ghost Tree = { Range };

    ghost tree = { λ l. l };

    ghost rule = { letters };

    #[tactic(auto, unfolding(crate::specs::Parts::letters))]
    fn read<'a>(_alloc: Global, at: Cursor<'a>) -> Reading<'a, Letters> {
        let (first, at) = letter(at)?;
        match at.parse_word(b"-") {
            None => Ok((Letters { first, last: first }, at)),
            Some(rest) => {
                let (last, rest) = letter(rest)?;
                if first <= last {
                    Ok((Letters { first, last }, rest))
                } else {
                    Err(ParseError::Syntax)
                }
            }
        }
    }
}

/// The ranges behind a type.
#[tactic(auto, unfolding(crate::specs::Parts::ranges))]
fn ranges(alloc: Global, scalar: Scalar, at: Cursor<'_>) -> Reading<'_, ImplicitPart>
    ensures { GivesAs (λ p. p) result (ranges scalar (state at.entry)) }
{
    let at = at.need_word(b"(")?;
    let (ranges, at) = items_before::<LetterRanges>(alloc, b")", at)?;
    Ok((ImplicitPart { scalar, ranges }, at))
}

/// INTEGER or LOGICAL, and ranges of letters in parentheses.
pub enum ImplicitParts {}

impl Rule for ImplicitParts {
    ghost use Rattle.f77_ast.specs.declared.decl.ImplicitPart.{ImplicitPart as Part};

    type Value = ImplicitPart;

    ghost Tree = { Part };

    ghost tree = { λ p. p };

    ghost rule = { implicit_part };

    #[tactic(auto, unfolding(crate::specs::Parts::implicit_part))]
    fn read<'a>(alloc: Global, at: Cursor<'a>) -> Reading<'a, ImplicitPart> {
        if let Some(rest) = at.parse_word(b"INTEGER") {
            return ranges(alloc, Scalar::Int, rest);
        }
        if let Some(rest) = at.parse_word(b"LOGICAL") {
            return ranges(alloc, Scalar::Log, rest);
        }
        Err(ParseError::Syntax)
    }
}
