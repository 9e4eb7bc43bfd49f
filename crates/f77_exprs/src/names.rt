//! Names.
ghost use Rattle.std.specs.Prelude.{◌≡◌, ℕ};
ghost use Rattle.f77_exprs.specs.State.{state, GivesAs};
ghost use Rattle.f77_exprs.specs.Lexical.{in_name, letter_first, skip_name, name_at};

use crate::at::before;
use crate::parse_error::Reading;
use crate::{Cursor, Notes, ParseError};
use fx_lists::Text;
use std::alloc::Global;

fn in_name(c: u8) -> bool
    ensures { result ≡ in_name c }
{
    c.is_ascii_uppercase() || c.is_ascii_digit() || c == b'_'
}

fn letter_first(text: &[u8]) -> bool
    ensures { result ≡ letter_first text.now }
{
    match text {
        [] => false,
        [c, ..] => c.is_ascii_uppercase(),
    }
}

/// What is left after the characters of a name.
fn skip_name(text: &[u8]) -> &[u8]
    ensures { result.now ≡ skip_name text.now }
{
    let mut rest = text;
    while let [c, more @ ..] = rest {
        if !in_name(*c) {
            return rest;
        }
        rest = more;
    }
    rest
}

/// A name: a letter, and the letters, digits and `_` after it. More than 31 characters are noted. Err is `Syntax` where no
/// letter is at the front.
#[tactic(auto, unfolding(crate::specs::Lexical::name_at))]
pub fn name_at(alloc: Global, at: Cursor<'_>) -> Reading<'_, Text>
    ensures { GivesAs (λ n. n) result (name_at (state at.entry)) }
{
    if !letter_first(at.rest) {
        return Err(ParseError::Syntax);
    }
    let rest = skip_name(at.rest);
    let front = before(at.rest, rest);
    let name = Text::from_bytes(alloc, front)?;
    let notes = Notes {
        real: at.notes.real,
        big: at.notes.big,
        long: at.notes.long || front.len() > 31,
    };
    Ok((name, Cursor { rest, notes }))
}
