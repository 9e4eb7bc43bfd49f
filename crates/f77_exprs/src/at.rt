//! How far a reader is in a stripped statement.
ghost use Rattle.std.specs.Prelude.{◌≡◌, ◌≤◌, ℕ, length, option_map, IfOk};
ghost use Rattle.f77_exprs.specs.Words.{after, before, slice_now};
ghost use Rattle.f77_exprs.specs.State.{state, start, parse_word, Gives};

use crate::ParseError;

/// What the grammar takes and the profile does not, where it was met: a number with a point or an exponent, a number past
/// 2147483647, a name of more than 31 characters.
#[derive(Clone, Copy, PartialEq, Eq)]
pub struct Notes {
    pub real: bool,
    pub big: bool,
    pub long: bool,
}

/// What is left of a stripped statement, and what was noted before it.
#[derive(Clone, Copy)]
pub struct Cursor<'a> {
    pub rest: &'a [u8],
    pub notes: Notes,
}

/// The text after a word at its front; None where it begins otherwise.
#[tactic(auto, using(crate::proofs::WordsLemmas::after_stripped))]
pub fn after<'a>(word: &[u8], text: &'a [u8]) -> Option<&'a [u8]>
    ensures { slice_now result ≡ after word.now text.now }
{
    text.strip_prefix(word)
}

/// The part of a text before `rest`, which is what is left of it. Only the length of `rest` counts.
pub fn before<'a>(text: &'a [u8], rest: &[u8]) -> &'a [u8]
    ensures { result.now ≡ before text.now rest.now }
{
    &text[..text.len().saturating_sub(rest.len())]
}

impl<'a> Cursor<'a> {
    /// A stripped statement from its front, with nothing noted.
    pub fn start(body: &'a [u8]) -> Cursor<'a>
        ensures { state result ≡ start body.now }
    {
        let notes = Notes {
            real: false,
            big: false,
            long: false,
        };
        Cursor { rest: body, notes }
    }

    /// What follows a word; None where the rest begins otherwise.
    pub fn parse_word(self, word: &[u8]) -> Option<Cursor<'a>>
        ensures { option_map state result ≡ parse_word word.now (state self.entry) }
    {
        match after(word, self.rest) {
            None => None,
            Some(rest) => Some(Cursor {
                rest,
                notes: self.notes,
            }),
        }
    }

    /// What follows a word; Err is `Syntax` where the rest begins otherwise.
    pub fn need_word(self, word: &[u8]) -> Result<Cursor<'a>, ParseError>
        ensures defined { Gives state result (parse_word word.now (state self.entry)) }
        ensures shorter { IfOk result (λ t. length t.rest.now ≤ length self.entry.rest.now) }
    {
        match self.parse_word(word) {
            None => Err(ParseError::Syntax),
            Some(rest) => Ok(rest),
        }
    }
}
