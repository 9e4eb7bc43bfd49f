//! Numbers: digits, and the numbers with a point or an exponent that the grammar takes.
ghost use Rattle.std.specs.Prelude.{◌≡◌, ◌≤◌, ◌<◌, ◌^◌, ℕ, length, IfOk};
ghost use Rattle.f77_ast.specs.Plain.{expr_tree};
ghost use Rattle.f77_exprs.specs.Words.{slice_now};
ghost use Rattle.f77_exprs.specs.State.{state, GivesAs};
ghost use Rattle.f77_exprs.specs.Lexical.{digit_first, skip_digits, value, integer, label_at, operator_first, after_point, after_digits, skip_sign, after_exponent, after_real, number, number_first};
ghost use Rattle.f77_exprs.specs.Grammar.{literal};

use crate::operators::{DOTTED, one_of};
use crate::parse_error::Reading;
use crate::{Cursor, Notes, ParseError};
use f77_ast::Expr;

/// The largest number, one more than which counts for all that are larger.
const BIGGEST: u32 = 2147483647;

/// Whether a digit is at the front.
pub fn digit_first(text: &[u8]) -> bool
    ensures { result ≡ digit_first text.now }
{
    match text {
        [] => false,
        [c, ..] => c.is_ascii_digit(),
    }
}

/// What is left after the digits at the front, which may be none.
pub fn skip_digits(text: &[u8]) -> &[u8]
    ensures { result.now ≡ skip_digits text.now }
{
    let mut rest = text;
    while let [c, more @ ..] = rest {
        if !c.is_ascii_digit() {
            return rest;
        }
        rest = more;
    }
    rest
}

/// The digits at the front as a number, and 2147483648 for all that are larger.
fn value(text: &[u8]) -> u32
    ensures same { result ≡ value 0 text.now }
    ensures bound { result ≤ 2147483648 }
{
    let mut v: u64 = 0;
    let mut rest = text;
    while let [c, more @ ..] = rest {
        if !c.is_ascii_digit() {
            return v as u32;
        }
        v = u64::min(2147483648, 10 * v + (*c - b'0') as u64);
        rest = more;
    }
    v as u32
}

/// Digits alone. A number that is too big is noted, and 0 stands for it.
fn integer(at: Cursor<'_>) -> (u32, Cursor<'_>)
    ensures same { (result.0, state result.1) ≡ integer (state at.entry) }
    ensures bound { result.0 < 2 ^ 31 }
{
    let v = value(at.rest);
    let notes = Notes {
        real: at.notes.real,
        big: at.notes.big || v > BIGGEST,
        long: at.notes.long,
    };
    let rest = skip_digits(at.rest);
    let kept = if v > BIGGEST { 0 } else { v };
    (kept, Cursor { rest, notes })
}

/// A label in a statement: digits alone, of which one past 2147483647 is noted. It is not bounded by 99999 here. Err is `Syntax`
/// where no digit is at the front.
#[tactic(auto, unfolding(crate::specs::Lexical::label_at))]
pub fn label_at(at: Cursor<'_>) -> Reading<'_, u32>
    ensures same { GivesAs (λ n. n) result (label_at (state at.entry)) }
    ensures bound { IfOk result (λ x. x.0 < 2 ^ 31) }
{
    if digit_first(at.rest) {
        Ok(integer(at))
    } else {
        Err(ParseError::Syntax)
    }
}

/// Whether an operator word stands at the front, with both its points.
fn operator_first(text: &[u8]) -> bool
    ensures { result ≡ operator_first text.now }
{
    let at = Cursor::start(text);
    at.parse_word(b".NOT.").is_some() || one_of(&DOTTED, at).is_some()
}

/// What is left after a decimal point and its digits, `had` saying whether digits stand before it.
fn after_point(had: bool, text: &[u8]) -> Option<&[u8]>
    ensures { slice_now result ≡ after_point had text.now }
{
    match text {
        [] => None,
        [c, more @ ..] => {
            let fits = if had {
                !operator_first(text)
            } else {
                digit_first(more)
            };
            if *c == b'.' && fits {
                Some(skip_digits(more))
            } else {
                None
            }
        }
    }
}

fn after_digits(text: &[u8]) -> Option<&[u8]>
    ensures { slice_now result ≡ after_digits text.now }
{
    if digit_first(text) {
        Some(skip_digits(text))
    } else {
        None
    }
}

fn skip_sign(text: &[u8]) -> &[u8]
    ensures { result.now ≡ skip_sign text.now }
{
    match text {
        [] => text,
        [c, more @ ..] => { if *c == b'+' || *c == b'-' { more } else { text } }
    }
}

/// What is left after an exponent.
fn after_exponent(text: &[u8]) -> Option<&[u8]>
    ensures { slice_now result ≡ after_exponent text.now }
{
    match text {
        [] => None,
        [c, more @ ..] => {
            if *c == b'D' || *c == b'E' {
                after_digits(skip_sign(more))
            } else {
                None
            }
        }
    }
}

/// What is left after a number with a point, an exponent or both.
fn after_real(text: &[u8]) -> Option<&[u8]>
    ensures { slice_now result ≡ after_real text.now }
{
    let end = skip_digits(text);
    match after_point(digit_first(text), end) {
        None => after_exponent(end),
        Some(rest) => match after_exponent(rest) {
            None => Some(rest),
            Some(end) => Some(end),
        },
    }
}

/// A number, below 2^31. One with a point or an exponent, or past 2147483647, is noted, and read as 0.
#[tactic(auto, unfolding(crate::specs::Lexical::number))]
pub fn number(at: Cursor<'_>) -> (u32, Cursor<'_>)
    ensures same { (result.0, state result.1) ≡ number (state at.entry) }
    ensures bound { result.0 < 2 ^ 31 }
{
    match after_real(at.rest) {
        None => integer(at),
        Some(rest) => {
            let notes = Notes {
                real: true,
                big: at.notes.big,
                long: at.notes.long,
            };
            (0, Cursor { rest, notes })
        }
    }
}

/// A number as an INTEGER constant, read as `number` reads it.
#[tactic(auto, using(f77_ast::proofs::Plainly::expr_cases))]
pub fn literal(at: Cursor<'_>) -> (Expr, Cursor<'_>)
    ensures { (expr_tree result.0, state result.1) ≡ literal (state at.entry) }
{
    let (n, rest) = number(at);
    (Expr::Int(n as i32), rest)
}

/// Whether a number is at the front: a digit, or a point and a digit.
pub fn number_first(text: &[u8]) -> bool
    ensures { result ≡ number_first text.now }
{
    match text {
        [] => false,
        [c, more @ ..] => c.is_ascii_digit() || (*c == b'.' && digit_first(more)),
    }
}
