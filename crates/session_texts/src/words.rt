//! The words of a line, and the numbers among them.
ghost use Rattle.std.specs.Prelude.{◌≡◌, ◌<◌, length, IfOk};
ghost use Rattle.fixed_form.specs.Characters.{is_blank, upper_case};
ghost use Rattle.session_texts.specs.Steps.{first_piece, after_piece};
ghost use Rattle.session_texts.specs.Words.{in_capitals, words_of, digits_after, count_of};

use fx_lists::{List, Text};
use std::alloc::{AllocError as Memory, Global};

fn is_blank(b: u8) -> bool
    ensures { result ≡ is_blank b }
{
    b == b' ' || b == b'\t'
}

fn upper_case(b: u8) -> u8
    ensures { result ≡ upper_case b }
{
    if b >= b'a' && b <= b'z' { b - 32 } else { b }
}

/// The line up to its first blank or tab, and what follows that.
fn first_piece(line: &[u8]) -> (&[u8], &[u8])
    requires { 0 < length line.now }
    ensures piece { result.0.now ≡ first_piece line.now }
    ensures rest { result.1.now ≡ after_piece line.now }
    ensures shorter { length result.1.now < length line.now }
{
    let mut length = 0;
    let mut rest = line;
    while let [b, more @ ..] = rest {
        if is_blank(*b) {
            return (&line[..length], more);
        }
        length += 1;
        rest = more;
    }
    (line, rest)
}

/// A word with its letters a to z as A to Z.
fn in_capitals(alloc: Global, word: &[u8]) -> Result<Text, Memory>
    ensures { IfOk result (λ text. text ≡ in_capitals word.now) }
{
    let mut text = Text::new(alloc);
    for b in word {
        text.push(upper_case(*b))?;
    }
    Ok(text)
}

/// The words of a line, which blanks and tabs separate, in capitals.
#[tactic(auto, using(crate::proofs::WordLemmas::word_steps))]
pub fn words_of(alloc: Global, line: &[u8]) -> Result<List<Text>, Memory>
    ensures { IfOk result (λ words. words ≡ words_of line.now) }
{
    let mut words = List::new(alloc);
    let mut rest = line;
    while !rest.is_empty() {
        let (piece, others) = first_piece(rest);
        if !piece.is_empty() {
            words.push(in_capitals(alloc, piece)?)?;
        }
        rest = others;
    }
    Ok(words)
}

/// The number that up to seven digits write; None where a character is no digit.
#[tactic(auto, using(crate::proofs::WordLemmas::digit_steps))]
fn digits(word: &[u8]) -> Option<u32>
    requires { length word.now < 8 }
    ensures { result ≡ digits_after 0 word.now }
{
    let mut number: u32 = 0;
    for b in word {
        if *b < b'0' || *b > b'9' {
            return None;
        }
        number = 10 * number + u32::from(*b - b'0');
    }
    Some(number)
}

/// The number of one to seven digits.
pub fn count_of(word: &[u8]) -> Option<u32>
    ensures { result ≡ count_of word.now }
{
    if 1 <= word.len() && word.len() <= 7 {
        digits(word)
    } else {
        None
    }
}
