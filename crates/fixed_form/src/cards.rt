//! The columns of a line (ANSI X3.9-1978 §3.2).

ghost use Rattle.std.specs.Prelude.{◌≡◌, ◌≤◌, length, replicate, IfOk};
ghost use Rattle.std.specs.List.{list_all};
ghost use Rattle.fixed_form.specs.Characters.{is_blank};
ghost use Rattle.fixed_form.specs.Cards.{front, has_comment_mark, is_comment, is_dropped, card, is_initial};

use fx_lists::Text;
use std::alloc::{AllocError as Memory, Global};

const BLANKS: &[u8] = &[b' '; 72];

#[tactic(auto, using(crate::proofs::CardLemmas::front_steps))]
fn front(line: &[u8]) -> &[u8]
    ensures same { result.now ≡ front line.now }
    ensures short { length result.now ≤ 72 }
{
    if line.len() < 72 { line } else { &line[..72] }
}

fn has_comment_mark(line: &[u8]) -> bool
    ensures { result ≡ has_comment_mark line.now }
{
    match line {
        [] => false,
        [b, ..] => *b == b'C' || *b == b'c' || *b == b'*' || *b == b'!',
    }
}

fn all_blank(line: &[u8]) -> bool
    ensures { result ≡ list_all is_blank line.now }
{
    line.iter().all(|b| *b == b' ' || *b == b'\t')
}

/// Whether a line is a comment: column 1 has `C`, `c`, `*` or `!`, or columns 1 to 72 have blanks and tabs alone.
pub fn is_comment(line: &[u8]) -> bool
    ensures { result ≡ is_comment line.now }
{
    has_comment_mark(line) || all_blank(front(line))
}

/// Whether a comment is not kept: it begins with `C>`, or column 2 has `$`.
pub fn is_dropped(line: &[u8]) -> bool
    ensures { result ≡ is_dropped line.now }
{
    let from_column_2 = match line {
        [] => line,
        [_, behind @ ..] => behind,
    };
    line.starts_with(b"C>".as_slice()) || from_column_2.starts_with(b"$".as_slice())
}

fn blanks(count: usize) -> &'static [u8]
    requires { count ≤ 72 }
    ensures { result.now ≡ replicate count 32 }
{
    &BLANKS[..count]
}

/// Columns 1 to 72 of a line, always 72 bytes: a longer line is cut, a shorter one is filled with blanks.
#[tactic(auto, using(crate::proofs::CardLemmas::card_steps))]
pub fn card(alloc: Global, line: &[u8]) -> Result<Text, Memory>
    ensures same { IfOk result (λ t. t ≡ card line.now) }
    ensures length { IfOk result (λ t. length t ≡ 72) }
{
    let front = front(line);
    let mut card = Text::from_bytes(alloc, front)?;
    card.append(blanks(72 - front.len()))?;
    Ok(card)
}

/// Whether a card is an initial line: column 6 has a blank or `0`. Else it is a continuation line.
pub fn is_initial(card: &[u8]) -> bool
    requires { length card.now ≡ 72 }
    ensures { result ≡ is_initial card.now }
{
    card[5] == b' ' || card[5] == b'0'
}
