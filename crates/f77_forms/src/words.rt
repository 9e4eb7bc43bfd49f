//! Words at the front of a text.

ghost use Rattle.std.specs.Prelude.{◌≡◌};
ghost use Rattle.f77_forms.specs.Words.{rest_after, slice_now, begins, is_letter, is_digit};

/// What follows a word at the front of a text; None where the text begins otherwise.
#[tactic(auto, using(crate::proofs::WordLemmas::behind_end))]
pub fn rest_after<'a>(word: &[u8], text: &'a [u8]) -> Option<&'a [u8]>
    ensures { slice_now result ≡ rest_after word.now text.now }
{
    let mut rest = text;
    for w in word {
        match rest {
            [c, more @ ..] => {
                if *c != *w {
                    return None;
                }
                rest = more;
            }
            [] => return None,
        }
    }
    Some(rest)
}

/// Whether a text begins with a word.
pub fn begins(word: &[u8], text: &[u8]) -> bool
    ensures { result ≡ begins word.now text.now }
{
    rest_after(word, text).is_some()
}

/// Whether a byte is a capital letter of ASCII.
pub fn is_letter(c: u8) -> bool
    ensures { result ≡ is_letter c }
{
    c >= b'A' && c <= b'Z'
}

/// Whether a byte is a digit of ASCII.
pub fn is_digit(c: u8) -> bool
    ensures { result ≡ is_digit c }
{
    c >= b'0' && c <= b'9'
}
