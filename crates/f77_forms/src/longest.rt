//! The longest keyword that a statement begins with.

ghost use Rattle.std.specs.Prelude.{◌≡◌, length};
ghost use Rattle.f77_forms.specs.Longest.{longer, longest};

use crate::form::Form;
use crate::refused::Refused;
use crate::words::{begins, rest_after};

/// A keyword, and the statements that it begins.
pub trait Keyword {
    ghost use Rattle.std.specs.Prelude.{ℕ, Bool, List};

    ghost word: { Self → List ℕ };

    ghost stands: { List ℕ → Self → Bool };

    /// The keyword, in capitals and without blanks.
    fn word(&self) -> &'static str
        ensures { result.now ≡ word self.now };

    /// Whether a stripped statement begins with the keyword and the keyword counts before what follows it.
    fn stands(&self, body: &[u8]) -> bool
        ensures { result ≡ stands body.now self.now };
}

impl Keyword for Form {
    ghost use Rattle.f77_forms.specs.Choice.{entry, entry_stands};

    ghost word = { λ f. f.keyword.now };

    ghost stands = { λ body f. entry_stands body (entry f) };

    fn word(&self) -> &'static str {
        self.keyword
    }

    fn stands(&self, body: &[u8]) -> bool {
        !self.keyword.is_empty() && begins(self.keyword.as_bytes(), body)
    }
}

impl Keyword for Refused {
    ghost use Rattle.f77_forms.specs.Refused.{refused_word, refused_stands};

    ghost word = { refused_word };

    ghost stands = { refused_stands };

    fn word(&self) -> &'static str {
        self.keyword()
    }

    fn stands(&self, body: &[u8]) -> bool {
        match rest_after(self.keyword().as_bytes(), body) {
            None => false,
            Some(rest) => self.is_refused_before(rest),
        }
    }
}

fn longer<K: Keyword + Copy>(a: Option<K>, b: Option<K>) -> Option<K>
    ensures { result ≡ longer K.word a b }
{
    match a {
        None => b,
        Some(first) => match b {
            None => Some(first),
            Some(second) => {
                if first.word().len() < second.word().len() {
                    Some(second)
                } else {
                    Some(first)
                }
            }
        },
    }
}

/// The longest of the keywords that begin a statement, and of equally long ones the first; None where none does.
#[tactic(auto, using(crate::proofs::LongestLemmas::longest_steps))]
pub fn longest<K: Keyword + Copy>(keywords: &[K], body: &[u8]) -> Option<K>
    ensures { result ≡ longest K.word (K.stands body.now) keywords.now }
{
    let mut best = None;
    for keyword in keywords {
        if keyword.stands(body) {
            best = longer(best, Some(*keyword));
        }
    }
    best
}
