//! The rules of fixed form for one line, and the first one that a line breaks.

ghost use Rattle.std.specs.Prelude.{◌≡◌, length};
ghost use Rattle.fixed_form.specs.Faults.{fault_of, has_bad_field, starts_quoted};

use crate::cards::is_initial;
use crate::label::{LabelField, label_field};
use crate::strip::{all_allowed, all_spaces, any_tab, has_tab};
use fx_lists::Code;

/// What is known of a statement before a continuation line of it.
#[derive(Clone, Copy)]
pub struct Begun {
    /// Whether a character constant is open at the end of its last line.
    pub quoted: bool,
    /// How many continuation lines it has.
    pub continuations: u32,
}

fn has_bad_field(card: &[u8]) -> bool
    requires { length card.now ≡ 72 }
    ensures { result ≡ has_bad_field card.now }
{
    if is_initial(card) {
        match label_field(card) {
            LabelField::Bad => true,
            LabelField::Blank => false,
            LabelField::Label(_) => false,
        }
    } else {
        !all_spaces(&card[..5])
    }
}

fn starts_quoted(begun: Option<Begun>, card: &[u8]) -> bool
    requires { length card.now ≡ 72 }
    ensures { result ≡ starts_quoted begun card.now }
{
    match begun {
        None => false,
        Some(Begun { quoted, .. }) => quoted && !is_initial(card),
    }
}

/// The first rule that a statement line breaks, in the order of the codes 1 to 5; None where it breaks none.
/// `begun` is the statement before the line, None before the first one.
#[tactic(auto, unfolding(crate::specs::Faults::fault_of))]
pub fn fault_of(begun: Option<Begun>, card: &[u8]) -> Option<Code>
    requires { length card.now ≡ 72 }
    ensures { result ≡ fault_of begun card.now }
{
    if !all_allowed(card) {
        return Some(Code::NonAscii);
    }
    if any_tab(&card[..6]) || has_tab(starts_quoted(begun, card), &card[6..]) {
        return Some(Code::Tab);
    }
    if has_bad_field(card) {
        return Some(Code::BadLabelField);
    }
    if is_initial(card) {
        return None;
    }
    match begun {
        None => Some(Code::ContinuationFirst),
        Some(Begun { continuations, .. }) => {
            if continuations < 19 {
                None
            } else {
                Some(Code::TooManyContinuations)
            }
        }
    }
}
