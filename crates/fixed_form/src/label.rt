//! The label of an initial line (ANSI X3.9-1978 §3.4).

ghost use Rattle.std.specs.Prelude.{◌≡◌, ◌≤◌, ◌<◌, length, true};
ghost use Rattle.std.specs.List.{list_all};
ghost use Rattle.fixed_form.specs.Cards.{is_label_mark, number_from, label_field};

use crate::strip::all_spaces;

/// What columns 1 to 5 of an initial line hold.
#[derive(Clone, Copy)]
pub enum LabelField {
    Blank,
    /// 1 to 99999.
    Label(u32),
    /// Another character than digits and blanks, or the number 0.
    Bad,
}

fn all_label_marks(field: &[u8]) -> bool
    ensures { result ≡ list_all is_label_mark field.now }
{
    field
        .iter()
        .all(|b| *b == b' ' || (*b >= b'0' && *b <= b'9'))
}

#[tactic(auto, using(crate::proofs::LabelLemmas::digit_steps))]
fn number(field: &[u8]) -> u32
    requires short { length field.now ≤ 5 }
    requires marks { list_all is_label_mark field.now ≡ true }
    ensures { result ≡ number_from 0 field.now }
{
    let mut number: u32 = 0;
    for b in field {
        if *b != b' ' {
            number = 10 * number + (*b - b'0') as u32;
        }
    }
    number
}

/// What columns 1 to 5 of a card hold; blanks between digits do not count.
pub fn label_field(card: &[u8]) -> LabelField
    requires { length card.now ≡ 72 }
    ensures { result ≡ label_field card.now }
{
    let field = &card[..5];
    if all_spaces(field) {
        return LabelField::Blank;
    }
    if !all_label_marks(field) {
        return LabelField::Bad;
    }
    let label = number(field);
    if label == 0 {
        LabelField::Bad
    } else {
        LabelField::Label(label)
    }
}
