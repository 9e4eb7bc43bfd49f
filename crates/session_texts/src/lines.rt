//! The lines of a script, one after another.
ghost use Rattle.std.specs.Prelude.{◌≡◌, [], ◌∷◌, MatchOption};
ghost use Rattle.fixed_form.specs.TextLines.{text_lines};

use fixed_form::{first_line, without_returns};
use std::marker::Model;

/// The lines of a text that are still to come, without their ends.
#[derive(Drop)]
pub struct Lines<'a> {
    rest: &'a [u8],
}

impl<'a> Model for Lines<'a> {
    ghost use Rattle.std.specs.Prelude.{List, ℕ};
    ghost use Rattle.fixed_form.specs.TextLines.{text_lines};

    ghost Value = { List (List ℕ) };

    ghost view = { λ l. text_lines l.rest.now };
}

impl<'a> Lines<'a> {
    /// The lines of a text. A line ends with LF, the last needs none.
    pub fn new(text: &'a [u8]) -> Lines<'a>
        ensures { result ≡ text_lines text.entry.now }
    {
        Lines { rest: text }
    }

    /// Takes the next line. None where there are no more.
    #[tactic(auto, using(crate::proofs::LineLemmas::line_steps))]
    pub fn next_line(&mut self) -> Option<&'a [u8]>
        ensures { MatchOption result ((self.old ≡ []) × (self.new ≡ [])) (λ line. self.old ≡ line.now ∷ self.new) }
    {
        if self.rest.is_empty() {
            return None;
        }
        let (line, others) = first_line(self.rest);
        self.rest = others;
        Some(without_returns(line))
    }
}
