//! A refusal at a line, and the first of several.
ghost use Rattle.std.specs.Prelude.{◌≡◌};
ghost use Rattle.fx_lists.specs.Refusals.{earliest, is_before, refuse_if};

use crate::Code;

/// An error message of the front end: a code, and the line where the refused statement begins, from 1.
#[derive(Clone, Copy, Debug, PartialEq, Eq)]
pub struct Refusal {
    pub line: u32,
    pub code: Code,
}

impl Refusal {
    /// Whether it is reported before the other: at an earlier line, or at the same line with a lower number.
    #[tactic(auto, unfolding(crate::specs::Refusals::is_before))]
    pub fn is_before(self, other: Refusal) -> bool
        ensures { result ≡ is_before self other }
    {
        self.line < other.line
            || self.line == other.line && self.code.number() < other.code.number()
    }
}

/// The earlier of a new refusal and of what was found; what was found, where neither is before the other.
pub fn earliest(new: Refusal, found: Option<Refusal>) -> Refusal
    ensures { result ≡ earliest new found }
{
    match found {
        Some(old) if !new.is_before(old) => old,
        _ => new,
    }
}

/// The earliest of what was found and, where something is wrong, a new refusal of this line and code; None where there
/// is neither.
#[tactic(auto, unfolding(crate::specs::Refusals::refuse_if))]
pub fn refuse_if(wrong: bool, line: u32, code: Code, found: Option<Refusal>) -> Option<Refusal>
    ensures { result ≡ refuse_if wrong line code found }
{
    if wrong {
        Some(earliest(Refusal { line, code }, found))
    } else {
        found
    }
}
