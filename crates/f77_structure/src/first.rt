//! The first of two refusals, and whether one more can change which is the first.
ghost use Rattle.std.specs.Prelude.{◌≡◌, false, true};
ghost use Rattle.fx_lists.specs.Refusals.{refuse_if};
ghost use Rattle.f77_structure.specs.First.{first_fault};

use fx_lists::{Code, Refusal, refuse_if};

/// The one of two refusals at the earlier line, and there the one with the lower code; None where neither is there.
pub fn first_fault(one: Option<Refusal>, other: Option<Refusal>) -> Option<Refusal>
    ensures { result ≡ first_fault one other }
{
    match one {
        None => other,
        Some(found) => refuse_if(true, found.line, found.code, other),
    }
}

/// False only where a refusal of this line and code is not reported before the one that was found: then it need not be looked for.
#[tactic(auto, unfolding(fx_lists::specs::Refusals::refuse_if))]
pub fn may_be_first(line: u32, code: Code, found: Option<Refusal>) -> bool
    ensures { result ≡ false → refuse_if true line code found ≡ found }
{
    match found {
        None => true,
        Some(old) => Refusal { line, code }.is_before(old),
    }
}
