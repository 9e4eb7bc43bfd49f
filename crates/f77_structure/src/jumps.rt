//! The targets of the GO TOs of a module (ANSI X3.9-1978 §11.1).
ghost use Rattle.std.specs.Prelude.{◌≡◌};
ghost use Rattle.f77_structure.specs.Jumps.{has_place, stands, reaches, check_jump, all_judged};

use crate::blocks::{Jump, Landing};
use crate::first::may_be_first;
use crate::open::Span;
use fx_lists::{Code, Refusal, refuse_if};

/// Whether a list contains the statement at a place.
fn has_place(spans: &[Span], list: usize, place: usize) -> bool
    ensures { result ≡ has_place spans.now list place }
{
    match spans.get(list) {
        None => false,
        Some(span) => span.contains(place),
    }
}

fn stands(landings: &[Landing], label: u32) -> bool
    ensures { result ≡ stands landings.now label }
{
    landings.iter().any(|landing| landing.label == label)
}

/// Whether each statement with the label of the GO TO stands in a list that contains the GO TO.
fn reaches(spans: &[Span], landings: &[Landing], jump: Jump) -> bool
    ensures { result ≡ reaches spans.now landings.now jump }
{
    landings.iter().all(|landing| landing.label != jump.label
        || has_place(spans, landing.list, jump.place))
}

/// A GO TO is not sought where a fault before it was found.
#[tactic(auto, using(crate::proofs::FirstLemmas::no_fault))]
fn check_jump(
    spans: &[Span],
    landings: &[Landing],
    jump: Jump,
    found: Option<Refusal>,
) -> Option<Refusal>
    ensures { result ≡ check_jump spans.now landings.now jump found }
{
    if !may_be_first(jump.line, Code::LabelMissing, found) {
        return found;
    }
    if !stands(landings, jump.label) {
        return refuse_if(true, jump.line, Code::LabelMissing, found);
    }
    let into = !reaches(spans, landings, jump);
    refuse_if(into, jump.line, Code::JumpIntoBlock, found)
}

/// The first refusal, also of the GO TOs: `LabelMissing` where no executable statement has the label, `JumpIntoBlock` where one has
/// it in a list that does not contain the GO TO. Each GO TO is compared with all labels, up to the first refusal where lines
/// ascend.
pub fn all_judged(
    spans: &[Span],
    landings: &[Landing],
    jumps: &[Jump],
    found: Option<Refusal>,
) -> Option<Refusal>
    ensures { result ≡ all_judged spans.now landings.now jumps.now found }
{
    let mut found = found;
    let mut rest = jumps;
    while let [jump, more @ ..] = rest {
        found = check_jump(spans, landings, *jump, found);
        rest = more;
    }
    found
}
