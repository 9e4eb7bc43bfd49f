//! The equations of each kind of link hold, as theorems.
ghost use Rattle.region_translation.specs.Laws.{SameElementsHold, ScalarLinkHolds, ElementLinkHolds, ArrayLinkHolds, RestLinkHolds, BlockLinkHolds};

/// The equations between the subscripts of a variable of the callee and of the caller's variable that it is hold of the elements of both, by
/// their places in a run, and exact ones of no others. Computes nothing: for proofs.
pub fn links_hold()
    ensures same { SameElementsHold }
    ensures scalar { ScalarLinkHolds }
    ensures element { ElementLinkHolds }
    ensures array { ArrayLinkHolds }
    ensures rest { RestLinkHolds }
    ensures block { BlockLinkHolds }
{}
