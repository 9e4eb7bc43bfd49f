//! The equations of each kind of link hold, as theorems.
ghost use Rattle.region_translation.specs.CalleeLaws.{SameLinkHolds, DummyLinkHolds};

/// The equations between the subscripts of a variable of the caller and of a variable of the callee hold of the elements of both: of a variable
/// that is the same in both modules, and of a dummy where they hold from the callee to the caller. Computes nothing: for proofs.
pub fn links_hold()
    ensures same { SameLinkHolds }
    ensures dummy { DummyLinkHolds }
{}
