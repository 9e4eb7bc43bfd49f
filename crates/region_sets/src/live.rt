//! What is left out of sets, and how many pieces regions have.
ghost use Rattle.region_sets.specs.Live.{NoneIsRefuted, RegionsAreFew};

/// No region of a set has a system that is refuted, but for the fourth, which may be a hull: none is written whose system is shown to have no point.
pub fn none_is_refuted()
    ensures { NoneIsRefuted }
{}

/// The regions of sets, unions, differences, and those that `compose` and `over_loop` make, have one to four systems.
pub fn regions_are_few()
    ensures { RegionsAreFew }
{}
