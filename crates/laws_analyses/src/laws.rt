//! What sets of regions say of units is what is claimed of executions.
ghost use Rattle.laws_analyses.specs.Regions.Laws.{LiesAsClaimed, SharpAsClaimed};

/// The law that a unit that lies in a region, and what an exact region says of elements, are so as they are claimed of an execution.
pub fn claims_are_on_units()
    ensures sound { LiesAsClaimed }
    ensures exact { SharpAsClaimed }
{}
