//! What evaluating does to the store.
ghost use Rattle.laws_analyses.specs.Statements.Evaluations.{ValuesStay, TargetsLie, ShownStay};

/// An expression that is evaluated without a fault leaves the store and the input as they were.
pub fn values_stay()
    ensures { ValuesStay }
{}

/// So does a left side, or an item of a READ, and it names a unit of its variable: the first, or that of the element.
pub fn targets_lie()
    ensures { TargetsLie }
{}

/// What is printed leaves them too.
pub fn shown_stay()
    ensures { ShownStay }
{}
