//! What exact regions have no more of.
ghost use Rattle.array_regions.specs.Laws.{LaterPartsAreExact, ElementsAreExact};

/// An exact region of a part of a block IF has only points at which the test of each arm above is false: so where one of them is true, nothing
/// that it says is owed.
pub fn later_parts_are_exact()
    ensures { LaterPartsAreExact }
{}

/// An exact region of an array element has only points at which each subscript is the value of an affine form.
pub fn elements_are_exact()
    ensures { ElementsAreExact }
{}
