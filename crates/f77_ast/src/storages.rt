//! The units of a table of symbols, and the storage groups and blocks that have them.
ghost use Rattle.f77_ast.specs.Storages.{SizesAreReached, UnitsAreApart, UnitsLieWithin};

/// The law that a unit of a variable is in the variable's storage group or block, below the size of that.
pub fn units_lie_within()
    ensures { UnitsLieWithin }
{}

/// The law that variables of two storages, as of two groups, of two blocks, or of a group and a block, have no unit in common.
pub fn units_are_apart()
    ensures { UnitsAreApart }
{}

/// The law that a storage group or block that has units is as long as its furthest variable reaches.
pub fn sizes_are_reached()
    ensures { SizesAreReached }
{}
