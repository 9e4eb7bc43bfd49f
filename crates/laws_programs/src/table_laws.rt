//! Laws of the tables of symbols.
ghost use Rattle.laws_programs.specs.SymbolTables.Laws.{DummiesComeFirst, DummiesStandAlone, ConstantsAreScalars};
ghost use Rattle.laws_programs.specs.SymbolTables.Shapes.{BodiesAreShaped};

/// The dummies of a module are its first symbols, in the order of its SUBROUTINE statement.
pub fn dummies_come_first()
    ensures { DummiesComeFirst }
{}

/// They stand in no EQUIVALENCE.
pub fn dummies_stand_alone()
    ensures { DummiesStandAlone }
{}

/// In executable statements bare names are none of arrays, and names with parentheses are those of arrays, with subscripts, or of
/// intrinsic functions.
pub fn bodies_are_shaped()
    ensures { BodiesAreShaped }
{}

/// The constants that names stand for have no bounds.
pub fn constants_are_scalars()
    ensures { ConstantsAreScalars }
{}
