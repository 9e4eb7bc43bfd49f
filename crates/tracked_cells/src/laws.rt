//! What is known of a unit that is tracked.
ghost use Rattle.tracked_cells.specs.Laws.{TrackedUnitsArePlain};

/// The law that at a unit where some module has an INTEGER scalar, and that `untracked_of` does not list, each module has
/// nothing but INTEGER scalars that are in no EQUIVALENCE.
pub fn tracked_units_are_plain()
    ensures { TrackedUnitsArePlain }
{}
