//! Laws of tracked cells in scopes.
ghost use Rattle.laws_programs.specs.Storage.ScopeLaws.{FlagsTellCells, CellsHaveFlags, FoundIsCell, CellsAreFound, CommonScalarsAreTrackedTogether, DataInitialisesScalars};

/// A flag that is set is that of a tracked cell.
pub fn flags_tell_cells()
    ensures { FlagsTellCells }
{}

/// The flag of a tracked cell is set.
pub fn cells_have_flags()
    ensures { CellsHaveFlags }
{}

/// What is found at a unit of a block is a tracked cell that lies there.
pub fn found_is_cell()
    ensures { FoundIsCell }
{}

/// A tracked cell in a block is what is found at its unit.
pub fn cells_are_found()
    ensures { CellsAreFound }
{}

/// Where a module tracks a unit, each module that has a variable there finds a tracked cell.
pub fn common_scalars_are_tracked_together()
    ensures { CommonScalarsAreTrackedTogether }
{}

/// A tracked cell to which DATA gives a value begins with it.
pub fn data_initialises_scalars()
    ensures { DataInitialisesScalars }
{}
