//! Laws of the units of a program.
ghost use Rattle.f77_meaning.specs.Laws.{UnitsDiffer, ModulesAreKnown, OffsetsFit, VariablesOccupyTheirStorage, NamesMeet, SharedByTable, OwnUnitsApart, CommonIsOfBlocks, CellsAreAlone, AreasAreKnown, OthersBeginUnset, OwnUnitsBeginUnset, LinkedCallsFit, LinkedHaveBlocks, ActualsSuit, CommonCellsAreAlone, CommonCellsAreCells, TemporariesAreRecognisable};
ghost use Rattle.f77_meaning.specs.StraightRuns.{StraightRunsAgree};

/// Units of different areas are different, and so are units of one area at different distances from its first.
pub fn units_differ()
    ensures { UnitsDiffer }
{}

/// The units of expressions that are actuals are told from all others by their numbers.
pub fn temporaries_are_recognisable()
    ensures { TemporariesAreRecognisable }
{}

/// The modules of a program are numbered.
pub fn modules_are_known()
    ensures { ModulesAreKnown }
{}

/// The area of each variable is numbered, where the blocks of the graph are those of the tables.
pub fn areas_are_known()
    ensures { AreasAreKnown }
{}

/// Every variable ends within the room of an area.
pub fn offsets_fit()
    ensures { OffsetsFit }
{}

/// The units of a variable that is no dummy are those of its place: its area, from its offset on, as many as it takes.
pub fn variables_occupy_their_storage()
    ensures { VariablesOccupyTheirStorage }
{}

/// Variables with a unit in common lie in one area: in a block, or in a storage group of one module.
pub fn names_meet()
    ensures { NamesMeet }
{}

/// Variables of one module with a unit in common share storage by its table.
pub fn shared_by_table()
    ensures { SharedByTable }
{}

/// The unit of an expression that is an actual is none of a variable.
pub fn own_units_apart()
    ensures { OwnUnitsApart }
{}

/// The units of COMMON of a module are those of the blocks that it, or a module that it reaches by calls, declares.
pub fn common_is_of_blocks()
    ensures { CommonIsOfBlocks }
{}

/// A scalar at whose unit the table of its module has nothing else shares its unit with no other variable of the module.
pub fn cells_are_alone()
    ensures { CellsAreAlone }
{}

/// A unit that is of no variable has no value at the start, where the values of DATA lie within their variables.
pub fn others_begin_unset()
    ensures { OthersBeginUnset }
{}

/// Such are the units of expressions that are actuals.
pub fn own_units_begin_unset()
    ensures { OwnUnitsBeginUnset }
{}

/// Each CALL of modules that link has a subroutine of its name, with a dummy for each actual, which takes it.
pub fn linked_calls_fit()
    ensures { LinkedCallsFit }
{}

/// The blocks of the graph of modules that link are those of their tables.
pub fn linked_have_blocks()
    ensures { LinkedHaveBlocks }
{}

/// Of a CALL that fits, each actual has the type of its dummy and offers what it takes: a scalar variable goes to a scalar dummy.
pub fn actuals_suit()
    ensures { ActualsSuit }
{}

/// At the unit of a tracked cell in a block no module has anything but one INTEGER scalar that is in no EQUIVALENCE.
pub fn common_cells_are_alone()
    ensures { CommonCellsAreAlone }
{}

/// A variable of any module that stands at such a unit is a tracked cell.
pub fn common_cells_are_cells()
    ensures { CommonCellsAreCells }
{}

/// A straight main program alone, with the symbols of its variables, ends as the straight program does, leaves the same input, and
/// prints the same.
pub fn straight_runs_agree()
    ensures { StraightRunsAgree }
{}
