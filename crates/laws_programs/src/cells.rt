//! Laws of the units of tracked cells, of locals and of expressions that are actuals.
ghost use Rattle.laws_programs.specs.Storage.CellLaws.{CellsAreScalars, CellsHavePlaces, CellsStandAlone, NamesTellModules, OwnUnitsAreNoNames, OwnUnitsDiffer, LocalsStayInside, LostUnitsAreLocal};
ghost use Rattle.laws_programs.specs.Storage.Initial.{DataLiesInVariables, CellsBeginWithData};

/// A tracked cell is an INTEGER scalar of one unit.
pub fn cells_are_scalars()
    ensures { CellsAreScalars }
{}

/// One that is a local or lies in COMMON lies at the first unit of its place.
pub fn cells_have_places()
    ensures { CellsHavePlaces }
{}

/// No other name of its module has that unit, but for dummies.
pub fn cells_stand_alone()
    ensures { CellsStandAlone }
{}

/// Each module has a name of its own.
pub fn names_tell_modules()
    ensures { NamesTellModules }
{}

/// The units of expressions that are actuals are units of no name.
pub fn own_units_are_no_names()
    ensures { OwnUnitsAreNoNames }
{}

/// Those of different modules, CALLs and places differ.
pub fn own_units_differ()
    ensures { OwnUnitsDiffer }
{}

/// The units of a local are none of a name of another module.
pub fn locals_stay_inside()
    ensures { LocalsStayInside }
{}

/// The units that become undefined at the ends of a module's executions are of its locals.
pub fn lost_units_are_local()
    ensures { LostUnitsAreLocal }
{}

/// Where DATA gives values to units of locals alone, within their ends, it gives values within variables.
pub fn data_lies_in_variables()
    ensures { DataLiesInVariables }
{}

/// Then a tracked cell to which DATA gives a value begins with it.
pub fn cells_begin_with_data()
    ensures { CellsBeginWithData }
{}
