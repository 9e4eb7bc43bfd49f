//! The laws.
ghost use Rattle.laws_interleavings.specs.Plans.Laws.{ModulesAreFine, CallsLeaveUnitsCleared, ListsLeaveUnitsCleared, ModulesAvoid, StatementsAvoid, AvoidingRuns, ProgramsAreRanged, NumbersStayInRange};
ghost use Rattle.laws_interleavings.specs.Plans.Uses.{FinePlansServe, MarkedProgramsAreStrict};

/// Modules whose variables have types read no unit without a value but to fault, write no unit that is locked, and change without an event only units of their own.
pub fn plans_are_fine()
    ensures { ModulesAreFine }
{}

/// Of such plans a read of a unit without a value is a fault, only those units change without an event, and what is locked is not written in any run.
pub fn fine_plans_serve()
    ensures { FinePlansServe }
{}

/// A program with marked loops, whose variables have types, reads no unit without a value but to fault.
pub fn marked_programs_are_strict()
    ensures { MarkedProgramsAreStrict }
{}

/// A unit of a local that is not saved, or of an expression that is an actual argument, of modules that are not active, has no value after a CALL where it had none before.
pub fn calls_leave_units_cleared()
    ensures { CallsLeaveUnitsCleared }
{}

/// So it is of a list of statements, such as the body of a DO.
pub fn lists_leave_units_cleared()
    ensures { ListsLeaveUnitsCleared }
{}

/// What modules do that have no variable, local or actual expression at a unit does not touch it, where it is no unit of their actual arguments.
pub fn modules_avoid()
    ensures { ModulesAvoid }
{}

/// Nor does a statement none of whose names reaches the unit.
pub fn statements_avoid()
    ensures { StatementsAvoid }
{}

/// Runs of what does not touch a unit, from stores that differ at the unit alone, are the same, have no event of it, and leave its contents.
pub fn avoiding_runs()
    ensures { AvoidingRuns }
{}

/// Where numbers of 32 bits are read, a program with constants and literals of 32 bits writes such.
pub fn programs_are_ranged()
    ensures { ProgramsAreRanged }
{}

/// In every run of a program with constants, literals and first contents of 32 bits, numbers of 32 bits alone are read and written, and are in the units.
pub fn numbers_stay_in_range()
    ensures { NumbersStayInRange }
{}
