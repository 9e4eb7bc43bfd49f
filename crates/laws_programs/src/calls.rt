//! Laws of CALLs and of what they enter.
ghost use Rattle.laws_programs.specs.Storage.Calls.{CallsFit, CallsAreRead, DummiesAreTracked};
ghost use Rattle.laws_programs.specs.Storage.Below.{CallsAreListed, CallGraphIsAcyclic, ReachabilityIsTransitive, CommonIsShared};
ghost use Rattle.laws_programs.specs.Storage.Activations.{PlacesAreBound, SharedCellsAreLocked, CommonNamesAreCommon, ScalarsLie};
ghost use Rattle.laws_programs.specs.Storage.Lending.{ActualsLend, CalleeDummiesAvoidCalleeStorage};
ghost use Rattle.laws_programs.specs.Storage.Owned.{OwnOfCalled, DummiesOffLocals, VariablesKeepOff, ExpressionsKeepOff};

/// Each CALL has a subroutine of its name, whose dummies take its actuals, each for each.
pub fn calls_fit()
    ensures { CallsFit }
{}

/// No actual is an element of what is no array, or a constant array.
pub fn calls_are_read()
    ensures { CallsAreRead }
{}

/// An INTEGER scalar that is a dummy is a tracked cell.
pub fn dummies_are_tracked()
    ensures { DummiesAreTracked }
{}

/// Each CALL of the statements of a module is among its CALLs.
pub fn calls_are_listed()
    ensures { CallsAreListed }
{}

/// What is called never leads back to its caller.
pub fn call_graph_is_acyclic()
    ensures { CallGraphIsAcyclic }
{}

/// A module reaches what those that it calls reach.
pub fn reachability_is_transitive()
    ensures { ReachabilityIsTransitive }
{}

/// The units of COMMON of what is called are units of COMMON of the caller.
pub fn common_is_shared()
    ensures { CommonIsShared }
{}

/// A unit of a variable in COMMON is one of its module's units of COMMON.
pub fn common_names_are_common()
    ensures { CommonNamesAreCommon }
{}

/// Where a module is entered its dummies lie at their actuals, and its other names where they lay.
pub fn places_are_bound()
    ensures { PlacesAreBound }
{}

/// A tracked cell shares its unit with another variable of its module only where dummies reach it doubly, and it is locked.
pub fn shared_cells_are_locked()
    ensures { SharedCellsAreLocked }
{}

/// The units that are own to what a module calls, or below it, are so to the module.
pub fn own_of_called()
    ensures { OwnOfCalled }
{}

/// Dummies that lie at no own units of their module, or below it, lie at no unit of its locals.
pub fn dummies_off_locals()
    ensures { DummiesOffLocals }
{}

/// Then the variables of the module lie at no own units of what it calls, or below that.
pub fn variables_keep_off()
    ensures { VariablesKeepOff }
{}

/// Nor do its expressions that are actuals.
pub fn expressions_keep_off()
    ensures { ExpressionsKeepOff }
{}

/// A variable without bounds lies as a scalar of its type.
pub fn scalars_lie()
    ensures { ScalarsLie }
{}

/// Where actuals are evaluated each lends a variable, an element with the rest of its array, or the unit where its value was put.
pub fn actuals_lend()
    ensures { ActualsLend }
{}

/// Where the dummies of a module keep off the own units below it, those of what it calls keep off the ones below that.
pub fn callee_dummies_avoid_callee_storage()
    ensures { CalleeDummiesAvoidCalleeStorage }
{}
