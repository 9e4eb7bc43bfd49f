//! The laws.
ghost use Rattle.laws_marks.specs.OwnLaws.{CallsEnd, InactiveUnitsHaveNone, OwnUnitsAreInactive, UnitsAreApart, UnitsBeginUnset, VariablesHaveTypes};

use laws_analyses::{accepted_data_stays_in_locals, jumps_stay_inside};

/// In a program that is read, variables have types, and the main program has no dummies.
pub fn variables_have_types()
    ensures { VariablesHaveTypes }
{}

/// No CALL ends by a GO TO.
pub fn calls_end()
    ensures { CallsEnd }
{
    jumps_stay_inside();
}

/// A unit of a local that is not saved, or of an expression that is an actual argument, is none of another module's variables.
pub fn units_are_apart()
    ensures { UnitsAreApart }
{}

/// It has no value where a run begins.
pub fn units_begin_unset()
    ensures { UnitsBeginUnset }
{
    accepted_data_stays_in_locals();
}

/// The units of an iteration's own that belong to CALLs, as of the body of a DO, are of expressions at CALLs of its module, or of modules that stand behind it.
pub fn own_units_are_inactive()
    ensures { OwnUnitsAreInactive }
{}

/// In every run, up to its first fault, units of modules and CALLs that are not active have no value.
pub fn inactive_units_have_none()
    ensures { InactiveUnitsHaveNone }
{
    jumps_stay_inside();
    accepted_data_stays_in_locals();
}
