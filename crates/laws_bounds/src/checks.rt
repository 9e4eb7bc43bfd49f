//! What is claimed of references that are found safe holds.
ghost use Rattle.laws_bounds.specs.Accepted.{ReadChecksHold};
ghost use Rattle.laws_bounds.specs.Faults.{BodiesAreIndexed, InsideNeverFaults};
ghost use Rattle.laws_bounds.specs.Lines.{SafeLinesAreSafe};
ghost use Rattle.laws_bounds.specs.LinesPass.{CheckLinesPass};
ghost use Rattle.laws_bounds.specs.SafeLines.{ReadSafeLinesHold};

use in_out_regions::region_translation::links_hold;
use laws_analyses::{
    accepted_data_stays_in_locals, analyses_are_whole, jumps_stay_inside, names_agree,
    read_analyses_hold,
};
use laws_programs::bodies_are_shaped;

/// In every run of a program that is read, up to its first fault, and at each arrival of a statement: where a reference is found safe by what holds there, its subscripts
/// are those of an element of its array, at each store that the statement has come to, if they are evaluated without a fault.
pub fn read_checks_hold()
    ensures { ReadChecksHold }
{
    names_agree();
    accepted_data_stays_in_locals();
    jumps_stay_inside();
    links_hold();
    read_analyses_hold();
}

/// Each reference of a line SAFE is evaluated by a statement of its module, and is found safe by what holds where that statement begins.
pub fn safe_lines_are_safe()
    ensures { SafeLinesAreSafe }
{}

/// So a reference of a line SAFE, at each arrival of a statement that evaluates it, in every run of a program that is read, up to its first fault, stays inside its array,
/// and is evaluated without a fault of subscripts where its own subscripts are.
pub fn safe_lines_hold()
    ensures { ReadSafeLinesHold }
{
    safe_lines_are_safe();
    read_checks_hold();
    analyses_are_whole();
}

/// The lines on the references of what is read are comment lines that reading drops.
pub fn check_lines_pass()
    ensures { CheckLinesPass }
{}

/// An expression each of whose references stays inside is evaluated without a fault of subscripts: as a value, on a left side, as an item, and as an actual argument.
/// A variable with parentheses is to be an array.
pub fn inside_never_faults()
    ensures { InsideNeverFaults }
{}

/// In the statements of a program that is read it is.
pub fn bodies_are_indexed()
    ensures { BodiesAreIndexed }
{
    bodies_are_shaped();
}
