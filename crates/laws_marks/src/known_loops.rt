//! The laws.
ghost use Rattle.laws_marks.specs.Known.{MarksSayParallel, ReadMarkedLoopsAreKnown};

use crate::dead_variables::units_stand;
use crate::read_loops_hold;
use laws_programs::all_are_of_programs;

/// A DO that is marked as parallel has a body that control does not leave but at its end, without STOP, input and output; and each variable of a WRITE region of the body
/// is the variable of the DO, or no dependence of it is kept, or it is one of those of which the mark says that each iteration has its own.
pub fn marks_say_parallel()
    ensures { MarksSayParallel }
{}

/// In every run of a program that is read, up to its first fault, and at each execution of a DO that has a directive and comes to an end: the loop to which it comes
/// ends normally without input and output, its iterations are as the analyses claim, and each variable of a WRITE region of its body has no conflict, or each iteration has
/// its units for itself, where what it writes of the symbols of which it has copies, and of reduction variables, is of its own.
pub fn marked_loops_are_known()
    ensures { ReadMarkedLoopsAreKnown }
{
    read_loops_hold();
    units_stand();
    all_are_of_programs();
}
