//! What is known of loops holds in the runs of programs that are read.
ghost use Rattle.laws_marks.specs.ConflictAccepted.{CopiesAreSole, ReadLoopsHold};
ghost use Rattle.laws_marks.specs.ConflictIterations.{IterationsAreParts};

use in_out_regions::region_translation::links_hold;
use laws_analyses::{accepted_data_stays_in_locals, jumps_stay_inside, names_agree, program_holds};

/// In every run of a program that is read, up to its first fault, and for each execution of a DO: where an iteration begins, what is known of it holds, and cells that
/// the body does not change have the numbers that they had where the DO began; what an iteration reads, or writes, lies in the READ, or WRITE, regions of the body, and
/// what it reads before it writes it in the IN regions; where `conflict` answers None for a variable, no unit is accessed by an earlier and a later iteration as the
/// kinds say that lies in the WRITE region of the variable where one that so writes it begins; and where `may_be_private` answers Yes for a variable that no other one
/// overlaps, no iteration reads a unit of it before it writes it.
pub fn read_loops_hold()
    ensures { ReadLoopsHold }
{
    names_agree();
    accepted_data_stays_in_locals();
    jumps_stay_inside();
    program_holds();
    links_hold();
}

/// In a program that is read no other variable of its module overlaps one whose name allows copies.
pub fn copies_are_sole()
    ensures { CopiesAreSole }
{}

/// What an iteration does is a part of what its DO does, and it ends normally, or as the DO does.
pub fn iterations_are_parts()
    ensures { IterationsAreParts }
{}
