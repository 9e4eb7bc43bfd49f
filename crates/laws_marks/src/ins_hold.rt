//! What IN regions say of the runs of programs that are read.
ghost use Rattle.laws_marks.specs.InAccepted.{ReadInsHold};

use in_out_regions::region_translation::links_hold;
use laws_analyses::{accepted_data_stays_in_locals, jumps_stay_inside, names_agree};

/// In every run of a program that is read, up to its first fault, the IN regions that are made from its analyses, and from its READ and WRITE regions, hold of each
/// execution of a statement, or of the entry: each visible unit that is read before it is written lies in one of them, and at a normal end each element that an exact
/// one describes is in bounds, and is read before it is written.
pub fn read_ins_hold()
    ensures { ReadInsHold }
{
    names_agree();
    accepted_data_stays_in_locals();
    jumps_stay_inside();
    links_hold();
}
