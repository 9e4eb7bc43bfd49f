//! What regions say of the runs of programs that are read.
ghost use Rattle.laws_analyses.specs.Regions.Accepted.{ReadRegionsHold};

use crate::{accepted_data_stays_in_locals, jumps_stay_inside, names_agree, program_regions_hold};

/// In every run of a program that is read, up to its first fault, the regions that are made from its analyses hold of each execution of a statement, or of the entry:
/// each visible unit that is read, or written, lies in one of the READ, or WRITE, regions, and at a normal end each element that an exact region describes is in
/// bounds, and is read, or written.
pub fn read_regions_hold()
    ensures { ReadRegionsHold }
{
    names_agree();
    accepted_data_stays_in_locals();
    jumps_stay_inside();
    program_regions_hold();
}
