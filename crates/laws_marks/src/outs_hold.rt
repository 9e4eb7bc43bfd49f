//! What OUT regions say of the runs of programs that are read.
ghost use Rattle.laws_marks.specs.OutAccepted.{ReadOutsHold};

use in_out_regions::region_translation::links_hold;
use laws_analyses::{accepted_data_stays_in_locals, jumps_stay_inside, names_agree};

/// In every run of a program that is read, unless a fault ends it, the OUT regions that are made from its analyses, and from its READ, WRITE and IN regions, hold of each
/// execution of a statement, or of the entry: each visible unit that it writes, and that the rest of the run reads before it writes it, lies in one of them.
pub fn read_outs_hold()
    ensures { ReadOutsHold }
{
    names_agree();
    accepted_data_stays_in_locals();
    jumps_stay_inside();
    links_hold();
}
