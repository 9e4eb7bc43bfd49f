//! The laws of the variables of IN regions, and of their lines.
ghost use Rattle.laws_lines.specs.Ins.Laws.{AllInLinesPass, InLinesMeanRegions, InsAreOverPlaces};

use crate::region_lines_are_passed_over;

/// IN regions of modules have one to four systems each, and speak of subscripts, of which there are seven, and of tracked cells where the
/// statement begins, and of no other variable.
pub fn ins_are_over_places()
    ensures { InsAreOverPlaces }
{}

/// Each IN line of a module is read as a region that was found there, as it is shown: each of its systems has lost a row if any has. The names
/// of its symbols are words, and none is that of a subscript, and those of modules and blocks are of letters, digits and `_`.
pub fn in_lines_mean_regions()
    ensures { InLinesMeanRegions }
{}

/// Each line of the IN regions of a module is a comment line that reading drops, where the names of modules, symbols and blocks are of
/// printable ASCII.
pub fn all_in_lines_pass()
    ensures { AllInLinesPass }
{
    region_lines_are_passed_over();
}
