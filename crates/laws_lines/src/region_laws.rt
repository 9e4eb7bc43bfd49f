//! The laws of the variables of regions, and of their lines.
ghost use Rattle.laws_lines.specs.Regions.Indexes.{IndexesAreSymbols};
ghost use Rattle.laws_lines.specs.Regions.Laws.{RegionsAreOverPlaces};
ghost use Rattle.laws_lines.specs.Regions.LineLaws.{RegionsAreReadable, RegionLinesMeanRegions, AllRegionLinesPass};

use crate::region_lines_are_passed_over;

/// In a module that is not refused the index of each DO is a symbol.
pub fn indexes_are_symbols()
    ensures { IndexesAreSymbols }
{}

/// READ and WRITE regions of modules have one to four systems each, and speak of subscripts, of which there are seven, and of tracked cells
/// where the statement begins, and of no other variable.
pub fn regions_are_over_places()
    ensures { RegionsAreOverPlaces }
{}

/// READ and WRITE regions of modules are such as their lines can tell: of symbols, blocks and saved locals, on subscripts and symbols, in
/// order, where the names of modules, symbols and blocks are of letters, digits and `_`.
pub fn regions_are_readable()
    ensures { RegionsAreReadable }
{}

/// Each line of a module is read as a region that was found there, as it is shown: each of its systems has lost a row if any has. The names of
/// its symbols are words, and none is that of a subscript, and those of modules and blocks are of letters, digits and `_`.
pub fn region_lines_mean_regions()
    ensures { RegionLinesMeanRegions }
{}

/// Each line of the regions of a module is a comment line that reading drops, where the names of modules, symbols and blocks are of
/// printable ASCII.
pub fn all_region_lines_pass()
    ensures { AllRegionLinesPass }
{
    region_lines_are_passed_over();
}
