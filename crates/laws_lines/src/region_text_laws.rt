//! The laws of lines of regions.
ghost use Rattle.laws_lines.specs.RegionTexts.Laws.{RegionLinesReadBack, OneSystemLinesReadBack, FittingRegionsAreOrdered, RegionLinesArePassedOver};
ghost use Rattle.laws_lines.specs.RegionTexts.Added.{AddedLinesReadBack};

use laws_programs::roundtrip_programs::lines_are_passed_over;

/// The line of a region is read as that region, where each of its systems has lost a row if any has: the line has one flag for all.
pub fn region_lines_read_back()
    ensures { RegionLinesReadBack }
{}

/// The line of a region of one system is read as just that region.
pub fn one_system_lines_read_back()
    ensures { OneSystemLinesReadBack }
{}

/// Regions as calls give them have systems that are in such an order as the laws ask.
pub fn fitting_regions_are_ordered()
    ensures { FittingRegionsAreOrdered }
{}

/// The line of a region is a comment line that reading drops.
pub fn region_lines_are_passed_over()
    ensures { RegionLinesArePassedOver }
{
    lines_are_passed_over();
}

/// Each line that is added to a module for its sets of regions is read as a region of the set of its statement, or of the module.
pub fn added_lines_read_back()
    ensures { AddedLinesReadBack }
{}
