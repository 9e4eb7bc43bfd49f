//! Laws of programs that are written and read again.
ghost use Rattle.roundtrip_programs.specs.Laws.{TablesIgnorePlaces, GraphsIgnorePlaces};
ghost use Rattle.roundtrip_programs.specs.Lines.{LinesArePassedOver};
ghost use Rattle.roundtrip_programs.specs.Programs.{ProgramsReadBack, NamesAreShown};

use crate::texts_read_back;

/// A module that is not refused has the same table of symbols wherever its statements stand.
pub fn tables_ignore_places()
    ensures { TablesIgnorePlaces }
{}

/// Modules that link have the same graph wherever their statements stand.
pub fn graphs_ignore_places()
    ensures { GraphsIgnorePlaces }
{}

/// What holds and what changes is written in comment lines that reading drops.
pub fn lines_are_passed_over()
    ensures { LinesArePassedOver }
{}

/// The names of symbols are of printable ASCII.
pub fn names_are_shown()
    ensures { NamesAreShown }
{}

/// The text of a program, with added comment lines that reading drops, is read as the same program.
pub fn programs_read_back()
    ensures { ProgramsReadBack }
{
    texts_read_back();
}
