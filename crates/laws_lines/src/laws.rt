//! The laws of the names of tables, of the variables of results, and of lines.
ghost use Rattle.laws_lines.specs.NameLaws.{NamesAreDistinct, NamesAreWords};
ghost use Rattle.laws_lines.specs.Laws.{AnalysesAreOverCells};
ghost use Rattle.laws_lines.specs.LineLaws.{AnalysesAreReadBack};

/// No two symbols of a table have one name.
pub fn names_are_distinct()
    ensures { NamesAreDistinct }
{}

/// Each symbol of a module that is read has a name of a letter, and then letters, digits and `_`.
pub fn names_are_words()
    ensures { NamesAreWords }
{}

/// Preconditions speak of tracked cells before statements, transformers also of changed cells after them, and neither of any other variable.
pub fn analyses_are_over_cells()
    ensures { AnalysesAreOverCells }
{}

/// Each line of a module is read as just the system that was found there, where the names of its symbols are words.
pub fn analyses_are_read_back()
    ensures { AnalysesAreReadBack }
{}
