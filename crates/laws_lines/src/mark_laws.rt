//! The laws of lines on loops.
ghost use Rattle.laws_lines.specs.Marks.WholeLaws.{MarksReadBack, TextsAreWrittenAgain};
ghost use Rattle.laws_lines.specs.Marks.ClaimLaws.{ClaimsReadBack};
ghost use Rattle.laws_lines.specs.Marks.Laws.{DirectivesReadBack, LoopLinesArePassedOver, ObstaclesAreNoDirectives, ReadingIsUnique, ReductionsReadBack};

/// The lines of a directive without REDUCTION clauses are read as the names of its private variables.
pub fn directives_read_back()
    ensures { DirectivesReadBack }
{}

/// The lines of any directive are read as the names of its private variables, and as its REDUCTION clauses: operators and names.
pub fn reductions_read_back()
    ensures { ReductionsReadBack }
{}

/// The line of an obstacle is no line for compilers.
pub fn obstacles_are_no_directives()
    ensures { ObstaclesAreNoDirectives }
{}

/// Each line on the loops of a module is a comment line that reading drops.
pub fn loop_lines_are_passed_over()
    ensures { LoopLinesArePassedOver }
{}

/// A text is read as one program, with one choice of marked loops, or not at all.
pub fn reading_is_unique()
    ensures { ReadingIsUnique }
{}

/// The written text of a program with the lines on its loops is read, with its directives, as that program with just its parallel loops marked, each with its clauses.
pub fn marks_read_back()
    ensures { MarksReadBack }
{}

/// What is read of the written text of modules is written, with the same lines added, as the same text.
pub fn texts_are_written_again()
    ensures { TextsAreWrittenAgain }
{}

/// The written text of modules, with lines that reading drops, is read as these modules with just the claims among these lines, each before the part of which it is.
pub fn claims_read_back()
    ensures { ClaimsReadBack }
{}
