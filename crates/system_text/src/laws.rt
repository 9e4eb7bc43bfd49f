//! The laws of systems that are written and read.
ghost use Rattle.system_text.specs.Meaning.{RowsCompareSides};
ghost use Rattle.system_text.specs.Laws.{SystemsReadBack, PreconditionLinesReadBack, TransformerLinesReadBack, FittingSystemsAreOrdered};

/// What is written of a system is read as that system.
pub fn systems_read_back()
    ensures { SystemsReadBack }
{}

/// The line of a precondition is read as its system.
pub fn precondition_lines_read_back()
    ensures { PreconditionLinesReadBack }
{}

/// The line of a transformer is read as its cells and its system.
pub fn transformer_lines_read_back()
    ensures { TransformerLinesReadBack }
{}

/// Systems as calls on rows give them are in such an order as the laws ask.
pub fn fitting_systems_are_ordered()
    ensures { FittingSystemsAreOrdered }
{}

/// A row that is read holds at a point where its sides, as they are written, compare so.
pub fn rows_compare_sides()
    ensures { RowsCompareSides }
{}
