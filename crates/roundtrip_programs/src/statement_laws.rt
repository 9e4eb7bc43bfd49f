//! Laws of reading what was written.
ghost use Rattle.roundtrip_programs.specs.Statements.Laws.{ExpressionsReadBack, StatementsReadBack, LinesAreWritten};
ghost use Rattle.roundtrip_programs.specs.Statements.Fitting.{StatementsFit};

/// The text of an expression that reading gave, before what may follow an expression, is read as that expression.
#[tactic(auto, using(crate::proofs::Statements::Expressions::expressions_read_back))]
pub fn expressions_read_back()
    ensures { ExpressionsReadBack }
{}

/// The text of each statement that reading gave is read as that statement, but for the label that a DO or a DO WHILE is written
/// without.
#[tactic(auto, using(crate::proofs::Statements::Phrases::statements_read_back))]
pub fn statements_read_back()
    ensures { StatementsReadBack }
{}

/// What the printer writes on the line of a DO, a block IF and a logical IF is the text of the phrase that begins it; a block IF
/// that stands for an assignment or a DO WHILE has the text of that.
#[tactic(auto, using(crate::proofs::Statements::WrittenLines::lines_are_written))]
pub fn lines_are_written()
    ensures { LinesAreWritten }
{}

/// The text of each statement that reading gave takes no more room than what was read, and lines hold it.
#[tactic(auto, using(crate::proofs::Statements::Fits::statements_fit))]
pub fn statements_fit()
    ensures { StatementsFit }
{}
