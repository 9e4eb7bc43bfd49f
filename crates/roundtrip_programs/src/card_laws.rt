//! The laws of lines that are written and of lines that are read.
ghost use Rattle.roundtrip_programs.specs.Cards.Laws.{LinesReadBack, BodiesAreShort};

/// What is written of statements, each behind its comments, is read as those statements.
#[tactic(auto, using(crate::proofs::Cards::Whole::lines_read_back))]
pub fn lines_read_back()
    ensures { LinesReadBack }
{}

/// Each statement that is read has at most 1320 characters, printable ones and tabs.
#[tactic(auto, using(crate::proofs::Cards::Bodies::bodies_are_short))]
pub fn bodies_are_short()
    ensures { BodiesAreShort }
{}
