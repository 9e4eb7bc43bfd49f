//! The laws of whole programs that are read.
ghost use Rattle.laws_analyses.specs.CallLaws.{AnalysedProgramsHold, ModulesMeetHypotheses};

use crate::program_holds;

/// A module that is read is such as the induction over modules asks.
pub fn modules_meet_hypotheses()
    ensures { ModulesMeetHypotheses }
{}

/// In every run of a program that is read the preconditions and transformers hold that summaries and entries give which follow from one another.
pub fn analysed_programs_hold()
    ensures { AnalysedProgramsHold }
{
    program_holds();
}
