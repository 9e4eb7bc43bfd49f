//! The laws of the analyses of whole programs.
ghost use Rattle.laws_analyses.specs.Laws.{AnalysesAreWhole, AnalysesFollow, ReadAnalysesHold, WholeAnalysesHold};

use crate::{
    accepted_data_stays_in_locals, analysed_programs_hold, jumps_stay_inside, names_agree,
};

/// The analyses of a program give summaries and entries that follow from one another.
pub fn analyses_follow()
    ensures { AnalysesFollow }
{}

/// What the analyses of a program that is read give holds in every run, up to its first fault, where names, GO TOs, numbers and targets are as reading makes them.
pub fn whole_analyses_hold()
    ensures { WholeAnalysesHold }
{
    analysed_programs_hold();
}

/// What the analyses of a program that is read say of its statements and modules holds in every run, up to its first fault: each precondition at each arrival,
/// each transformer of each arrival and normal end.
pub fn read_analyses_hold()
    ensures { ReadAnalysesHold }
{
    names_agree();
    accepted_data_stays_in_locals();
    jumps_stay_inside();
    whole_analyses_hold();
}

/// Each module of a program that is read has one analysis, each of its statements a precondition and a transformer.
pub fn analyses_are_whole()
    ensures { AnalysesAreWhole }
{}
