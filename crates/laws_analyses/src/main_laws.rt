//! What preconditions and transformers say of runs.
ghost use Rattle.laws_analyses.specs.Statements.Laws.{MainHolds};

/// In every run of a main program that calls no module, up to its first fault: at each arrival of a statement its precondition
/// holds, its transformer holds of the arrival and the normal end, and tracked cells that it does not list keep their number.
pub fn main_holds()
    ensures { MainHolds }
{}
