//! What preconditions and transformers say of the runs of a program.
ghost use Rattle.laws_analyses.specs.Calls.ProgramLaws.{ProgramHolds};

/// In every run of a program, up to its first fault: at each arrival of a statement, and of a module's entry, its precondition
/// holds, its transformer holds of the arrival and the normal end, and tracked cells that it does not list keep their number.
pub fn program_holds()
    ensures { ProgramHolds }
{}
