//! The law of the GO TOs of a module that is written.
ghost use Rattle.roundtrip_programs.specs.ModuleTexts.JumpLaws.{JumpsAgain};

/// In the statements that are written of a module that reading accepts, neither the blocks nor the GO TOs have a fault.
pub fn jumps_again()
    ensures { JumpsAgain }
{}
