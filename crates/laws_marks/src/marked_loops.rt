//! The laws.
ghost use Rattle.laws_marks.specs.MarkedLaws.{IterationsAreBegun, LoopsEndQuietly, DosAreQuiet, LoopsBegin, LoopsMayInterleave, LoopsHold, ReducedLoopsHold};

/// The plan of a marked DO that ends normally and takes no input is cut into the iterations of the loop.
pub fn iterations_are_begun()
    ensures { IterationsAreBegun }
{}

/// A loop that comes to an end on an input, that control does not leave and that has no input or output ends normally also without that input.
pub fn loops_end_quietly()
    ensures { LoopsEndQuietly }
{}

/// The run of the loop of a DO is such, where the DO comes to an end on that input, not by STOP, has no input or output, and no GO TO that leads out of its body and no RETURN.
pub fn dos_are_quiet()
    ensures { DosAreQuiet }
{}

/// A DO with a directive looks at units, gives its variable its first number, and then does what its loop does, or its loop with reduction variables.
pub fn loops_begin()
    ensures { LoopsBegin }
{}

/// A marked loop may be interleaved, where no two of its iterations meet in a unit that is not private, and what they read of private units they wrote before.
pub fn loops_may_interleave()
    ensures { LoopsMayInterleave }
{}

/// What is asked of a marked loop, and of what the run does after it, holds, where nothing later reads what the loop loses.
pub fn loops_hold()
    ensures { LoopsHold }
{}

/// So it is of a marked loop with reduction variables, of which each iteration has copies, where its body uses these to accumulate alone.
pub fn reduced_loops_hold()
    ensures { ReducedLoopsHold }
{}
