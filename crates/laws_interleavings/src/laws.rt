//! The laws.
ghost use Rattle.laws_interleavings.specs.Laws.{InterleavingsAgree, LoopsInterleave, MarkedRunsAgree, LongSchedulesEnd, MarksAreForgotten};
ghost use Rattle.laws_interleavings.specs.Accumulated.{BodiesRide};

/// Processes of which each, begun after those before it, does some reads and writes alone, and of which no two meet in a unit that one of them writes, do
/// the same in any interleaving.
pub fn interleavings_agree()
    ensures { InterleavingsAgree }
{}

/// The iterations of a loop, each with its private units, do the same in any interleaving, where the loop ends normally, reads private units only after its own writes,
/// and no two of its iterations meet in a unit that one of them writes; and units that are not private end as they do one iteration after the other.
pub fn loops_interleave()
    ensures { LoopsInterleave }
{}

/// A plan with marked loops, where what is claimed of its marked loops holds along its plain run, which does not fault, does by any schedule what the plain run does: it
/// ends so, prints the same, takes the same input, and each unit that has a value in the end has that of the plain run. Only a unit of the variable of a marked loop, or of a name of its
/// directive, may have lost its value. A schedule may be too short; then no iteration faulted, and what was printed is the beginning of what the plain run prints.
pub fn marked_runs_agree()
    ensures { MarkedRunsAgree }
{}

/// So it is of each schedule that gives each marked loop that is met as many picks as its iterations have shared reads and writes.
pub fn long_schedules_end()
    ensures { LongSchedulesEnd }
{}

/// A program with marked loops, without its marks, is the program.
pub fn marks_are_forgotten()
    ensures { MarksAreForgotten }
{}

/// A body each statement of which is an assignment that accumulates in a reduction variable, or has no name that reaches one, uses these variables to accumulate only, also
/// where its sums wrap.
pub fn bodies_ride()
    ensures { BodiesRide }
{}
