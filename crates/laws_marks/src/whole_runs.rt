//! The laws.
ghost use Rattle.laws_marks.specs.Accepted.{ReadMarksHold, ReadRunsAsPlain};

use crate::dead_variables::{
    directive_names_are_copied, directive_names_stand, marked_loops_are_dead, units_stand,
};
use crate::inactive_units::{calls_end, inactive_units_have_none, variables_have_types};
use crate::known_loops::marked_loops_are_known;
use crate::reduction_variables::{locals_stay_apart, stores_stay_in_range};
use crate::{loops_begin, loops_hold, reduced_loops_hold};
use laws_interleavings::{
    long_schedules_end, marked_programs_are_strict, marked_runs_agree, marks_are_forgotten,
};

/// Of every program that is read, with directives of which each says what was found: in each run that comes to its end without a fault, at each execution of a DO with a
/// directive, the iterations of its loop may be interleaved, each with private units and copies of reduction variables of its own, and the rest of the run reads nothing that the
/// loop loses before it writes it.
pub fn read_marks_hold()
    ensures { ReadMarksHold }
{
    loops_begin();
    loops_hold();
    reduced_loops_hold();
    directive_names_are_copied();
    variables_have_types();
    calls_end();
    inactive_units_have_none();
    directive_names_stand();
    marked_loops_are_dead();
    marked_loops_are_known();
    units_stand();
    locals_stay_apart();
    stores_stay_in_range();
}

/// So each such run, its marked loops interleaved by whatever schedule and the copies of reduction variables combined in whatever order, ends as the plain one does: it never faults, prints the same, takes the same input, and each unit that
/// has a value in the end has that of the plain run; only a unit of the variable of a marked DO, or of a PRIVATE name, may have lost its value. A schedule may be too short; then no
/// iteration faulted, and what was printed is the beginning of what the plain run prints.
pub fn read_runs_do_as_plain()
    ensures { ReadRunsAsPlain }
{
    marked_runs_agree();
    long_schedules_end();
    marks_are_forgotten();
    marked_programs_are_strict();
    variables_have_types();
    read_marks_hold();
}
