//! What is claimed of IN and OUT regions, of the iterations of loops, and of marked loops holds in every run of the programs that are read; with their marked loops interleaved these runs do as the plain ones.
//!
//! What is claimed of programs that are read is in `specs/InAccepted.antt`, `OutAccepted.antt`, `ConflictAccepted.antt` and `Accepted.antt`; which directives are meant, in `specs/Directives.antt`.
#![tactic(auto)]

mod conflicts;
mod dead_variables;
mod inactive_units;
mod ins_hold;
mod known_loops;
mod marked_loops;
mod outs_hold;
mod reduction_variables;
mod whole_runs;

pub use conflicts::{copies_are_sole, iterations_are_parts, read_loops_hold};
pub use dead_variables::{
    copies_lie_in_own_regions, directive_names_are_copied, directive_names_stand,
    marked_loops_are_dead, marked_names_are_dead, private_units_are_dead, units_stand,
};
pub use inactive_units::{
    calls_end, inactive_units_have_none, own_units_are_inactive, units_are_apart,
    units_begin_unset, variables_have_types,
};
pub use ins_hold::read_ins_hold;
pub use known_loops::{marked_loops_are_known, marks_say_parallel};
pub use marked_loops::{
    dos_are_quiet, iterations_are_begun, loops_begin, loops_end_quietly, loops_hold,
    loops_may_interleave, reduced_loops_hold,
};
pub use outs_hold::read_outs_hold;
pub use reduction_variables::{locals_stay_apart, reductions_say, stores_stay_in_range};
pub use whole_runs::{read_marks_hold, read_runs_do_as_plain};
