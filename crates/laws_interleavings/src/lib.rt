//! Theorems on processes that share a store: interleaved by single accesses in any order they do what they do one after the other.
#![tactic(auto)]

mod laws;
mod plan_laws;

pub use laws::{
    bodies_ride, interleavings_agree, long_schedules_end, loops_interleave, marked_runs_agree,
    marks_are_forgotten,
};
pub use plan_laws::{
    avoiding_runs, calls_leave_units_cleared, fine_plans_serve, lists_leave_units_cleared,
    marked_programs_are_strict, modules_avoid, numbers_stay_in_range, plans_are_fine,
    programs_are_ranged, statements_avoid,
};
