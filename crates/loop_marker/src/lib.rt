//! Which loops of a module are parallel, and the first obstacle of each other loop.
#![tactic(auto)]

mod functions;
mod jumps;
mod loops;
mod names;
mod phases;
mod variables;
mod verdict;

pub use dependence_test;
pub use loops::marks;
pub use module_phases;
pub use names::{bounds_have_name, has_name, have_name, is_in_bounds};
pub use out_regions;
pub use phases::{ModuleResults, all_marks};
pub use privatizer;
pub use region_sets;
pub use transformers::transformer_algebra;
pub use variables::{inner_in, written_in};
pub use verdict::{Looked, Verdict, verdict_of};
