//! Which references to array elements cannot leave their array, by what holds before their statements.
#![tactic(auto)]

mod judged;
mod lines;
mod references;
mod safe;
mod statements;

pub use judged::Checks;
pub use lines::check_lines;
pub use loop_marker;
pub use statements::checked;
