//! Dependences between the iterations of a DO: whether two of them may access one storage unit, by the regions of its body.
#![tactic(auto)]

mod analysis;
mod answer;
mod body;
mod conflicts;
mod finding;
mod kinds;
mod laws;
mod order;
mod pairs;
mod variables;

pub use analysis::Analysis;
pub use answer::Conflict;
pub use body::{LoopBody, body_of, head_of, system_at};
pub use conflicts::{conflict, conflict_of};
pub use finding::loop_in;
pub use laws::body_has_range;
