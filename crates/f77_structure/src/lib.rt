//! The structure of a module: from its statements, each as far as structure needs it, to its first refusal.
#![tactic(auto)]

mod blocks;
mod check;
mod depth;
mod first;
mod jumps;
mod mark;
mod open;
mod order;
mod stack;
mod steps;
mod terminals;

pub use check::fault_of;
pub use depth::is_deep;
pub use mark::{Action, Mark, Role};
pub use stack::{Stack, stack_of};
