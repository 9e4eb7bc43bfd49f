//! The results that the analysis of a program keeps: their kinds, what each needs, and the order in which they are made.
#![tactic(auto)]

mod key;
mod kind;
mod laws;
mod listed;
mod need;
mod neighbours;
mod order;
mod table;

pub use key::Key;
pub use kind::{KINDS, Kind};
pub use laws::{rules_are_ranked, walks_are_complete};
pub use listed::Listed;
pub use need::needs;
pub use neighbours::{callees, callers};
pub use order::walk;
pub use table::{RULES, Rule, Whose};
