//! Which serial loops run in parallel with reduction variables: the obstacle of each is a variable in which its iterations accumulate, and do nothing else.
#![tactic(auto)]

mod accumulation;
mod found;
mod standing;
mod variable;

pub use found::reduced;
pub use result_lines::{Part, ReduceOp, Reduction};
