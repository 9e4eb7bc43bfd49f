//! Whether each iteration of a DO may have its own copy of a variable.
#![tactic(auto)]

mod answer;
mod functions;
mod names;
mod uses;

pub use answer::{may_be_private, private_of};
pub use functions::{is_one_of, module_functions, own_functions};
pub use names::may_copy;
pub use uses::{Uses, uses_of};
