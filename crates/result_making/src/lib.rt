//! The value of one result by its rule, from what is kept; and the written text of a module.
#![tactic(auto)]

mod above;
mod below;
mod callees_first;
mod callers_first;
mod made;
mod marked;
mod modules;
mod own;
mod written;

pub use made::made_value;
pub use modules::{Modules, no_links};
pub use written::shown;
