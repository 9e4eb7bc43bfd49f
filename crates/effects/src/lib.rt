//! The effects of statements and modules: which variables they may read and write, through calls.
#![tactic(auto)]

mod callee;
mod list;
mod modules;
mod names;
mod reads;
mod shapes;
mod statement;

pub use modules::cumulated_effects;
pub use shapes::first_like;
pub use statement::proper;
