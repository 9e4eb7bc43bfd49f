//! OUT regions: which elements a piece of code writes that the rest of the run may read before they are written again.
#![tactic(auto)]

mod beside;
mod context;
mod later;
mod leaving;
mod lists;
mod modules;
mod rest;
mod statement;
mod used;

pub use leaving::leaves;
pub use modules::out_regions;
pub use used::push_out;
