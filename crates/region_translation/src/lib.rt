//! What a region of a called module is to the module that calls it.
#![tactic(auto)]

mod blocks;
mod callee;
mod callee_laws;
mod callee_pieces;
mod caller;
mod laws;
mod links;
mod names;
mod pieces;
mod putting;
mod units;
mod values;

pub use call_equations;
pub use callee::to_callee;
pub use callee_laws::links_hold as callee_links_hold;
pub use caller::to_caller;
pub use effects;
pub use laws::links_hold;
pub use pieces::row_vars;
pub use region_sets;
