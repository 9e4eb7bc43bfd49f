//! The two directions of a CALL: the summary of a callee in the terms of its caller, and what holds at a CALL in the terms of the callee.
#![tactic(auto)]

mod actual;
mod call;
mod common;
mod entry;
mod named_sites;
mod numbers;
mod scope;
mod sites;
mod summary;
mod variables;

pub use actual::{actual_of, named_cell, push_cell};
pub use common::{copy_unit, tracked_at};
pub use entry::site_entry;
pub use named_sites::NamedSites;
pub use numbers::next_number;
pub use scope::{CellScope, tracked_of};
pub use sites::{CallSites, CallerScope, Site, caller_scope};
pub use summary::call_transformer;
pub use transformer_algebra;
