//! READ and WRITE regions of statements and of modules.
#![tactic(auto)]

mod arms;
mod calls;
mod context;
mod entry;
mod laws;
mod loops;
mod modules;
mod reads;
mod references;
mod simple;
mod statement;

pub use arms::{Reached, always, if_false, if_true, push_met, push_tests};
pub use calls::{push_callee, push_maybe};
pub use context::RegionContext;
pub use entry::{all_seen, entry_reads, names_none};
pub use laws::{elements_are_exact, later_parts_are_exact};
pub use loops::{push_loop_reads, range_of};
pub use modules::regions;
pub use reads::{push_actuals_reads, push_inner_reads, push_reads};
pub use references::{push_named, scalar};
pub use region_translation;
pub use region_translation::{call_equations, effects, region_sets};
pub use simple::item_does;
pub use statement::{put, put_all};
pub use transformers;
pub use transformers::{call_translation, transformer_algebra};
