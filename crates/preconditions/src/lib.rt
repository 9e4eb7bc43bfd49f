//! What holds of tracked cells where modules are entered and where their statements begin.
#![tactic(auto)]

mod entry;
mod modules;
mod statement;

pub use entry::entry_from;
pub use modules::preconditions;
pub use transformers;
pub use transformers::{call_translation, transformer_algebra};
