//! Bases: the modules of a program and the results that are kept for them, written as a text and read back.
#![tactic(auto)]

mod base;
mod entries;
mod formats;
mod known;
mod laws;
mod modules;
mod order;
mod read;
mod refusal;
mod taken;
mod version;
mod write;

pub use base::{Base, BaseModule, StoredResult};
pub use laws::{read_is_in_grammar, written_is_read};
pub use read::base_read;
pub use refusal::BaseRefusal;
pub use write::{base_write, kept_text};
