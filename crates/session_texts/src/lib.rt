//! The modules of a session: their texts, each read by itself, with trees and symbols.
#![tactic(auto)]

mod answer;
mod checks;
mod command;
mod laws;
mod lines;
mod lists;
mod reading;
mod refusal;
mod script;
mod source;
mod sources;
mod words;

pub use answer::{write_dropped, write_made, write_ok, write_source, write_text};
pub use command::Command;
pub use laws::{changes_keep_modules, replacing_none, texts_after_changes};
pub use pipsmake_meaning;
pub use pipsmake_rules;
pub use reading::{sources_of, tables_of};
pub use refusal::{Refusal, write_refused};
pub use roundtrip_programs;
pub use script::commands;
pub use source::{ModuleText, Source};
pub use sources::Sources;
