//! The outside: stores of files and sinks of bytes, as contracts see them.
#![tactic(auto)]

mod comparing;
mod file_store;
mod mem_sink;
mod mem_store;
mod new_file;
mod replacing;
mod sending;
mod sink;
mod std_sink;
mod store;
mod tally;

pub use file_store::FileStore;
pub use fx_lists::{List, Text};
pub use mem_sink::MemSink;
pub use mem_store::MemStore;
pub use sending::{Sent, send, send_bytes};
pub use sink::{Put, Sink};
pub use std_sink::StdSink;
pub use store::{Fetched, Kept, Role, Store};
pub use tally::{Tallies, Tally};

/// The arguments of the command line, in order, without the name of the program.
pub type Words = List<Text>;
