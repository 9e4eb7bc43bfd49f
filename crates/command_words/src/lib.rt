//! The words after the program's name, read by one command of `clap` and by the program's own rules.
#![tactic(auto)]

mod command;
mod options;
mod request;

pub use request::{Request, Show, Task, request_of};
