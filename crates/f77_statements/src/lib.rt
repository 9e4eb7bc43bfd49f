//! Statements by themselves: the tree of a stripped statement, or the first cause to refuse it.
#![tactic(auto)]

mod blocks;
mod common;
mod data;
mod entities;
mod executables;
mod implicit;
mod lists;
mod parts;
mod phrase;
mod read;
mod refusal;
mod specifications;

pub use phrase::{DoHead, Phrase};
pub use read::phrase_of;
pub use refusal::{Cause, Refusal};
