//! What has values, and what a value was made from.
use fx_lists::{List, Text};
use pipsmake_rules::Kind;

/// What has values: the text of a module, and its results.
#[derive(Clone, Copy, PartialEq, Eq)]
pub enum Item {
    /// The text of a module, by the module's name.
    Text,
    /// A result of a module, by the module's name; the graph has the name `*`.
    Result(Kind),
}

/// A value from which a result was made: its place among those that were seen of its item and name, from 0.
#[derive(Drop)]
pub struct Stamped {
    pub item: Item,
    pub name: Text,
    pub stamp: u32,
}

/// What is kept: the place of the value among those that were seen, and what it was made from, in the order of its needs.
#[derive(Drop)]
pub struct Kept {
    pub stamp: u32,
    pub needs: List<Stamped>,
}
