//! A module in its program.
use crate::Graph;
use f77_ast::{Module, Symbols};

/// A module of a program, the symbols of the module, and the graph of the program.
#[derive(Drop)]
pub struct View<'a> {
    pub module: &'a Module,
    pub symbols: &'a Symbols,
    pub graph: &'a Graph,
}
