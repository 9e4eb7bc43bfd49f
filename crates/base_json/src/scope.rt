//! What may be named in the JSON values of a module.
use f77_ast::Symbols;
use std::collections::HashSet;

/// What may be named.
#[derive(Drop)]
pub struct Scope<'a> {
    /// The symbols of the module.
    pub symbols: &'a Symbols,
    /// The cells that may be named after a statement.
    pub exits: &'a HashSet<u32>,
    /// Whether subscripts may be named.
    pub phi: bool,
}
