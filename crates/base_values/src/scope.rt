//! What may be named in one result of a module.
use base_json::Scope;
use f77_ast::Symbols;
use pipsmake_rules::Kind;

/// What may be named in a result that is read.
#[derive(Drop)]
pub struct ValueScope<'a> {
    /// The symbols, without exits and subscripts.
    pub cells: Scope<'a>,
    /// The kind of the result.
    pub kind: Kind,
}

/// The names in a result that is written.
#[derive(Drop)]
pub struct SymbolNames<'a> {
    pub symbols: &'a Symbols,
}
