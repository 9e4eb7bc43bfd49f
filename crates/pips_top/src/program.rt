//! What reading a text gives.
use call_graph::Graph;
use f77_ast::Symbols;
use f77_parser::ModuleTrees;
use fx_lists::List;

/// The modules of a text, the symbols of each in the same order, and the graph of their CALLs and common blocks.
#[derive(Drop)]
pub struct Program {
    pub modules: ModuleTrees,
    pub tables: List<Symbols>,
    pub graph: Graph,
}
