//! The present modules with their links.
ghost use Rattle.std.specs.Prelude.{◌≡◌};
ghost use Rattle.std.specs.Option.{option_map};
ghost use Rattle.session_texts.specs.pipsmake_meaning.Texts.{no_graph};
ghost use Rattle.session_texts.specs.pipsmake_meaning.Definitions.{module_named};
ghost use Rattle.result_making.specs.Parts.{own_tree};

use call_graph::Graph;
use f77_ast::{Parsed, Symbols};
use fx_lists::{List, Text};
use session_texts::Sources;
use std::alloc::Global;

/// The modules of a session and their graph, which is without modules where they do not link; `linked` says whether they do.
#[derive(Drop)]
pub struct Modules<'x> {
    pub sources: &'x Sources,
    pub graph: &'x Graph,
    pub linked: bool,
}

/// The graph of modules that do not link: it has none. Takes no memory.
pub fn no_links(alloc: Global) -> Graph
    ensures { result ≡ no_graph }
{
    Graph {
        order: List::new(alloc),
        edges: List::new(alloc),
        blocks: List::new(alloc),
        untracked: List::new(alloc),
    }
}

/// A module by itself: its statements and lines, and its symbols.
#[derive(Drop)]
pub struct Own<'x> {
    pub parsed: &'x Parsed,
    pub symbols: &'x Symbols,
}

/// The module of a name; None where there is none.
pub(crate) fn own_of<'x>(sources: &'x Sources, name: &Text) -> Option<Own<'x>>
    ensures { option_map own_tree result ≡ module_named sources.now name.now }
{
    let parsed = sources.parsed_named(name)?;
    let symbols = sources.symbols_named(name)?;
    Some(Own { parsed, symbols })
}
