//! Graphs and tracked cells.

use crate::shown::text_of;
use call_graph::Graph;
use f77_ast::{Parsed, Symbols};
use fx_lists::List;
use std::alloc::{AllocError as Memory, Global};
use tracked_cells::tracked_flags;

fn add_order(shown: &mut String, graph: &Graph) -> Result<(), Memory> {
    shown.push_str("order")?;
    for module in graph.order.as_slice() {
        shown.push_str(" ")?;
        shown.push_str(text_of(module))?;
    }
    shown.push_str("\n")
}

fn add_edges(alloc: Global, shown: &mut String, graph: &Graph) -> Result<(), Memory> {
    for edge in graph.edges.as_slice() {
        let caller = text_of(&edge.caller);
        let at = edge.at;
        let callee = text_of(&edge.callee);
        let line = format!(in alloc; "call {caller} {at} {callee}\n")?;
        shown.push_str(line.as_str())?;
    }
    Ok(())
}

fn add_blocks(alloc: Global, shown: &mut String, graph: &Graph) -> Result<(), Memory> {
    for block in graph.blocks.as_slice() {
        let name = text_of(&block.name);
        let size = block.size;
        let line = format!(in alloc; "block /{name}/ {size}\n")?;
        shown.push_str(line.as_str())?;
    }
    for unit in graph.untracked.as_slice() {
        let name = text_of(&unit.block);
        let offset = unit.offset;
        let line = format!(in alloc; "untracked /{name}/+{offset}\n")?;
        shown.push_str(line.as_str())?;
    }
    Ok(())
}

/// The order, the CALLs, the blocks and the untracked units, each on a line.
fn add_graph(alloc: Global, shown: &mut String, graph: &Graph) -> Result<(), Memory> {
    add_order(shown, graph)?;
    add_edges(alloc, shown, graph)?;
    add_blocks(alloc, shown, graph)
}

/// The names of the tracked cells of a module.
fn add_cells(
    alloc: Global,
    shown: &mut String,
    parsed: &Parsed,
    table: &Symbols,
    graph: &Graph,
) -> Result<(), Memory> {
    let cells: List<bool> = tracked_flags(alloc, &parsed.module, table, &graph.untracked)?;
    shown.push_str("cells ")?;
    shown.push_str(text_of(&parsed.module.name))?;
    shown.push_str(":")?;
    for (symbol, cell) in table.as_slice().iter().zip(cells.as_slice()) {
        if *cell {
            shown.push_str(" ")?;
            shown.push_str(text_of(&symbol.name))?;
        }
    }
    shown.push_str("\n")
}

/// The graph, and the tracked cells of each module.
pub fn add_graphs(
    alloc: Global,
    shown: &mut String,
    modules: &List<Parsed>,
    tables: &List<Symbols>,
    graph: &Graph,
) -> Result<(), Memory> {
    add_graph(alloc, shown, graph)?;
    for (parsed, table) in modules.as_slice().iter().zip(tables.as_slice()) {
        add_cells(alloc, shown, parsed, table, graph)?;
    }
    Ok(())
}
