//! Copies of graphs and of the lines of modules.
ghost use Rattle.std.specs.Prelude.{◌≡◌, ◌++◌, ◌∷◌, [], IfOk};

use call_graph::{Block, Edge, Graph};
use f77_ast::{Places, Spot, Unit};
use fx_lists::{List, Text};
use std::alloc::{AllocError as Memory, Global};

fn copy_texts(alloc: Global, texts: &List<Text>) -> Result<List<Text>, Memory>
    ensures { IfOk result (λ copies. copies ≡ texts.now) }
{
    let mut copies = List::new(alloc);
    let mut rest = texts.as_slice();
    while let [text, more @ ..] = rest {
        copies.push(text.clone()?)?;
        rest = more;
    }
    Ok(copies)
}

fn copy_edge(edge: &Edge) -> Result<Edge, Memory>
    ensures { IfOk result (λ copy. copy ≡ edge.now) }
{
    let caller = edge.caller.clone()?;
    let callee = edge.callee.clone()?;
    let at = edge.at;
    Ok(Edge { caller, at, callee })
}

fn copy_edges(alloc: Global, edges: &List<Edge>) -> Result<List<Edge>, Memory>
    ensures { IfOk result (λ copies. copies ≡ edges.now) }
{
    let mut copies = List::new(alloc);
    let mut rest = edges.as_slice();
    while let [edge, more @ ..] = rest {
        copies.push(copy_edge(edge)?)?;
        rest = more;
    }
    Ok(copies)
}

fn copy_block(block: &Block) -> Result<Block, Memory>
    ensures { IfOk result (λ copy. copy ≡ block.now) }
{
    let name = block.name.clone()?;
    let size = block.size;
    Ok(Block { name, size })
}

fn copy_blocks(alloc: Global, blocks: &List<Block>) -> Result<List<Block>, Memory>
    ensures { IfOk result (λ copies. copies ≡ blocks.now) }
{
    let mut copies = List::new(alloc);
    let mut rest = blocks.as_slice();
    while let [block, more @ ..] = rest {
        copies.push(copy_block(block)?)?;
        rest = more;
    }
    Ok(copies)
}

fn copy_unit(unit: &Unit) -> Result<Unit, Memory>
    ensures { IfOk result (λ copy. copy ≡ unit.now) }
{
    let block = unit.block.clone()?;
    let offset = unit.offset;
    Ok(Unit { block, offset })
}

fn copy_units(alloc: Global, units: &List<Unit>) -> Result<List<Unit>, Memory>
    ensures { IfOk result (λ copies. copies ≡ units.now) }
{
    let mut copies = List::new(alloc);
    let mut rest = units.as_slice();
    while let [unit, more @ ..] = rest {
        copies.push(copy_unit(unit)?)?;
        rest = more;
    }
    Ok(copies)
}

/// A copy of a graph.
pub fn copy_graph(alloc: Global, graph: &Graph) -> Result<Graph, Memory>
    ensures { IfOk result (λ copy. copy ≡ graph.now) }
{
    let order = copy_texts(alloc, &graph.order)?;
    let edges = copy_edges(alloc, &graph.edges)?;
    let blocks = copy_blocks(alloc, &graph.blocks)?;
    let untracked = copy_units(alloc, &graph.untracked)?;
    Ok(Graph {
        order,
        edges,
        blocks,
        untracked,
    })
}

fn copy_spot(alloc: Global, spot: &Spot) -> Result<Spot, Memory>
    ensures { IfOk result (λ copy. copy ≡ spot.now) }
{
    let comments = copy_texts(alloc, &spot.comments)?;
    let part = spot.part;
    let first = spot.first;
    Ok(Spot {
        part,
        first,
        comments,
    })
}

fn copy_spots(alloc: Global, spots: &List<Spot>) -> Result<List<Spot>, Memory>
    ensures { IfOk result (λ copies. copies ≡ spots.now) }
{
    let mut copies = List::new(alloc);
    let mut rest = spots.as_slice();
    while let [spot, more @ ..] = rest {
        copies.push(copy_spot(alloc, spot)?)?;
        rest = more;
    }
    Ok(copies)
}

/// A copy of the lines and comments of a module.
pub fn copy_places(alloc: Global, places: &Places) -> Result<Places, Memory>
    ensures { IfOk result (λ copy. copy ≡ places.now) }
{
    let spots = copy_spots(alloc, &places.spots)?;
    let closing = copy_texts(alloc, &places.closing)?;
    Ok(Places { spots, closing })
}
