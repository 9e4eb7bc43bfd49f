//! The COMMON blocks of a program and their sizes.
ghost use Rattle.std.specs.Prelude.{◌≡◌, ◌+◌, [], map, IfOk};
ghost use Rattle.f77_ast.specs.Symbols.{symbol_tree};
ghost use Rattle.f77_ast.specs.Units.{units_in};
ghost use Rattle.call_graph.specs.Blocks.{block_grown, place_grown, symbols_grown, tables_grown, blocks_of};
ghost use Rattle.call_graph.specs.Sizes.{entry_block, sized};

use crate::graph::Block;
use f77_ast::{Place, Symbol, Symbols, units_of};
use fx_lists::{List, Text};
use std::alloc::{AllocError as Memory, Global};
use std::collections::BTreeMap;

/// Sizes by the names of blocks.
type Sizes = BTreeMap<Vec<u8>, u64>;

/// A block has at least so many units.
fn grow(sizes: &mut Sizes, alloc: Global, name: &Text, size: u64) -> Result<(), Memory>
    ensures { IfOk result (λ _. sized sizes.new ≡ block_grown name.now size (sized sizes.old)) }
{
    let key = Vec::from_slice(alloc, name.as_slice())?;
    let known = sizes.get(name.as_slice()).copied().unwrap_or(0);
    sizes.insert(key, known.max(size))?;
    Ok(())
}

/// How far a variable reaches that begins at an offset.
fn end_of(table: &Symbols, symbol: &Symbol, offset: u64) -> Result<u64, Memory>
    ensures { IfOk result (λ n. n ≡ offset + units_in (map symbol_tree table.now) (symbol_tree symbol.now)) }
{
    match units_of(table, symbol) {
        None => Err(Memory),
        Some(units) => offset.checked_add(units).ok_or(Memory),
    }
}

/// A block reaches to the end of a variable that lies in it.
fn add_symbol(
    sizes: &mut Sizes,
    alloc: Global,
    table: &Symbols,
    symbol: &Symbol,
) -> Result<(), Memory>
    ensures { IfOk result (λ _. sized sizes.new ≡ place_grown symbol.now.place (units_in (map symbol_tree table.now) (symbol_tree symbol.now)) (sized sizes.old)) }
{
    match &symbol.place {
        Place::Block(name, offset) => grow(sizes, alloc, name, end_of(table, symbol, *offset)?),
        Place::Local(..) | Place::Dummy(_) | Place::Constant(_) => Ok(()),
    }
}

fn add_table(sizes: &mut Sizes, alloc: Global, table: &Symbols) -> Result<(), Memory>
    ensures { IfOk result (λ _. sized sizes.new ≡ symbols_grown (map symbol_tree table.now) (map symbol_tree table.now) (sized sizes.old)) }
{
    let mut rest = table.as_slice();
    while let [symbol, more @ ..] = rest {
        add_symbol(sizes, alloc, table, symbol)?;
        rest = more;
    }
    Ok(())
}

fn sizes_of(alloc: Global, tables: &List<Symbols>) -> Result<Sizes, Memory>
    ensures { IfOk result (λ sizes. sized sizes ≡ blocks_of (map (map symbol_tree) tables.now)) }
{
    let mut sizes = BTreeMap::new(alloc);
    let mut rest = tables.as_slice();
    while let [table, more @ ..] = rest {
        add_table(&mut sizes, alloc, table)?;
        rest = more;
    }
    Ok(sizes)
}

/// The blocks of these entries.
fn block_list(alloc: Global, entries: &[(Vec<u8>, u64)]) -> Result<List<Block>, Memory>
    ensures { IfOk result (λ blocks. blocks ≡ map entry_block entries.now) }
{
    let mut blocks = List::new(alloc);
    let mut rest = entries;
    while let [(name, size), more @ ..] = rest {
        blocks.push(Block {
            name: Text::from_bytes(alloc, name.as_slice())?,
            size: *size,
        })?;
        rest = more;
    }
    Ok(blocks)
}

/// The blocks in the order of their names, byte by byte, each with the largest size that a module gives it, in units. Err also
/// where a block has 2^64 units or more.
pub fn blocks_of(alloc: Global, tables: &List<Symbols>) -> Result<List<Block>, Memory>
    ensures { IfOk result (λ blocks. blocks ≡ blocks_of (map (map symbol_tree) tables.now)) }
{
    let sizes = sizes_of(alloc, tables)?;
    let entries: Vec<(Vec<u8>, u64)> = sizes.into_iter().collect(alloc)?;
    block_list(alloc, entries.as_slice())
}
