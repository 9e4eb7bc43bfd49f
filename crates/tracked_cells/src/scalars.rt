//! The units of blocks that hold an INTEGER scalar, in order.
ghost use Rattle.std.specs.Prelude.{◌≡◌, [], map, IfOk};
ghost use Rattle.f77_ast.specs.Symbols.{symbol_tree};
ghost use Rattle.tracked_cells.specs.Scalars.{unit, unit_put, place_unit, with_scalar, with_scalars, all_scalars, keyed};

use crate::standing::is_int_scalar;
use f77_ast::{Place, Symbol, Symbols};
use fx_lists::{List, Text};
use std::alloc::{AllocError as Memory, Global};
use std::collections::BTreeSet;

/// A unit of a block: the name of the block, and the offset of the unit, from 0. Keys are in the order of the names, byte by
/// byte, then of the offsets.
pub type UnitKey = (Vec<u8>, u64);

/// A set of units, in the order of their keys.
pub type UnitKeys = BTreeSet<UnitKey>;

fn put(units: &mut UnitKeys, alloc: Global, block: &Text, offset: u64) -> Result<(), Memory>
    ensures { IfOk result (λ _. keyed units.new.keys ≡ unit_put (unit block.now offset) (keyed units.old.keys)) }
{
    let key = Vec::from_slice(alloc, block.as_slice())?;
    units.insert((key, offset))?;
    Ok(())
}

fn add_place(units: &mut UnitKeys, alloc: Global, place: &Place) -> Result<(), Memory>
    ensures { IfOk result (λ _. keyed units.new.keys ≡ place_unit place.now (keyed units.old.keys)) }
{
    match place {
        Place::Block(block, offset) => put(units, alloc, block, *offset),
        Place::Local(..) | Place::Dummy(_) | Place::Constant(_) => Ok(()),
    }
}

fn add_symbol(units: &mut UnitKeys, alloc: Global, symbol: &Symbol) -> Result<(), Memory>
    ensures { IfOk result (λ _. keyed units.new.keys ≡ with_scalar (symbol_tree symbol.now) (keyed units.old.keys)) }
{
    if is_int_scalar(symbol) {
        add_place(units, alloc, &symbol.place)
    } else {
        Ok(())
    }
}

fn add_table(units: &mut UnitKeys, alloc: Global, table: &Symbols) -> Result<(), Memory>
    ensures { IfOk result (λ _. keyed units.new.keys ≡ with_scalars (map symbol_tree table.now) (keyed units.old.keys)) }
{
    let mut rest = table.as_slice();
    while let [symbol, more @ ..] = rest {
        add_symbol(units, alloc, symbol)?;
        rest = more;
    }
    Ok(())
}

/// The units of blocks at which some module has an INTEGER scalar, each once, in the order of their keys.
pub fn all_scalars(alloc: Global, tables: &List<Symbols>) -> Result<UnitKeys, Memory>
    ensures { IfOk result (λ units. keyed units.keys ≡ all_scalars (map (map symbol_tree) tables.now) []) }
{
    let mut units = BTreeSet::new(alloc);
    let mut rest = tables.as_slice();
    while let [table, more @ ..] = rest {
        add_table(&mut units, alloc, table)?;
        rest = more;
    }
    Ok(units)
}

/// The units of a set as a list, in the same order.
pub fn unit_list(alloc: Global, units: UnitKeys) -> Result<Vec<UnitKey>, Memory>
    ensures { IfOk result (λ keys. keys.items ≡ units.keys) }
{
    units.into_iter().collect(alloc)
}
