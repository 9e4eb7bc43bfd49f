//! Which symbols of a module are tracked cells.
ghost use Rattle.std.specs.Prelude.{◌≡◌, map, IfOk};
ghost use Rattle.std.specs.List.{list_any};
ghost use Rattle.f77_ast.specs.PlainDecl.{module_tree};
ghost use Rattle.f77_ast.specs.Symbols.{symbol_tree};
ghost use Rattle.tracked_cells.specs.Tracked.{is_unit, is_alone, is_tracked, tracked_of};

use crate::equivalences::equivalenced_names;
use crate::names::Names;
use crate::standing::{is_plain, untracks};
use f77_ast::{Module, Place, Symbol, Symbols, Unit};
use fx_lists::{List, Text};
use std::alloc::{AllocError as Memory, Global};

/// Whether the unit of a block at an offset from its first unit, from 0, is among these.
pub fn is_untracked(untracked: &List<Unit>, block: &Text, offset: u64) -> bool
    ensures { result ≡ list_any (is_unit block.now offset) untracked.now }
{
    let mut rest = untracked.as_slice();
    while let [unit, more @ ..] = rest {
        if *block == unit.block && offset == unit.offset {
            return true;
        }
        rest = more;
    }
    false
}

/// Whether nothing else has the unit at which a place begins.
fn is_alone(names: &Names, table: &Symbols, untracked: &List<Unit>, place: &Place) -> bool
    ensures { result ≡ is_alone names.now (map symbol_tree table.now) untracked.now place.now }
{
    match place {
        Place::Local(..) => !untracks(names, table, place),
        Place::Dummy(_) => true,
        Place::Block(block, offset) => !is_untracked(untracked, block, *offset),
        Place::Constant(_) => false,
    }
}

fn is_tracked(names: &Names, table: &Symbols, untracked: &List<Unit>, symbol: &Symbol) -> bool
    ensures { result ≡ is_tracked names.now (map symbol_tree table.now) untracked.now (symbol_tree symbol.now) }
{
    is_plain(names, symbol) && is_alone(names, table, untracked, &symbol.place)
}

fn all_tracked(
    alloc: Global,
    names: &Names,
    symbols: &Symbols,
    untracked: &List<Unit>,
) -> Result<List<bool>, Memory>
    ensures { IfOk result (λ cells. cells ≡ map (is_tracked names.now (map symbol_tree symbols.now) untracked.now) (map symbol_tree symbols.now)) }
{
    let mut cells = List::new(alloc);
    let mut rest = symbols.as_slice();
    while let [symbol, more @ ..] = rest {
        cells.push(is_tracked(names, symbols, untracked, symbol))?;
        rest = more;
    }
    Ok(cells)
}

/// For each symbol of a module, in their order, whether it is a tracked cell: an INTEGER scalar that is in no EQUIVALENCE and
/// no PARAMETER, and that is a dummy, or the only local at its unit, or in a block at none of the untracked units of the
/// program. Takes time of the number of symbols times that of symbols and untracked units.
pub fn tracked_flags(
    alloc: Global,
    module: &Module,
    symbols: &Symbols,
    untracked: &List<Unit>,
) -> Result<List<bool>, Memory>
    ensures { IfOk result (λ cells. cells ≡ tracked_of (module_tree «module».now) (map symbol_tree symbols.now) untracked.now) }
{
    let names = equivalenced_names(alloc, module)?;
    all_tracked(alloc, &names, symbols, untracked)
}
