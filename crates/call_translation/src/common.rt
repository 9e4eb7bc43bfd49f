//! What a module has at a unit of a block.
ghost use Rattle.std.specs.Prelude.{◌≡◌, ◌&&◌, map, IfOk};
ghost use Rattle.f77_ast.specs.Symbols.{symbol_tree};
ghost use Rattle.tracked_cells.specs.Standing.{stands_at};
ghost use Rattle.f77_ast.specs.declared.symbol.Place.TheVariants.{Block};
ghost use Rattle.call_translation.specs.Scopes.{scope_tree};
ghost use Rattle.call_translation.specs.Common.{is_unit as is_unit_is, tracked_at as tracked_at_is, declares as declares_is};

use crate::{CellScope, next_number};
use f77_ast::{Place, Symbol, Symbols, Unit};
use fx_lists::Text;
use std::alloc::AllocError as Memory;
use tracked_cells::reaches;

/// A copy of a storage unit of a common block.
pub fn copy_unit(unit: &Unit) -> Result<Unit, Memory>
    ensures { IfOk result (λ u. u ≡ unit.now) }
{
    Ok(Unit {
        block: unit.block.clone()?,
        offset: unit.offset,
    })
}

/// Whether a place begins at a unit of a block.
fn is_unit(block: &Text, offset: u64, place: &Place) -> bool
    ensures { result ≡ is_unit_is block.now offset place.now }
{
    match place {
        Place::Block(other, unit) => *block == *other && offset == *unit,
        Place::Local(..) | Place::Dummy(_) | Place::Constant(_) => false,
    }
}

/// Whether a symbol is a tracked cell and begins at a unit.
fn begins_at(flag: bool, block: &Text, offset: u64, place: &Place) -> bool
    ensures { result ≡ (flag && is_unit_is block.now offset place.now) }
{
    flag && is_unit(block, offset, place)
}

/// The number, from 1, of the first analysed scalar that begins at a storage unit of a common block; None where there is none. `offset`
/// counts units from the first of the block, from 0. Linear in the symbols. Err also where none of the first 2^32 - 1 symbols is it.
pub fn tracked_at(scope: &CellScope<'_>, block: &Text, offset: u64) -> Result<Option<u32>, Memory>
    ensures { IfOk result (λ found. found ≡ tracked_at_is (scope_tree scope.now.symbols.now scope.now.tracked.now) block.now offset) }
{
    let mut number = 1u32;
    let mut rest = scope.symbols.as_slice();
    let mut flags = scope.tracked.as_slice();
    while let [symbol, more @ ..] = rest {
        match flags {
            [] => return Ok(None),
            [flag, later @ ..] => {
                if begins_at(*flag, block, offset, &symbol.place) {
                    return Ok(Some(number));
                }
                flags = later;
            }
        }
        number = next_number(number)?;
        rest = more;
    }
    Ok(None)
}

/// Whether a variable has a unit of a block among its units.
fn stands_at(symbols: &Symbols, block: &Text, offset: u64, symbol: &Symbol) -> bool
    ensures { result ≡ stands_at (map symbol_tree symbols.now) (Block block.now offset) (symbol_tree symbol.now) }
{
    match &symbol.place {
        Place::Block(other, first) => {
            *other == *block && reaches(symbols, symbol, *first, offset)
        }
        Place::Local(..) | Place::Dummy(_) | Place::Constant(_) => false,
    }
}

/// Whether some variable of a module, a scalar or an array, has a storage unit of a common block among its units. `offset` counts units from
/// the first of the block, from 0. Looks at each symbol.
pub fn declares(scope: &CellScope<'_>, block: &Text, offset: u64) -> bool
    ensures { result ≡ declares_is (scope_tree scope.now.symbols.now scope.now.tracked.now) block.now offset }
{
    let mut rest = scope.symbols.as_slice();
    while let [symbol, more @ ..] = rest {
        if stands_at(scope.symbols, block, offset, symbol) {
            return true;
        }
        rest = more;
    }
    false
}
