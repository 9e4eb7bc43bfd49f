//! The variables that have a unit.
ghost use Rattle.std.specs.Prelude.{◌≡◌, map};
ghost use Rattle.std.specs.List.{list_any};
ghost use Rattle.f77_ast.specs.Symbols.{symbol_tree};
ghost use Rattle.f77_ast.specs.Units.{units_in};
ghost use Rattle.tracked_cells.specs.Standing.{has_bounds, is_int_scalar, is_plain, reaches, stands_at, untracks_at, two_at, untracks};

use crate::names::Names;
use f77_ast::{Place, Scalar, Symbol, Symbols, has_more};

/// Whether a symbol is an array.
pub fn has_bounds(symbol: &Symbol) -> bool
    ensures { result ≡ has_bounds (symbol_tree symbol.now).bounds }
{
    match symbol.bounds.as_slice() {
        [] => false,
        [_, ..] => true,
    }
}

/// Whether a symbol is of type INTEGER and no array; a PARAMETER may be one.
pub fn is_int_scalar(symbol: &Symbol) -> bool
    ensures { result ≡ is_int_scalar (symbol_tree symbol.now) }
{
    match symbol.scalar {
        Scalar::Int => !has_bounds(symbol),
        Scalar::Log => false,
    }
}

/// Whether a symbol is an INTEGER scalar whose name is none of these, which are the names in EQUIVALENCE statements.
pub fn is_plain(names: &Names, symbol: &Symbol) -> bool
    ensures { result ≡ is_plain names.now (symbol_tree symbol.now) }
{
    is_int_scalar(symbol) && names.place(&symbol.name).is_none()
}

/// Whether a variable that begins at this offset has this unit, both counted from the first unit of its block or storage group.
/// Takes no memory.
#[tactic(auto, using(crate::proofs::ReachLaws::reach_tests))]
pub fn reaches(table: &Symbols, symbol: &Symbol, offset: u64, unit: u64) -> bool
    ensures { result ≡ reaches offset (units_in (map symbol_tree table.now) (symbol_tree symbol.now)) unit }
{
    offset <= unit && has_more(table, symbol, unit - offset)
}

/// Whether a symbol has the unit at which a place begins.
fn stands_at(table: &Symbols, at: &Place, symbol: &Symbol) -> bool
    ensures { result ≡ stands_at (map symbol_tree table.now) at.now (symbol_tree symbol.now) }
{
    match (&symbol.place, at) {
        (Place::Local(m, offset), Place::Local(n, unit)) => {
            m == n && reaches(table, symbol, *offset, *unit)
        }
        (Place::Block(x, offset), Place::Block(y, unit)) => {
            x == y && reaches(table, symbol, *offset, *unit)
        }
        _ => false,
    }
}

fn untracks_at(names: &Names, table: &Symbols, at: &Place, symbol: &Symbol) -> bool
    ensures { result ≡ untracks_at names.now (map symbol_tree table.now) at.now (symbol_tree symbol.now) }
{
    stands_at(table, at, symbol) && !is_plain(names, symbol)
}

fn some_other(names: &Names, table: &Symbols, at: &Place) -> bool
    ensures { result ≡ list_any (untracks_at names.now (map symbol_tree table.now) at.now) (map symbol_tree table.now) }
{
    let mut rest = table.as_slice();
    while let [symbol, more @ ..] = rest {
        if untracks_at(names, table, at, symbol) {
            return true;
        }
        rest = more;
    }
    false
}

fn some_at(table: &Symbols, at: &Place, symbols: &[Symbol]) -> bool
    ensures { result ≡ list_any (stands_at (map symbol_tree table.now) at.now) (map symbol_tree symbols.now) }
{
    let mut rest = symbols;
    while let [symbol, more @ ..] = rest {
        if stands_at(table, at, symbol) {
            return true;
        }
        rest = more;
    }
    false
}

fn two_at(table: &Symbols, at: &Place) -> bool
    ensures { result ≡ two_at (map symbol_tree table.now) at.now (map symbol_tree table.now) }
{
    let mut rest = table.as_slice();
    while let [symbol, more @ ..] = rest {
        if stands_at(table, at, symbol) {
            return some_at(table, at, more);
        }
        rest = more;
    }
    false
}

/// Whether a module has, at the first unit of a place, two variables, or one that is no INTEGER scalar or is one of these
/// names, which are those in its EQUIVALENCE statements. Linear in the number of its symbols.
pub fn untracks(names: &Names, table: &Symbols, at: &Place) -> bool
    ensures { result ≡ untracks names.now (map symbol_tree table.now) at.now }
{
    some_other(names, table, at) || two_at(table, at)
}
