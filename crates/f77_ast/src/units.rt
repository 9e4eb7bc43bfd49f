//! How many storage units a variable takes (ANSI X3.9-1978 §17.1.1).
ghost use Rattle.std.specs.Prelude.{◌≡◌, ◌-◌, ◌^◌, map, min, nat_lt, pos, ◌+ℤ◌, ◌-ℤ◌};
ghost use Rattle.f77_ast.specs.Places.{as_count};
ghost use Rattle.f77_ast.specs.Symbols.{bound_tree, symbol_tree, value_in};
ghost use Rattle.f77_ast.specs.Units.{bound_units, bounds_units, in_64_bits, span_units, units_in};

use crate::{Bound, Constant, ConstantValue, Symbol, Symbols, const_value_of};

/// The numbers from one to another, none where they descend.
fn count_between(low: i32, high: i32) -> u64
    ensures { result ≡ as_count ((high -ℤ low) +ℤ pos 1) }
{
    let units = i64::from(high) - i64::from(low) + 1;
    if units < 0 { 0 } else { units.unsigned_abs() }
}

/// The numbers from the lower bound to the upper one; none where one of them is no number.
fn span_units(low: ConstantValue, high: ConstantValue) -> u64
    ensures { result ≡ span_units low high }
{
    match (low, high) {
        (ConstantValue::Is(Constant::Int(low)), ConstantValue::Is(Constant::Int(high))) =>
            count_between(low, high),
        _ => 0,
    }
}

fn bound_units(symbols: &Symbols, bound: &Bound) -> u64
    ensures { result ≡ bound_units (value_in (map symbol_tree symbols.now)) (bound_tree bound.now) }
{
    match &bound.high {
        None => 0,
        Some(high) => span_units(
            const_value_of(&bound.low, symbols),
            const_value_of(high, symbols),
        ),
    }
}

/// The elements of an array, at most 2^128-1.
#[tactic(auto, using(crate::proofs::UnitsLaws::unit_steps))]
fn elements(symbols: &Symbols, bounds: &[Bound]) -> u128
    ensures { result ≡ min (bounds_units (value_in (map symbol_tree symbols.now)) (map bound_tree bounds.now)) (2 ^ 128 - 1) }
{
    let mut units = 1u128;
    for bound in bounds {
        units = units.saturating_mul(u128::from(bound_units(symbols, bound)));
    }
    units
}

/// How many units a variable takes, 0 where a bound is not constant. None from 2^64 on. Takes no memory.
pub fn units_of(symbols: &Symbols, symbol: &Symbol) -> Option<u64>
    ensures { result ≡ in_64_bits (units_in (map symbol_tree symbols.now) (symbol_tree symbol.now)) }
{
    let units = elements(symbols, symbol.bounds.as_slice());
    if units <= u128::from(u64::MAX) {
        Some(units as u64)
    } else {
        None
    }
}

/// Whether a variable takes more than `count` units, where one with a bound that is not constant takes none. Takes no memory.
pub fn has_more(symbols: &Symbols, symbol: &Symbol, count: u64) -> bool
    ensures { result ≡ nat_lt count (units_in (map symbol_tree symbols.now) (symbol_tree symbol.now)) }
{
    u128::from(count) < elements(symbols, symbol.bounds.as_slice())
}
