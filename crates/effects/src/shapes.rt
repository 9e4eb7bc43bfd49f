//! Which variables of a block are the same in two modules.
ghost use Rattle.std.specs.Prelude.{◌≡◌, ◌+◌, map, IfOk};
ghost use Rattle.f77_ast.specs.PlainStmt.{maybe_tree};
ghost use Rattle.f77_ast.specs.Symbols.{symbol_tree, bound_tree, value_in};
ghost use Rattle.effects.specs.Callee.{same_scalar, same_number, same_high, same_bound, same_bounds, is_at, is_like, first_like};

use f77_ast::{
    Bound, Constant, ConstantValue, Expr, Place, Scalar, Symbol, Symbols, const_value_of,
};
use fx_lists::Text;
use std::alloc::AllocError as Memory;

fn same_scalar(a: Scalar, b: Scalar) -> bool
    ensures { result ≡ same_scalar a b }
{
    match (a, b) {
        (Scalar::Int, Scalar::Int) | (Scalar::Log, Scalar::Log) => true,
        (Scalar::Int, Scalar::Log) | (Scalar::Log, Scalar::Int) => false,
    }
}

fn same_number(a: ConstantValue, b: ConstantValue) -> bool
    ensures { result ≡ same_number a b }
{
    match (a, b) {
        (ConstantValue::Is(Constant::Int(m)), ConstantValue::Is(Constant::Int(n))) => m == n,
        _ => false,
    }
}

fn same_high(own: &Symbols, a: &Option<Expr>, others: &Symbols, b: &Option<Expr>) -> bool
    ensures { result ≡ same_high (value_in (map symbol_tree own.now)) (maybe_tree a.now) (value_in (map symbol_tree others.now)) (maybe_tree b.now) }
{
    match (a, b) {
        (Some(a), Some(b)) => same_number(const_value_of(a, own), const_value_of(b, others)),
        _ => false,
    }
}

fn same_bound(own: &Symbols, a: &Bound, others: &Symbols, b: &Bound) -> bool
    ensures { result ≡ same_bound (value_in (map symbol_tree own.now)) (bound_tree a.now) (value_in (map symbol_tree others.now)) (bound_tree b.now) }
{
    same_number(const_value_of(&a.low, own), const_value_of(&b.low, others))
        && same_high(own, &a.high, others, &b.high)
}

fn same_bounds(own: &Symbols, a: &[Bound], others: &Symbols, b: &[Bound]) -> bool
    ensures { result ≡ same_bounds (value_in (map symbol_tree own.now)) (map bound_tree a.now) (value_in (map symbol_tree others.now)) (map bound_tree b.now) }
{
    let mut left = a;
    let mut right = b;
    while let [a, more @ ..] = left {
        match right {
            [] => return false,
            [b, later @ ..] => {
                if !same_bound(own, a, others, b) {
                    return false;
                }
                right = later;
            }
        }
        left = more;
    }
    right.is_empty()
}

fn is_at(block: &Text, offset: u64, place: &Place) -> bool
    ensures { result ≡ is_at block.now offset place.now }
{
    match place {
        Place::Block(other, place) => block == other && offset == *place,
        Place::Local(..) | Place::Dummy(_) | Place::Constant(_) => false,
    }
}

fn is_like(
    symbols: &Symbols,
    block: &Text,
    offset: u64,
    callee: &Symbols,
    symbol: &Symbol,
    other: &Symbol,
) -> bool
    ensures { result ≡ is_like block.now offset (map symbol_tree callee.now) (symbol_tree symbol.now) (map symbol_tree symbols.now) (symbol_tree other.now) }
{
    is_at(block, offset, &other.place)
        && same_scalar(symbol.scalar, other.scalar)
        && same_bounds(
            callee,
            symbol.bounds.as_slice(),
            symbols,
            other.bounds.as_slice(),
        )
}

/// The number, from 1, of the first symbol of the caller that begins at an offset of a block, with the type, the rank and the
/// constant bounds of a symbol of the callee; None where there is none. Takes time of the number of the symbols of the caller;
/// Err also past 2^32 - 2 of them.
pub fn first_like(
    symbols: &Symbols,
    block: &Text,
    offset: u64,
    callee: &Symbols,
    symbol: &Symbol,
) -> Result<Option<u32>, Memory>
    ensures { IfOk result (λ found. found ≡ first_like 1 (map symbol_tree symbols.now) block.now offset (map symbol_tree callee.now) (symbol_tree symbol.now) (map symbol_tree symbols.now)) }
{
    let mut number = 1u32;
    let mut rest = symbols.as_slice();
    while let [other, more @ ..] = rest {
        if is_like(symbols, block, offset, callee, symbol, other) {
            return Ok(Some(number));
        }
        number = next_number(number)?;
        rest = more;
    }
    Ok(None)
}

fn next_number(number: u32) -> Result<u32, Memory>
    ensures { IfOk result (λ next. next ≡ number + 1) }
{
    number.checked_add(1).ok_or(Memory)
}
