//! Equality of tables of symbols.
ghost use Rattle.std.specs.Prelude.{◌≡◌, ◌↔◌, IsTrue, map, nat_eq};
ghost use Rattle.std.specs.Cmp.Lexicographic.{pointwise};
ghost use Rattle.f77_ast.specs.PlainStmt.{maybe_tree};
ghost use Rattle.f77_ast.specs.Symbols.{bound_tree, symbol_tree};
ghost use Rattle.same_values.specs.SymbolTests.{maybe_test, bound_test, scalar_number, place_test, run_test, symbol_test};

use crate::exprs::{expr_test, same_bool};
use f77_ast::{Bound, Expr, InitialRun, Place, Scalar, Symbol, Symbols};
use fx_lists::List;

fn maybe_test(a: &Option<Expr>, b: &Option<Expr>) -> bool
    ensures { result ≡ maybe_test (maybe_tree a.now) (maybe_tree b.now) }
{
    match a {
        None => match b {
            None => true,
            Some(_) => false,
        },
        Some(one) => match b {
            None => false,
            Some(other) => expr_test(one, other),
        },
    }
}

fn same_bound(a: &Bound, b: &Bound) -> bool
    ensures { result ≡ bound_test (bound_tree a.now) (bound_tree b.now) }
{
    expr_test(&a.low, &b.low) && maybe_test(&a.high, &b.high)
}

#[tactic(auto, using(crate::proofs::SymbolLaws::bounds_end))]
fn same_bounds(a: &List<Bound>, b: &List<Bound>) -> bool
    ensures { result ≡ pointwise bound_test (map bound_tree a.now) (map bound_tree b.now) }
{
    let mut left = a.as_slice();
    let mut right = b.as_slice();
    while let [one, more @ ..] = left {
        let [other, others @ ..] = right else {
            return false;
        };
        if !same_bound(one, other) {
            return false;
        }
        left = more;
        right = others;
    }
    right.is_empty()
}

fn scalar_number(scalar: Scalar) -> u8
    ensures { result ≡ scalar_number scalar }
{
    match scalar {
        Scalar::Int => 0,
        Scalar::Log => 1,
    }
}

fn same_scalar(a: Scalar, b: Scalar) -> bool
    ensures { result ≡ nat_eq (scalar_number a) (scalar_number b) }
{
    scalar_number(a) == scalar_number(b)
}

fn same_place(a: &Place, b: &Place) -> bool
    ensures { result ≡ place_test a.now b.now }
{
    match a {
        Place::Local(group, offset) => match b {
            Place::Local(other, at) => group == other && offset == at,
            Place::Dummy(_) | Place::Block(..) | Place::Constant(_) => false,
        },
        Place::Dummy(number) => match b {
            Place::Dummy(other) => number == other,
            Place::Local(..) | Place::Block(..) | Place::Constant(_) => false,
        },
        Place::Block(name, offset) => match b {
            Place::Block(other, at) => name == other && offset == at,
            Place::Local(..) | Place::Dummy(_) | Place::Constant(_) => false,
        },
        Place::Constant(value) => match b {
            Place::Constant(other) => value == other,
            Place::Local(..) | Place::Dummy(_) | Place::Block(..) => false,
        },
    }
}

fn same_runs(a: &List<InitialRun>, b: &List<InitialRun>) -> bool
    ensures { result ≡ pointwise run_test a.now b.now }
{
    a == b
}

fn same_symbol(a: &Symbol, b: &Symbol) -> bool
    ensures { result ≡ symbol_test (symbol_tree a.now) (symbol_tree b.now) }
{
    a.name == b.name
        && same_scalar(a.scalar, b.scalar)
        && same_bounds(&a.bounds, &b.bounds)
        && same_place(&a.place, &b.place)
        && same_bool(a.saved, b.saved)
        && same_runs(&a.initial, &b.initial)
}

#[tactic(auto, using(crate::proofs::SymbolLaws::symbols_end))]
fn symbols_test(a: &[Symbol], b: &[Symbol]) -> bool
    ensures { result ≡ pointwise symbol_test (map symbol_tree a.now) (map symbol_tree b.now) }
{
    let mut left = a;
    let mut right = b;
    while let [one, more @ ..] = left {
        let [other, others @ ..] = right else {
            return false;
        };
        if !same_symbol(one, other) {
            return false;
        }
        left = more;
        right = others;
    }
    right.is_empty()
}

/// Whether two tables have the same symbols in the same order. Takes no memory.
pub fn same_symbols(a: &Symbols, b: &Symbols) -> bool
    ensures { IsTrue result ↔ (map symbol_tree a.now ≡ map symbol_tree b.now) }
{
    symbols_test(a.as_slice(), b.as_slice())
}
