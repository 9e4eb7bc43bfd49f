//! Actual arguments: their types, and what they offer to a dummy (ANSI X3.9-1978 §15.9.3).
ghost use Rattle.std.specs.Prelude.{◌≡◌, map, IfOk};
ghost use Rattle.std.specs.Option.{option_copied, option_map};
ghost use Rattle.f77_ast.specs.Plain.{expr_tree, expr_trees};
ghost use Rattle.f77_ast.specs.Symbols.{symbol_tree};
ghost use Rattle.tracked_cells.specs.Standing.{has_bounds};
ghost use Rattle.call_graph.specs.Actuals.{symbol_with_name, type_of_symbol, is_array, element_type, binary_type, unary_type, type_of, name_offer, offer_of, actual_of, actuals_of, fits, is_scalar_of, suits, all_fit};

use f77_ast::{BinaryOp, Expr, Place, Scalar, Symbol, Symbols, UnaryOp};
use fx_lists::{List, Text};
use std::alloc::{AllocError as Memory, Global};
use tracked_cells::has_bounds;

/// What an actual argument offers to a dummy.
#[derive(Clone, Copy, PartialEq, Eq)]
pub enum Offer {
    /// A whole array.
    Array,
    /// An array element, with the elements that follow it.
    Element,
    /// A scalar variable.
    Variable,
    /// The value of any other expression, or of a PARAMETER.
    Value,
}

/// An actual argument: its type and what it offers.
#[derive(Clone, Copy, PartialEq, Eq)]
pub struct Actual {
    pub scalar: Scalar,
    pub offer: Offer,
}

/// The symbol of a name.
fn symbol_with_name<'a>(symbols: &'a Symbols, name: &Text) -> Option<&'a Symbol>
    ensures { option_map symbol_tree (option_copied result) ≡ symbol_with_name (map symbol_tree symbols.now) name.now }
{
    match symbols.number(name) {
        None => None,
        Some(number) => symbols.symbol(number),
    }
}

fn type_of_name(symbols: &Symbols, name: &Text) -> Scalar
    ensures { result ≡ type_of_symbol (symbol_with_name (map symbol_tree symbols.now) name.now) }
{
    match symbol_with_name(symbols, name) {
        None => Scalar::Int,
        Some(symbol) => symbol.scalar,
    }
}

fn is_array(symbols: &Symbols, name: &Text) -> bool
    ensures { result ≡ is_array (symbol_with_name (map symbol_tree symbols.now) name.now) }
{
    match symbol_with_name(symbols, name) {
        None => false,
        Some(symbol) => has_bounds(symbol),
    }
}

fn unary_type(op: UnaryOp) -> Scalar
    ensures { result ≡ unary_type op }
{
    match op {
        UnaryOp::Plus | UnaryOp::Minus => Scalar::Int,
        UnaryOp::Not => Scalar::Log,
    }
}

fn binary_type(op: BinaryOp) -> Scalar
    ensures { result ≡ binary_type op }
{
    match op {
        BinaryOp::Add | BinaryOp::Sub | BinaryOp::Mul | BinaryOp::Div | BinaryOp::Pow =>
            Scalar::Int,
        BinaryOp::Eq | BinaryOp::Ne | BinaryOp::Lt | BinaryOp::Le | BinaryOp::Gt | BinaryOp::Ge => {
            Scalar::Log
        }
        BinaryOp::And | BinaryOp::Or | BinaryOp::Eqv | BinaryOp::Neqv => Scalar::Log,
    }
}

/// The type of an array element, or of the value of an intrinsic function.
fn element_type(symbols: &Symbols, name: &Text) -> Scalar
    ensures { result ≡ element_type (symbol_with_name (map symbol_tree symbols.now) name.now) }
{
    if is_array(symbols, name) {
        type_of_name(symbols, name)
    } else {
        Scalar::Int
    }
}

/// The type of an expression.
#[tactic(auto, using(f77_ast::proofs::Plainly::expr_cases))]
fn type_of(symbols: &Symbols, e: &Expr) -> Scalar
    ensures { result ≡ type_of (expr_tree e.now) (map symbol_tree symbols.now) }
{
    match e {
        Expr::Int(_) | Expr::Chars(_) => Scalar::Int,
        Expr::Log(_) => Scalar::Log,
        Expr::Name(name) => type_of_name(symbols, name),
        Expr::Element(name, _) => element_type(symbols, name),
        Expr::Paren(e) => type_of(symbols, e),
        Expr::Unary(op, _) => unary_type(*op),
        Expr::Binary(op, _, _) => binary_type(*op),
    }
}

/// What a bare name offers.
fn name_offer(symbols: &Symbols, name: &Text) -> Offer
    ensures { result ≡ name_offer (symbol_with_name (map symbol_tree symbols.now) name.now) }
{
    match symbol_with_name(symbols, name) {
        None => Offer::Value,
        Some(symbol) => {
            if has_bounds(symbol) {
                return Offer::Array;
            }
            match symbol.place {
                Place::Constant(_) => Offer::Value,
                Place::Local(..) | Place::Dummy(_) | Place::Block(..) => Offer::Variable,
            }
        }
    }
}

#[tactic(auto, using(f77_ast::proofs::Plainly::expr_cases))]
fn offer_of(symbols: &Symbols, e: &Expr) -> Offer
    ensures { result ≡ offer_of (expr_tree e.now) (map symbol_tree symbols.now) }
{
    match e {
        Expr::Name(name) => name_offer(symbols, name),
        Expr::Element(name, _) => {
            if is_array(symbols, name) {
                Offer::Element
            } else {
                Offer::Value
            }
        }
        Expr::Int(_)
        | Expr::Log(_)
        | Expr::Paren(_)
        | Expr::Unary(..)
        | Expr::Binary(..)
        | Expr::Chars(_) => Offer::Value,
    }
}

fn actual_of(symbols: &Symbols, e: &Expr) -> Actual
    ensures { result ≡ actual_of (expr_tree e.now) (map symbol_tree symbols.now) }
{
    Actual {
        scalar: type_of(symbols, e),
        offer: offer_of(symbols, e),
    }
}

/// The types and offers of the actuals of a CALL, in their order. The symbols are those of the caller.
pub fn actuals_of(alloc: Global, symbols: &Symbols, es: &List<Expr>) -> Result<List<Actual>, Memory>
    ensures { IfOk result (λ xs. xs ≡ actuals_of (expr_trees es.now) (map symbol_tree symbols.now)) }
{
    let mut actuals = List::new(alloc);
    for e in es.as_slice() {
        actuals.push(actual_of(symbols, e))?;
    }
    Ok(actuals)
}

fn same_type(a: Scalar, b: Scalar) -> bool
    ensures { result ≡ is_scalar_of a b }
{
    match (a, b) {
        (Scalar::Int, Scalar::Int) | (Scalar::Log, Scalar::Log) => true,
        (Scalar::Int, Scalar::Log) | (Scalar::Log, Scalar::Int) => false,
    }
}

/// An array takes an array or an element, a scalar everything but a whole array.
fn suits(offer: Offer, array: bool) -> bool
    ensures { result ≡ suits offer array }
{
    match offer {
        Offer::Array => array,
        Offer::Element => true,
        Offer::Variable | Offer::Value => !array,
    }
}

/// Whether an actual may be associated with a dummy.
fn fits(actual: Actual, dummy: &Symbol) -> bool
    ensures { result ≡ fits actual (symbol_tree dummy.now) }
{
    same_type(actual.scalar, dummy.scalar) && suits(actual.offer, has_bounds(dummy))
}

/// Whether each actual fits the symbol at its place: they have one type, and a whole array or an element fits an array,
/// anything but a whole array a scalar. False where there are more actuals than symbols; symbols past the actuals are ignored.
pub fn all_fit(actuals: &[Actual], dummies: &[Symbol]) -> bool
    ensures { result ≡ all_fit actuals.now (map symbol_tree dummies.now) }
{
    let mut rest = actuals;
    let mut others = dummies;
    while let [actual, more @ ..] = rest {
        match others {
            [] => return false,
            [dummy, later @ ..] => {
                if !fits(*actual, dummy) {
                    return false;
                }
                others = later;
            }
        }
        rest = more;
    }
    true
}
