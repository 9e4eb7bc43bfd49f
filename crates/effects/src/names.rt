//! The variables that names and expressions name.
ghost use Rattle.std.specs.Prelude.{◌≡◌, map, IfOk, option_copied, option_map};
ghost use Rattle.f77_ast.specs.Plain.{expr_tree};
ghost use Rattle.f77_ast.specs.Symbols.{symbol_tree};
ghost use Rattle.call_graph.specs.Actuals.{is_array};
ghost use Rattle.effects.specs.Names.{symbol_of, variable_number, number_of, own, one, array, variable_named};

use f77_ast::{Expr, Place, Symbol, Symbols, Variable};
use fx_lists::{List, Text};
use std::alloc::{AllocError as Memory, Global};
use tracked_cells::has_bounds;

/// The symbol of a name.
fn symbol_of<'a>(symbols: &'a Symbols, name: &Text) -> Option<&'a Symbol>
    ensures { option_map symbol_tree (option_copied result) ≡ symbol_of (map symbol_tree symbols.now) name.now }
{
    match symbols.number(name) {
        None => None,
        Some(number) => symbols.symbol(number),
    }
}

/// The number of a symbol that is no constant.
fn variable_number(number: u32, symbol: &Symbol) -> Option<u32>
    ensures { result ≡ variable_number number (symbol_tree symbol.now) }
{
    match symbol.place {
        Place::Constant(_) => None,
        Place::Local(..) | Place::Dummy(_) | Place::Block(..) => Some(number),
    }
}

/// The number of the variable of a name.
fn number_of(symbols: &Symbols, name: &Text) -> Option<u32>
    ensures { result ≡ number_of 1 (map symbol_tree symbols.now) name.now }
{
    match symbols.number(name) {
        None => None,
        Some(number) => match symbols.symbol(number) {
            None => None,
            Some(symbol) => variable_number(number, symbol),
        },
    }
}

/// A list of one variable, by the number of its symbol, from 1; empty for None.
pub fn one(alloc: Global, number: Option<u32>) -> Result<List<Variable>, Memory>
    ensures { IfOk result (λ vs. vs ≡ one number) }
{
    let mut variables = List::new(alloc);
    match number {
        None => Ok(variables),
        Some(number) => {
            variables.push(Variable::Own(number))?;
            Ok(variables)
        }
    }
}

/// The variable of a name in a list; empty where the name has no symbol or is a PARAMETER.
pub fn own(alloc: Global, symbols: &Symbols, name: &Text) -> Result<List<Variable>, Memory>
    ensures { IfOk result (λ vs. vs ≡ own name.now (map symbol_tree symbols.now)) }
{
    one(alloc, number_of(symbols, name))
}

fn is_array(symbols: &Symbols, name: &Text) -> bool
    ensures { result ≡ is_array (symbol_of (map symbol_tree symbols.now) name.now) }
{
    match symbol_of(symbols, name) {
        None => false,
        Some(symbol) => has_bounds(symbol),
    }
}

/// The variable of a name in a list, where it is an array; empty where it is none, as for an intrinsic function.
pub fn array(alloc: Global, symbols: &Symbols, name: &Text) -> Result<List<Variable>, Memory>
    ensures { IfOk result (λ vs. vs ≡ array name.now (map symbol_tree symbols.now)) }
{
    if is_array(symbols, name) {
        own(alloc, symbols, name)
    } else {
        Ok(List::new(alloc))
    }
}

/// The variable that an expression names, in a list: that of a name, or the array of an element. Empty for a PARAMETER, an
/// intrinsic function and any other expression.
#[tactic(auto, using(f77_ast::proofs::Plainly::expr_cases))]
pub fn variable_named(alloc: Global, symbols: &Symbols, e: &Expr) -> Result<List<Variable>, Memory>
    ensures { IfOk result (λ vs. vs ≡ variable_named (expr_tree e.now) (map symbol_tree symbols.now)) }
{
    match e {
        Expr::Name(name) => own(alloc, symbols, name),
        Expr::Element(name, _) => array(alloc, symbols, name),
        Expr::Int(_)
        | Expr::Log(_)
        | Expr::Paren(_)
        | Expr::Unary(..)
        | Expr::Binary(..)
        | Expr::Chars(_) => Ok(List::new(alloc)),
    }
}
