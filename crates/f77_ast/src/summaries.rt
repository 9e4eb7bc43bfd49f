//! The summaries of the modules that a module calls.
ghost use Rattle.std.specs.Prelude.{◌≡◌, ℕ, List, None, Some, map, IfOk, OnErr, if◌then◌else◌, bytes_eq, option_copied, option_map};
ghost use Rattle.std.specs.HashMap.{IsUnchanged};
ghost use Rattle.f77_ast.specs.Symbols.{symbol_tree, bound_tree};
ghost use Rattle.f77_ast.specs.PlainStmt.{maybe_tree};
ghost use Rattle.f77_ast.specs.Summaries.{SummaryTree, summary_tree, summary_in};

use crate::{Bound, Expr, InitialRun, Place, Symbol, Symbols, copy_expr};
use fx_lists::{List, Text};
use std::alloc::{AllocError as Memory, Global};
use std::collections::HashMap;

/// The symbols of a module, and what an analysis says of the module to its callers.
#[derive(Drop)]
pub struct Summary<T> {
    pub symbols: Symbols,
    pub value: T,
}

/// The summaries of modules by their names. A name is looked up in constant time.
#[derive(Drop)]
pub struct Summaries<T> {
    alloc: Global,
    by_name: HashMap<Vec<u8>, Summary<T>>,
}

fn copy_high(alloc: Global, high: &Option<Expr>) -> Result<Option<Expr>, Memory>
    ensures { IfOk result (λ copy. maybe_tree copy ≡ maybe_tree high.now) }
{
    match high {
        None => Ok(None),
        Some(high) => Ok(Some(copy_expr(alloc, high)?)),
    }
}

fn copy_bounds(alloc: Global, bounds: &List<Bound>) -> Result<List<Bound>, Memory>
    ensures { IfOk result (λ copies. map bound_tree copies ≡ map bound_tree bounds.now) }
{
    let mut copies = List::new(alloc);
    for bound in bounds.as_slice() {
        let low = copy_expr(alloc, &bound.low)?;
        let high = copy_high(alloc, &bound.high)?;
        copies.push(Bound { low, high })?;
    }
    Ok(copies)
}

fn copy_place(place: &Place) -> Result<Place, Memory>
    ensures { IfOk result (λ copy. copy ≡ place.now) }
{
    match place {
        Place::Local(group, offset) => Ok(Place::Local(*group, *offset)),
        Place::Dummy(number) => Ok(Place::Dummy(*number)),
        Place::Block(block, offset) => Ok(Place::Block(block.clone()?, *offset)),
        Place::Constant(value) => Ok(Place::Constant(*value)),
    }
}

fn copy_symbol(alloc: Global, symbol: &Symbol) -> Result<Symbol, Memory>
    ensures { IfOk result (λ copy. symbol_tree copy ≡ symbol_tree symbol.now) }
{
    let name = symbol.name.clone()?;
    let bounds = copy_bounds(alloc, &symbol.bounds)?;
    let place = copy_place(&symbol.place)?;
    let initial: List<InitialRun> = List::from_slice(alloc, symbol.initial.as_slice())?;
    Ok(Symbol {
        name,
        scalar: symbol.scalar,
        bounds,
        place,
        saved: symbol.saved,
        initial,
    })
}

/// A copy of a table of symbols, with the same numbers.
pub fn copy_symbols(alloc: Global, symbols: &Symbols) -> Result<Symbols, Memory>
    ensures { IfOk result (λ copies. map symbol_tree copies ≡ map symbol_tree symbols.now) }
{
    let mut copies = Symbols::new(alloc);
    for symbol in symbols.as_slice() {
        copies.push(alloc, copy_symbol(alloc, symbol)?)?;
    }
    Ok(copies)
}

impl<T: Drop> Summaries<T> {
    /// No summaries. Takes no memory.
    pub fn new(alloc: Global) -> Summaries<T>
        ensures { (x : List ℕ) → summary_in result x ≡ None }
    {
        Summaries {
            alloc,
            by_name: HashMap::new(alloc),
        }
    }

    /// Adds the summary of a module, in place of one that it may have. The name and the symbols are copied. After an `Err` all is
    /// as it was.
    pub fn add(&mut self, name: &Text, symbols: &Symbols, value: T) -> Result<(), Memory>
        ensures ok { IfOk result (λ _. (x : List ℕ) → summary_in self.new x ≡ (if bytes_eq name.now x then Some (record { symbols = map symbol_tree symbols.now; value = value }) else summary_in self.old x)) }
        ensures err { OnErr result ((x : List ℕ) → summary_in self.new x ≡ summary_in self.old x) }
    {
        let key = Vec::from_slice(self.alloc, name.as_slice())?;
        let symbols = copy_symbols(self.alloc, symbols)?;
        match self.by_name.insert(key, Summary { symbols, value }) {
            Ok(_) => Ok(()),
            Err(_) => Err(Memory),
        }
    }

    /// The summary of the module of a name; None where none was added.
    pub fn get(&self, name: &Text) -> Option<&Summary<T>>
        ensures { option_map summary_tree (option_copied result) ≡ summary_in self.now name.now }
    {
        self.by_name.get(name.as_slice())
    }
}
