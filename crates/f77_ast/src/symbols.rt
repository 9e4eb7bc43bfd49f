//! The symbols of a module, by their numbers and by their names.
ghost use Rattle.std.specs.Prelude.{◌≡◌, ◌≤◌, ◌++◌, ◌∷◌, [], length, map, Some, OnOk, OnErr};
ghost use Rattle.std.specs.Option.{option_copied};
ghost use Rattle.f77_ast.specs.Symbols.{number_from, symbol_tree, constant_at};
ghost use Rattle.f77_ast.specs.Shared.{numbered, place_at};
ghost use Rattle.f77_ast.specs.Index.{names_of};

use crate::{Constant, Constants, NameIndex, Place, Scalar, Symbol};
use fx_lists::Text;
use std::alloc::{AllocError as Memory, Global};
use std::marker::Model;

/// Symbols in order of first appearance, dummies first, numbered from 1. A name is looked up in constant time.
#[derive(Drop)]
pub struct Symbols {
    list: Vec<Symbol>,
    index: NameIndex,
}

impl Model for Symbols {
    ghost use Rattle.std.specs.Prelude.{List};
    ghost use Rattle.f77_ast.specs.declared.symbol.Symbol.{Symbol};
    ghost use Rattle.f77_ast.specs.Index.{Indexes, names_of};
    ghost use Rattle.f77_ast.specs.contracts.expr.Expr as expr;
    ghost use Rattle.std.specs.Coded.{codes};

    ghost Value = { List Symbol };

    ghost coded = { Prim.hlevel (codes, expr.the_row.coded) };

    ghost view = { λ s. s.list.items };

    ghost invariant = { λ s. Indexes s.index (names_of s.list.items) };
}

impl Symbols {
    /// No symbols. Takes no memory.
    pub fn new(alloc: Global) -> Symbols
        ensures { result ≡ [] }
    {
        Symbols {
            list: Vec::new(alloc),
            index: NameIndex::new(alloc),
        }
    }

    /// Adds a symbol at the end. Where its name is there already, the name keeps its number. Err also where there are 2^32 - 1
    /// symbols.
    pub fn push(&mut self, alloc: Global, symbol: Symbol) -> Result<(), Memory>
        ensures ok { OnOk result (self.new ≡ self.old ++ symbol ∷ []) }
        ensures err { OnErr result (self.new ≡ self.old) }
    {
        let name = Vec::from_slice(alloc, symbol.name.as_slice())?;
        self.index.push(name, &mut self.list, symbol)?;
        Ok(())
    }

    /// The symbols in the order of their numbers.
    pub fn as_slice(&self) -> &[Symbol]
        ensures { result.now ≡ self.now }
    {
        self.list.as_slice()
    }

    /// How many symbols there are.
    pub fn len(&self) -> usize
        ensures { result ≡ length self.now }
    {
        self.list.len()
    }

    /// The symbol with a number, from 1; None where there is none. Takes no memory.
    pub fn symbol(&self, number: u32) -> Option<&Symbol>
        ensures { option_copied result ≡ numbered self.now number }
    {
        if number == 0 {
            return None;
        }
        self.list.get(number as usize - 1)
    }

    /// The number of a name, from 1; None where the name is not there. Takes no memory.
    pub fn number(&self, name: &Text) -> Option<u32>
        ensures { result ≡ number_from 1 (names_of self.now) name.now }
    {
        self.index.number(name)
    }
}

/// The constant of a symbol, where it is one.
fn constant_at(symbol: &Symbol) -> Option<Constant>
    ensures { result ≡ constant_at (symbol_tree symbol.now) }
{
    match (&symbol.place, symbol.scalar) {
        (Place::Constant(value), Scalar::Int) => i32::try_from(*value).ok().map(Constant::Int),
        (Place::Constant(value), Scalar::Log) => Some(Constant::Log(*value != 0)),
        (Place::Local(..) | Place::Dummy(_) | Place::Block(..), _) => None,
    }
}

impl Constants for Symbols {
    ghost use Rattle.std.specs.Prelude.{map};
    ghost use Rattle.f77_ast.specs.Symbols.{symbol_tree, value_in};

    ghost value_in = { λ s. value_in (map symbol_tree s) };

    fn value(&self, name: &Text) -> Option<Constant> {
        match self.number(name) {
            None => None,
            Some(number) => match self.symbol(number) {
                None => None,
                Some(symbol) => constant_at(symbol),
            },
        }
    }
}

/// The place of the symbol with the number `cell`, from 1. Takes no memory.
pub fn unit_of(symbols: &Symbols, cell: u32) -> &Place
    requires from_one { 1 ≤ cell }
    requires is_symbol { cell ≤ length symbols.now }
    ensures { place_at (map symbol_tree symbols.now) cell ≡ Some result.now }
{
    let symbol = &symbols.list.as_slice()[cell as usize - 1];
    &symbol.place
}
