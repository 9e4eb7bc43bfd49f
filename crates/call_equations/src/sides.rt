//! A CALL with the two modules that it joins, and what is known of both.
ghost use Rattle.std.specs.Prelude.{◌≡◌, map, IfOk};
ghost use Rattle.f77_ast.specs.Symbols.{symbol_tree};
ghost use Rattle.call_equations.specs.Sides.{is_entry_place as is_entry_place_is, is_entry_cell as is_entry_cell_is, entry_cells as entry_cells_is, changed_cells as changed_cells_is};

use call_translation::CellScope;
use call_translation::transformer_algebra::{Transformer, joined_cells};
use f77_ast::{Expr, Place, Results, Symbol, Symbols, Unit};
use fx_lists::{List, Text};
use std::alloc::{AllocError as Memory, Global};
use tracked_cells::{is_int_scalar, is_untracked};

/// A CALL, and the two modules as its regions are looked at with. What is of one module is made once for all its CALLs.
#[derive(Drop)]
pub struct CallSides<'a> {
    /// The symbols of the module that calls, and which of them are analysed scalars.
    pub caller: &'a CellScope<'a>,
    /// Its analysed scalars that some statement changes, as `changed_cells` gives them.
    pub changed: &'a List<u32>,
    /// The name of the module that is called.
    pub name: &'a Text,
    /// The actual arguments, in order.
    pub actuals: &'a List<Expr>,
    /// The symbols of the module that is called, with the flags of `entry_cells`.
    pub callee: &'a CellScope<'a>,
}

/// The analysed scalars that some statement of a module changes, from the transformers of its statements, ascending.
pub fn changed_cells(alloc: Global, own: &Results<Transformer>) -> Result<List<u32>, Memory>
    ensures { IfOk result (λ cs. cs ≡ changed_cells_is own.now.at) }
{
    let mut cells = List::new(alloc);
    let mut rest = own.at.as_slice();
    while let [at, more @ ..] = rest {
        cells = joined_cells(alloc, cells.as_slice(), at.value.cells.as_slice())?;
        rest = more;
    }
    Ok(cells)
}

fn is_entry_place(untracked: &List<Unit>, place: &Place) -> bool
    ensures { result ≡ is_entry_place_is untracked.now place.now }
{
    match place {
        Place::Dummy(_) => true,
        Place::Block(block, offset) => !is_untracked(untracked, block, *offset),
        Place::Local(..) | Place::Constant(_) => false,
    }
}

fn is_entry_cell(untracked: &List<Unit>, symbol: &Symbol) -> bool
    ensures { result ≡ is_entry_cell_is untracked.now (symbol_tree symbol.now) }
{
    is_int_scalar(symbol) && is_entry_place(untracked, &symbol.place)
}

/// For each symbol of a module, in their order, whether it is an analysed scalar that the bounds of its dummies may name (ANSI X3.9-1978,
/// §5.1.1.2): a dummy, or a variable of a block at none of the untracked units of the program.
#[tactic(auto, using(crate::proofs::Steps::lists))]
pub fn entry_cells(
    alloc: Global,
    symbols: &Symbols,
    untracked: &List<Unit>,
) -> Result<List<bool>, Memory>
    ensures { IfOk result (λ cells. cells ≡ entry_cells_is untracked.now (map symbol_tree symbols.now)) }
{
    let mut cells = List::new(alloc);
    let mut rest = symbols.as_slice();
    while let [symbol, more @ ..] = rest {
        cells.push(is_entry_cell(untracked, symbol))?;
        rest = more;
    }
    Ok(cells)
}
