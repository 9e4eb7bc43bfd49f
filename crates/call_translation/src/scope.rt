//! The scope of a module: what its statements and its CALLs are looked at with.
ghost use Rattle.std.specs.Prelude.{◌≡◌, map, IfOk};
ghost use Rattle.f77_ast.specs.PlainDecl.{module_tree};
ghost use Rattle.f77_ast.specs.Symbols.{symbol_tree};
ghost use Rattle.tracked_cells.specs.Tracked.{tracked_of};

use call_graph::View;
use f77_ast::Symbols;
use fx_lists::List;
use std::alloc::{AllocError as Memory, Global};
use tracked_cells::tracked_flags;

/// The symbols of a module and, for each of them in their order, whether it is an analysed scalar.
#[derive(Drop)]
pub struct CellScope<'a> {
    pub symbols: &'a Symbols,
    pub tracked: &'a List<bool>,
}

/// For each symbol of a module, in their order, whether it is an analysed scalar.
pub fn tracked_of(alloc: Global, view: &View<'_>) -> Result<List<bool>, Memory>
    ensures { IfOk result (λ cells. cells ≡ tracked_of (module_tree view.now.«module».now) (map symbol_tree view.now.symbols.now) view.now.graph.now.untracked) }
{
    tracked_flags(alloc, view.module, view.symbols, &view.graph.untracked)
}
