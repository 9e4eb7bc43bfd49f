//! The units of blocks that hold an INTEGER scalar and may not be tracked.
ghost use Rattle.std.specs.Prelude.{◌≡◌, map, IfOk};
ghost use Rattle.f77_ast.specs.PlainDecl.{parsed_tree};
ghost use Rattle.f77_ast.specs.Symbols.{symbol_tree};
ghost use Rattle.tracked_cells.specs.Untracked.{untracked_of};

use crate::equivalences::equivalenced_names_of_all;
use crate::scalars::{all_scalars, unit_list};
use crate::untrackable::untrackable;
use f77_ast::{Parsed, Symbols, Unit};
use fx_lists::List;
use std::alloc::{AllocError as Memory, Global};

/// The units of blocks at which some module has an INTEGER scalar, and some module has an array, a LOGICAL, a variable in an
/// EQUIVALENCE, or two variables. Each is listed once, by the names of the blocks, byte by byte, then by offsets. Takes time of
/// the number of units times that of all symbols.
pub fn untracked_of(
    alloc: Global,
    modules: &List<Parsed>,
    tables: &List<Symbols>,
) -> Result<List<Unit>, Memory>
    ensures { IfOk result (λ units. units ≡ untracked_of (map parsed_tree modules.now) (map (map symbol_tree) tables.now)) }
{
    let names = equivalenced_names_of_all(alloc, modules)?;
    let units = all_scalars(alloc, tables)?;
    let keys = unit_list(alloc, units)?;
    untrackable(alloc, &names, tables, keys.as_slice())
}
