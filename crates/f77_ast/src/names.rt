//! The names of the symbols of a module.
ghost use Rattle.std.specs.Prelude.{◌≡◌, IfOk};
ghost use Rattle.f77_ast.specs.Index.{names_of};

use crate::Symbols;
use fx_lists::{List, Text};
use std::alloc::{AllocError as Memory, Global};

/// The names of the symbols of a module, in their order; each is copied.
pub fn names_of(alloc: Global, symbols: &Symbols) -> Result<List<Text>, Memory>
    ensures { IfOk result (λ names. names ≡ names_of symbols.now) }
{
    let mut names = List::new(alloc);
    for symbol in symbols.as_slice() {
        names.push(symbol.name.clone()?)?;
    }
    Ok(names)
}
