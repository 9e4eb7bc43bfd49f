//! Variables as they are printed.

use crate::shown::{name_of, text_of};
use f77_ast::{Symbols, Variable};
use std::alloc::{AllocError as Memory, Global};

/// A blank and the name.
pub fn add_variable(
    alloc: Global,
    shown: &mut String,
    symbols: &Symbols,
    v: &Variable,
) -> Result<(), Memory> {
    let text = match v {
        Variable::Own(number) => {
            let name = name_of(symbols, *number);
            format!(in alloc; " {name}")?
        }
        Variable::Block(block) => {
            let block = text_of(block);
            format!(in alloc; " /{block}/")?
        }
        Variable::Saved(module, local) => {
            let module = text_of(module);
            let local = text_of(local);
            format!(in alloc; " {module}:{local}")?
        }
    };
    shown.push_str(text.as_str())
}
