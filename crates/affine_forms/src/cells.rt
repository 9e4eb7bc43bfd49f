//! Names of tracked cells.
ghost use Rattle.std.specs.Prelude.{◌≡◌};
ghost use Rattle.f77_ast.specs.Index.{names_of};
ghost use Rattle.affine_forms.specs.Scalars.{is_cell as is_cell_is, cell_in};

use f77_ast::Symbols;
use fx_lists::{List, Text};

/// Whether the symbol with a number, from 1, is an analysed scalar, by flags for the symbols in order. False where no
/// symbol has the number.
pub fn is_cell(tracked: &List<bool>, number: u32) -> bool
    ensures { result ≡ is_cell_is tracked.now number }
{
    if number == 0 {
        return false;
    }
    match tracked.get(number as usize - 1) {
        Some(flag) => *flag,
        None => false,
    }
}

/// The number, from 1, of the symbol of a name, where that is an analysed scalar, else None. `tracked` has a flag for
/// each symbol in order.
pub fn cell_of(symbols: &Symbols, tracked: &List<bool>, name: &Text) -> Option<u32>
    ensures { result ≡ cell_in (names_of symbols.now) tracked.now name.now }
{
    match symbols.number(name) {
        None => None,
        Some(number) => {
            if is_cell(tracked, number) {
                Some(number)
            } else {
                None
            }
        }
    }
}
