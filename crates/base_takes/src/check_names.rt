//! Whether variables are those of a module.
ghost use Rattle.std.specs.Prelude.{◌≡◌, ◌&&◌, true};
ghost use Rattle.f77_ast.specs.Index.{names_of};
ghost use Rattle.base_json.specs.Scopes.{is_symbol as is_symbol_is, is_block as is_block_is, is_short_name as is_short_name_is};
ghost use Rattle.base_values.specs.Naming.{VariableFits};

use crate::check::Check;
use base_json::is_block;
use f77_ast::{Symbols, Unit, Variable};
use pipsmake_rules::Kind;
use std::alloc::{AllocError as Memory, Global};

/// The symbols of a module, and the kind of a result.
#[derive(Drop)]
pub struct KindScope<'a> {
    pub symbols: &'a Symbols,
    pub kind: Kind,
}

/// Whether it is the number of a symbol.
pub fn is_symbol(symbols: &Symbols, number: u32) -> bool
    ensures { result ≡ is_symbol_is (names_of symbols.now) number }
{
    0 < number && number as usize <= symbols.len()
}

/// Whether a text is a name of FORTRAN, not the empty one of the blank block.
fn is_short_name(text: &[u8]) -> bool
    ensures { result ≡ true → is_short_name_is text.now ≡ true }
{
    if text.len() == 0 {
        return false;
    }
    is_block(text)
}

fn are_short_names(module: &[u8], local: &[u8]) -> bool
    ensures { result ≡ true → (is_short_name_is «module».now && is_short_name_is local.now) ≡ true }
{
    let first = is_short_name(module);
    if !first {
        return false;
    }
    is_short_name(local)
}

/// Whether a variable may be named: an own one is a symbol, and blocks and saved locals have names.
pub fn variable_fits(symbols: &Symbols, variable: &Variable) -> bool
    ensures { result ≡ true → VariableFits (names_of symbols.now) variable.now }
{
    match variable {
        Variable::Own(number) => is_symbol(symbols, *number),
        Variable::Block(block) => is_block(block.as_slice()),
        Variable::Saved(module, local) => are_short_names(module.as_slice(), local.as_slice()),
    }
}

impl<'a> Check<KindScope<'a>> for Variable {
    ghost fits = { λ s v. VariableFits (names_of s.symbols.now) v };

    fn check(&self, _alloc: Global, scope: &KindScope<'a>) -> Result<bool, Memory> {
        Ok(variable_fits(scope.symbols, self))
    }
}

impl<'a> Check<KindScope<'a>> for Unit {
    ghost fits = { λ _ u. is_block_is u.block ≡ true };

    fn check(&self, _alloc: Global, _scope: &KindScope<'a>) -> Result<bool, Memory> {
        Ok(is_block(self.block.as_slice()))
    }
}

impl<'a> Check<KindScope<'a>> for u32 {
    ghost fits = { λ s n. is_symbol_is (names_of s.symbols.now) n ≡ true };

    fn check(&self, _alloc: Global, scope: &KindScope<'a>) -> Result<bool, Memory> {
        Ok(is_symbol(scope.symbols, *self))
    }
}
