//! Numbers of symbols, and variables by what is written of them.
ghost use Rattle.std.specs.Prelude.{◌≡◌, ◌<◌, ◌==◌, IfSome, length, position};
ghost use Rattle.std.specs.List.{list_all};
ghost use Rattle.serde_json.specs.View.{view};
ghost use Rattle.f77_ast.specs.Index.{names_of};
ghost use Rattle.base_json.specs.Gives.{Gives};
ghost use Rattle.base_json.specs.Scopes.{in_name as in_name_is, is_name as is_name_is, scope_tree, number_of, cell_of, is_symbol as is_symbol_is, is_short_name as is_short_name_is, is_block as is_block_is, block_named as block_named_is, block_in as block_in_is, saved_named as saved_named_is, saved_at as saved_at_is, foreign_variable as foreign_variable_is, variable_named as variable_named_is, variable_of};

use crate::{Decode, DecodeError, Scope, number_below, text_at};
use f77_ast::{Symbols, Variable};
use fx_lists::Text;
use serde_json::Value;
use std::alloc::Global;

/// A number of 32 bits, as of a statement or a symbol; None for another value.
pub fn number_at(value: &Value) -> Option<u32>
    ensures { result ≡ number_of (view value.now) }
{
    match number_below(value, 1 << 32) {
        None => None,
        Some(n) => Some(n as u32),
    }
}

fn is_symbol(symbols: &Symbols, number: u32) -> bool
    ensures { result ≡ is_symbol_is (names_of symbols.now) number }
{
    0 < number && number as usize <= symbols.len()
}

/// The number of a symbol, from 1; None for another value.
pub fn cell_at(scope: &Scope<'_>, value: &Value) -> Option<u32>
    ensures { result ≡ cell_of (scope_tree scope.now) (view value.now) }
{
    match number_at(value) {
        None => None,
        Some(n) => if is_symbol(scope.symbols, n) {
            Some(n)
        } else {
            None
        },
    }
}

impl<'a> Decode<Scope<'a>> for u32 {
    ghost read_as = { λ s. cell_of (scope_tree s) };

    fn decode(_alloc: Global, scope: &Scope<'a>, value: &Value) -> Result<u32, DecodeError> {
        match cell_at(scope, value) {
            None => Err(DecodeError::Shape),
            Some(n) => Ok(n),
        }
    }
}

fn in_name(byte: u8) -> bool
    ensures { result ≡ in_name_is byte }
{
    byte.is_ascii_uppercase() || byte.is_ascii_digit() || byte == b'_'
}

fn are_in_names(text: &[u8]) -> bool
    ensures { result ≡ list_all in_name_is text.now }
{
    text.iter().all(|byte| in_name(*byte))
}

fn is_name(text: &[u8]) -> bool
    ensures { result ≡ is_name_is text.now }
{
    match text {
        [] => false,
        [first, others @ ..] => first.is_ascii_uppercase() && are_in_names(others),
    }
}

/// Whether a text is a name of FORTRAN: at most 31 letters, digits and `_`, the first a letter.
fn is_short_name(text: &[u8]) -> bool
    ensures { result ≡ is_short_name_is text.now }
{
    is_name(text) && text.len() <= 31
}

/// Whether a text is the name of a block; that of the blank one is empty.
pub fn is_block(text: &[u8]) -> bool
    ensures { result ≡ is_block_is text.now }
{
    text.is_empty() || is_short_name(text)
}

fn block_named(alloc: Global, name: &[u8]) -> Result<Variable, DecodeError>
    ensures { Gives result (block_named_is name.now) }
{
    if !is_block(name) {
        return Err(DecodeError::Shape);
    }
    Ok(Variable::Block(Text::from_bytes(alloc, name)?))
}

fn block_in(alloc: Global, text: &[u8]) -> Result<Variable, DecodeError>
    ensures { Gives result (block_in_is text.now) }
{
    if text.len() >= 2 && text[text.len() - 1] == b'/' {
        block_named(alloc, &text[1..text.len() - 1])
    } else {
        Err(DecodeError::Shape)
    }
}

fn saved_named(alloc: Global, module: &[u8], local: &[u8]) -> Result<Variable, DecodeError>
    ensures { Gives result (saved_named_is «module».now local.now) }
{
    if !(is_short_name(module) && is_short_name(local)) {
        return Err(DecodeError::Shape);
    }
    let module = Text::from_bytes(alloc, module)?;
    Ok(Variable::Saved(module, Text::from_bytes(alloc, local)?))
}

fn saved_at(alloc: Global, text: &[u8], colon: Option<usize>) -> Result<Variable, DecodeError>
    requires { IfSome colon (λ at. at < length text.now) }
    ensures { Gives result (saved_at_is text.now colon) }
{
    match colon {
        None => Err(DecodeError::Shape),
        Some(at) => saved_named(alloc, &text[..at], &text[at + 1..]),
    }
}

/// Where the first colon is.
fn colon_in(text: &[u8]) -> Option<usize>
    ensures found { result ≡ position (λ c. c == 58) text.now }
    ensures within { IfSome result (λ at. at < length text.now) }
{
    text.iter().position(|byte| *byte == b':')
}

fn saved_in(alloc: Global, text: &[u8]) -> Result<Variable, DecodeError>
    ensures { Gives result (saved_at_is text.now (position (λ c. c == 58) text.now)) }
{
    saved_at(alloc, text, colon_in(text))
}

fn foreign_variable(alloc: Global, text: &[u8]) -> Result<Variable, DecodeError>
    ensures { Gives result (foreign_variable_is text.now) }
{
    if !text.is_empty() && text[0] == b'/' {
        block_in(alloc, text)
    } else {
        saved_in(alloc, text)
    }
}

fn variable_named(alloc: Global, symbols: &Symbols, text: &Text) -> Result<Variable, DecodeError>
    ensures { Gives result (variable_named_is (names_of symbols.now) text.now) }
{
    match symbols.number(text) {
        Some(number) => Ok(Variable::Own(number)),
        None => foreign_variable(alloc, text.as_slice()),
    }
}

/// The variable of a string: a symbol by its name, else a block as `/B/` or a saved local of a module as `S:X`.
pub fn variable_at(alloc: Global, scope: &Scope<'_>, value: &Value) -> Result<Variable, DecodeError>
    ensures { Gives result (variable_of (scope_tree scope.now) (view value.now)) }
{
    let text = text_at(alloc, value)?;
    variable_named(alloc, scope.symbols, &text)
}

impl<'a> Decode<Scope<'a>> for Variable {
    ghost read_as = { λ s. variable_of (scope_tree s) };

    fn decode(alloc: Global, scope: &Scope<'a>, value: &Value) -> Result<Variable, DecodeError> {
        variable_at(alloc, scope, value)
    }
}
