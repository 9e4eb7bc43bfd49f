//! Names as they are printed.

use f77_ast::Symbols;
use fx_lists::Text;

pub fn text_of(text: &Text) -> &str {
    match str::from_utf8(text.as_slice()) {
        Ok(text) => text,
        Err(_) => "?",
    }
}

pub fn name_of(symbols: &Symbols, number: u32) -> &str {
    match symbols.symbol(number) {
        None => "?",
        Some(symbol) => text_of(&symbol.name),
    }
}
