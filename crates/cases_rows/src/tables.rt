//! Tables of symbols.
use crate::decode_error::DecodeError;
use f77_ast::{Place, Scalar, Symbol, Symbols};
use fx_lists::{List, Text};
use std::alloc::Global;

/// The symbols of a module, and which of them are tracked.
#[derive(Drop)]
pub struct Table {
    pub symbols: Symbols,
    pub tracked: List<bool>,
}

fn constant_of(value: &str) -> Result<(Scalar, i64), DecodeError> {
    match value {
        "T" => Ok((Scalar::Log, 1)),
        "F" => Ok((Scalar::Log, 0)),
        _ => Ok((
            Scalar::Int,
            value.parse().map_err(|_| DecodeError::Malformed)?,
        )),
    }
}

fn add(
    alloc: Global,
    table: &mut Table,
    name: &str,
    scalar: Scalar,
    place: Place,
) -> Result<(), DecodeError> {
    table.symbols.push(
        alloc,
        Symbol {
            name: Text::from_bytes(alloc, name.as_bytes())?,
            scalar,
            bounds: List::new(alloc),
            place,
            saved: false,
            initial: List::new(alloc),
        },
    )?;
    Ok(())
}

fn add_word(alloc: Global, table: &mut Table, word: &str) -> Result<(), DecodeError> {
    if let Some((name, value)) = word.split_once('=') {
        let (scalar, number) = constant_of(value)?;
        table.tracked.push(false)?;
        return add(alloc, table, name, scalar, Place::Constant(number));
    }
    match word.strip_suffix('*') {
        Some(name) => {
            table.tracked.push(false)?;
            add(alloc, table, name, Scalar::Int, Place::Local(1, 0))
        }
        None => {
            table.tracked.push(true)?;
            add(alloc, table, word, Scalar::Int, Place::Local(2, 0))
        }
    }
}

/// A table of words: see the crate's head.
pub fn table_of(alloc: Global, part: &str) -> Result<Table, DecodeError> {
    let mut table = Table {
        symbols: Symbols::new(alloc),
        tracked: List::new(alloc),
    };
    for word in part.split_whitespace() {
        add_word(alloc, &mut table, word)?;
    }
    Ok(table)
}
