//! The symbols of modules.

use crate::shown::text_of;
use f77_ast::{Parsed, Place, Symbol, Symbols, Variable, overlaps, units_of};
use fx_lists::List;
use std::alloc::{AllocError as Memory, Global};
use storage_layout::{LayoutRefusal, symbols};

fn place_text(alloc: Global, place: &Place) -> Result<String, Memory> {
    match place {
        Place::Local(group, offset) => format!(in alloc; "L{group}+{offset}"),
        Place::Dummy(number) => format!(in alloc; "D{number}"),
        Place::Block(name, offset) => {
            let name = text_of(name);
            format!(in alloc; "/{name}/+{offset}")
        }
        Place::Constant(value) => format!(in alloc; "={value}"),
    }
}

fn add_symbol(
    alloc: Global,
    shown: &mut String,
    table: &Symbols,
    symbol: &Symbol,
) -> Result<(), Memory> {
    let name = text_of(&symbol.name);
    let scalar = symbol.scalar;
    let dims = symbol.bounds.len();
    let units = units_of(table, symbol).ok_or(Memory)?;
    let place = place_text(alloc, &symbol.place)?;
    let saved = symbol.saved;
    let line = format!(in alloc; "{name} {scalar:?} {dims} {units} {place} {saved}")?;
    shown.push_str(line.as_str())?;
    for run in symbol.initial.as_slice() {
        let offset = run.offset;
        let count = run.count;
        let value = run.value;
        let line = format!(in alloc; " {offset}:{count}*{value}")?;
        shown.push_str(line.as_str())?;
    }
    shown.push_str("\n")
}

/// The pairs of symbols that overlap. It fails at 2^32 symbols.
fn add_pairs(alloc: Global, shown: &mut String, table: &Symbols) -> Result<(), Memory> {
    let count = match u32::try_from(table.len()) {
        Err(_) => return Err(Memory),
        Ok(count) => count,
    };
    for m in 1..=count {
        for n in 1..=count {
            if overlaps(table, &Variable::Own(m), &Variable::Own(n)) {
                let pair = format!(in alloc; "{m}~{n} ")?;
                shown.push_str(pair.as_str())?;
            }
        }
    }
    shown.push_str("\n")
}

fn add_module(alloc: Global, shown: &mut String, parsed: &Parsed) -> Result<(), Memory> {
    match symbols(alloc, parsed) {
        Ok(table) => {
            for symbol in table.as_slice() {
                add_symbol(alloc, shown, &table, symbol)?;
            }
            add_pairs(alloc, shown, &table)
        }
        Err(LayoutRefusal::At(line, code)) => {
            let line = format!(in alloc; "refused {line} {code}\n")?;
            shown.push_str(line.as_str())
        }
        Err(LayoutRefusal::Memory) => Err(Memory),
    }
}

/// The symbols of each module with the pairs that overlap, or its refusal.
pub fn add_storage(
    alloc: Global,
    shown: &mut String,
    modules: &List<Parsed>,
) -> Result<(), Memory> {
    for parsed in modules.as_slice() {
        shown.push_str("module\n")?;
        add_module(alloc, shown, parsed)?;
    }
    Ok(())
}
