//! What the results of a module of a base may name.
ghost use Rattle.std.specs.Prelude.{◌≤◌, length, map, option_and_then};
ghost use Rattle.f77_ast.specs.PlainDecl.{parsed_tree};
ghost use Rattle.storage_layout.specs.Symbols.{symbols_of};
ghost use Rattle.session_texts.specs.pipsmake_meaning.Texts.{modules_of, with_table};
ghost use Rattle.base_text.specs.Gives.{GivesAs};
ghost use Rattle.base_text.specs.Modules.{names_if, names_of, names_each, table_names, tree_in};

use crate::BaseModule;
use base_json::DecodeError;
use base_values::{Numbers, numbers_in};
use f77_ast::{Parsed, Symbols};
use f77_parser::{ParseRefusal, parse};
use fixed_form::{ReadRefusal, statements};
use fx_lists::{List, Text};
use std::alloc::Global;
use storage_layout::{LayoutRefusal, symbols};

/// The symbols of a module and the numbers of its statements.
#[derive(Drop)]
pub struct Table {
    pub symbols: Symbols,
    pub numbers: Numbers,
}

/// The one module of a text. Err(Shape) where the text is refused, or has none or several.
#[tactic(auto, using(session_texts::proofs::Sizes::long_texts, crate::proofs::ModuleLaws::trees))]
fn tree_of(alloc: Global, text: &Text) -> Result<Parsed, DecodeError>
    requires { length text.now ≤ 16777216 }
    ensures { GivesAs parsed_tree result (tree_in (modules_of text.now)) }
{
    let lines = match statements(alloc, text) {
        Ok(lines) => lines,
        Err(ReadRefusal::At(_, _)) => return Err(DecodeError::Shape),
        Err(ReadRefusal::Memory) => return Err(DecodeError::Memory),
    };
    let mut modules = match parse(alloc, &lines) {
        Ok(modules) => modules,
        Err(ParseRefusal::At(_, _, _)) => return Err(DecodeError::Shape),
        Err(ParseRefusal::Memory) => return Err(DecodeError::Memory),
    };
    let Some(parsed) = modules.pop() else {
        return Err(DecodeError::Shape);
    };
    if modules.is_empty() {
        Ok(parsed)
    } else {
        Err(DecodeError::Shape)
    }
}

#[tactic(auto, using(crate::proofs::ModuleLaws::tables))]
/// What the results of a module may name. Err(Shape) where its symbols are refused or it has another name.
fn table_in(alloc: Global, name: &Text, parsed: &Parsed) -> Result<Table, DecodeError>
    ensures { GivesAs table_names result (option_and_then (names_if name.now) (with_table (parsed_tree parsed.now) (symbols_of (parsed_tree parsed.now)))) }
{
    let symbols = match symbols(alloc, parsed) {
        Ok(symbols) => symbols,
        Err(LayoutRefusal::At(_, _)) => return Err(DecodeError::Shape),
        Err(LayoutRefusal::Memory) => return Err(DecodeError::Memory),
    };
    if parsed.module.name != *name || symbols.len() >= 4294967296 {
        return Err(DecodeError::Shape);
    }
    let numbers = numbers_in(alloc, &parsed.module.body)?;
    Ok(Table { symbols, numbers })
}

/// What the results of a module may name. Err(Shape) where its text is too long or is not the one module of its name.
pub fn table_of(alloc: Global, held: &BaseModule) -> Result<Table, DecodeError>
    ensures { GivesAs table_names result (names_of held.now) }
{
    if held.text.len() > 16777216 {
        return Err(DecodeError::Shape);
    }
    let parsed = tree_of(alloc, &held.text)?;
    table_in(alloc, &held.name, &parsed)
}

#[tactic(auto, using(crate::proofs::ModuleLaws::each_names))]
/// What the results of each module may name.
pub fn tables_of(alloc: Global, modules: &[BaseModule]) -> Result<List<Table>, DecodeError>
    ensures { GivesAs (map table_names) result (names_each modules.now) }
{
    let mut tables = List::new(alloc);
    for module in modules {
        let table = table_of(alloc, module)?;
        tables.push(table)?;
    }
    Ok(tables)
}
