//! Reading the modules of a source text.
ghost use Rattle.std.specs.Prelude.{◌≡◌, ◌≤◌, [], length, map, IfOk};
ghost use Rattle.fixed_form.specs.Laws.{AreSmall};
ghost use Rattle.fixed_form.specs.Reading.{reading};
ghost use Rattle.f77_ast.specs.PlainDecl.{parsed_tree};
ghost use Rattle.f77_parser.specs.Gives.{Gives};
ghost use Rattle.f77_parser.specs.Modules.{parse_of};
ghost use Rattle.f77_ast.specs.Symbols.{symbol_tree};
ghost use Rattle.fx_lists.specs.Refusals.{number_of};
ghost use Rattle.storage_layout.specs.Symbols.{symbols_of};
ghost use Rattle.session_texts.specs.Modules.{AreSources, NamesDiffer, source_text};
ghost use Rattle.session_texts.specs.Sources.{source_modules, table_or, tables_of, texts_with};

use crate::checks::source_refusal;
use crate::source::{Source, sources_from};
use f77_ast::{Parsed, Symbols};
use f77_parser::{ModuleTrees, ParseRefusal, parse};
use fixed_form::{Lines, ReadRefusal, pieces, statements};
use fx_lists::{List, Refusal, Text};
use roundtrip_programs::{pieces_are_modules, tables_ignore_places};
use std::alloc::Global;
use storage_layout::{LayoutRefusal, symbols};

/// The symbols of a module, or its refusal as one of reading.
#[tactic(auto, using(crate::proofs::SymbolLaws::refused_table))]
fn table_of(alloc: Global, parsed: &Parsed) -> Result<Symbols, ParseRefusal>
    ensures { Gives (map symbol_tree) result (table_or (symbols_of (parsed_tree parsed.now))) }
{
    match symbols(alloc, parsed) {
        Ok(table) => Ok(table),
        Err(LayoutRefusal::At(line, code)) => {
            Err(ParseRefusal::At(line, code, Text::new(alloc)))
        }
        Err(LayoutRefusal::Memory) => Err(ParseRefusal::Memory),
    }
}

/// The symbols of each module, in the order of the modules, or the refusal of the first that has none.
#[tactic(auto, using(crate::proofs::SymbolLaws::symbol_steps))]
pub fn tables_of(alloc: Global, modules: &ModuleTrees) -> Result<List<Symbols>, ParseRefusal>
    ensures defined { Gives (map (map symbol_tree)) result (tables_of (map parsed_tree modules.now)) }
    ensures one_each { IfOk result (λ tables. length modules.now ≡ length tables) }
{
    let mut tables = List::new(alloc);
    for parsed in modules.as_slice() {
        match table_of(alloc, parsed) {
            Ok(table) => tables.push(table)?,
            Err(refusal) => return Err(refusal),
        }
    }
    Ok(tables)
}

fn refused(alloc: Global, refusal: Refusal) -> ParseRefusal
    ensures { result ≡ ParseRefusal.At refusal.line (number_of refusal.code) [] }
{
    ParseRefusal::At(refusal.line, refusal.code.number(), Text::new(alloc))
}

/// The modules that were read from these statements of a text.
fn sources_with(
    alloc: Global,
    text: &Text,
    lines: &Lines,
    modules: ModuleTrees,
) -> Result<List<Source>, ParseRefusal>
    requires lined { reading text.now ≡ Ok lines.now }
    requires parsed { parse_of lines.now ≡ Ok (map parsed_tree modules) }
    requires small { AreSmall lines.now.lines }
    ensures defined { Gives (map source_text) result (texts_with text.now lines.now (map parsed_tree modules)) }
    ensures sources { IfOk result AreSources }
    ensures differ { IfOk result (λ ss. NamesDiffer (map source_text ss)) }
{
    pieces_are_modules();
    tables_ignore_places();
    let tables = match tables_of(alloc, &modules) {
        Ok(tables) => tables,
        Err(refusal) => return Err(refusal),
    };
    if let Some(refusal) = source_refusal(alloc, &modules)? {
        return Err(refused(alloc, refusal));
    }
    let pieces = pieces(alloc, text, lines)?;
    let sources = sources_from(alloc, pieces, modules, tables)?;
    Ok(sources)
}

/// The modules of a source text of at most 16,777,216 bytes, in its order, each with its text: what follows the END before it up to its own END, the last up
/// to the end of the text. A text without statements has none. Err is the first refusal: codes 1 to 41 as `pips` reads a text, pass by pass, then more than
/// 256 modules, a name twice, a second main program (57, 52, 51), each at the first line of its module in this text. Takes time in proportion to the text.
#[tactic(auto, using(crate::proofs::Sizes::long_texts), unfolding(crate::specs::Sources::source_modules))]
pub fn sources_of(alloc: Global, text: &Text) -> Result<List<Source>, ParseRefusal>
    requires fits { length text.now ≤ 16777216 }
    ensures defined { Gives (map source_text) result (source_modules text.now) }
    ensures sources { IfOk result AreSources }
    ensures differ { IfOk result (λ ss. NamesDiffer (map source_text ss)) }
{
    let lines = match statements(alloc, text) {
        Ok(lines) => lines,
        Err(ReadRefusal::At(line, code)) => {
            return Err(ParseRefusal::At(line, code, Text::new(alloc)));
        }
        Err(ReadRefusal::Memory) => return Err(ParseRefusal::Memory),
    };
    let modules = match parse(alloc, &lines) {
        Ok(modules) => modules,
        Err(refusal) => return Err(refusal),
    };
    sources_with(alloc, text, &lines, modules)
}
