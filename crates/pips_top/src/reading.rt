//! Reading a text, pass by pass.
ghost use Rattle.std.specs.Prelude.{◌≡◌, ◌≤◌, length, map, IfOk};
ghost use Rattle.f77_ast.specs.PlainDecl.{parsed_tree};
ghost use Rattle.f77_parser.specs.Gives.{Gives};
ghost use Rattle.f77_ast.specs.Symbols.{symbol_tree};
ghost use Rattle.call_graph.specs.Links.{link_of};
ghost use Rattle.pips_top.specs.Made.{input_limit};
ghost use Rattle.pips_top.specs.Program.{program_tree};
ghost use Rattle.pips_top.specs.Reading.{graph_or, in_reading, program_of, reading};
ghost use Rattle.pipsmake_base.specs.session_texts.Sources.{tables_of};

use crate::program::Program;
use call_graph::{Graph, LinkRefusal, link};
use f77_ast::Symbols;
use f77_parser::{ModuleTrees, ParseRefusal, parse};
use fixed_form::{ReadRefusal, statements};
use fx_lists::{Code, List, Text};
use pipsmake_base::session_texts::tables_of;
use std::alloc::Global;

/// A refusal of links as one of reading. The line is one of the text, in whichever module it stands.
fn in_reading(alloc: Global, refusal: LinkRefusal) -> ParseRefusal
    ensures { result ≡ in_reading refusal }
{
    match refusal {
        LinkRefusal::NoMain => { ParseRefusal::At(1, Code::NoMain.number(), Text::new(alloc)) }
        LinkRefusal::At(_, line, code) => ParseRefusal::At(line, code, Text::new(alloc)),
        LinkRefusal::Memory => ParseRefusal::Memory,
    }
}

/// The links of modules, or their refusal as one of reading.
fn graph_of(
    alloc: Global,
    modules: &ModuleTrees,
    tables: &List<Symbols>,
) -> Result<Graph, ParseRefusal>
    requires one_each { length modules.now ≡ length tables.now }
    ensures { Gives (λ g. g) result (graph_or (link_of (map parsed_tree modules.now) (map (map symbol_tree) tables.now))) }
{
    match link(alloc, modules, tables) {
        Ok(graph) => Ok(graph),
        Err(refusal) => Err(in_reading(alloc, refusal)),
    }
}

/// The program of modules: their symbols, then their links.
#[tactic(auto, unfolding(crate::specs::Reading::program_of))]
fn program_of(alloc: Global, modules: ModuleTrees) -> Result<Program, ParseRefusal>
    ensures defined { Gives program_tree result (program_of (map parsed_tree modules)) }
    ensures one_each { IfOk result (λ p. length p.modules ≡ length p.tables) }
{
    let tables = match tables_of(alloc, &modules) {
        Ok(tables) => tables,
        Err(refusal) => return Err(refusal),
    };
    let graph = match graph_of(alloc, &modules, &tables) {
        Ok(graph) => graph,
        Err(refusal) => return Err(refusal),
    };
    Ok(Program {
        modules,
        tables,
        graph,
    })
}

/// The program of a text of at most 2^20 bytes. Err also with its first refusal: that of the earliest pass, and in a pass the earliest line
/// with the lowest code. Structure and symbols go module by module, and of symbols 35 and 36 come last in their module. Of links the number
/// of modules, their names and their main program come first, then the arguments of CALLs, then recursion.
#[tactic(auto, using(f77_parser::proofs::SizeLemmas::short_texts), unfolding(crate::specs::Reading::reading))]
pub fn read(alloc: Global, text: &Text) -> Result<Program, ParseRefusal>
    requires { length text.now ≤ input_limit }
    ensures defined { Gives program_tree result (reading text.now) }
    ensures one_each { IfOk result (λ p. length p.modules ≡ length p.tables) }
{
    let lines = match statements(alloc, text) {
        Ok(lines) => lines,
        Err(ReadRefusal::At(line, code)) => {
            return Err(ParseRefusal::At(line, code, Text::new(alloc)));
        }
        Err(ReadRefusal::Memory) => return Err(ParseRefusal::Memory),
    };
    let modules = match parse(alloc, &lines) {
        Ok(modules) => modules,
        Err(refusal) => return Err(refusal),
    };
    program_of(alloc, modules)
}
