//! The modules of a text, their tables and their graph.
ghost use Rattle.std.specs.Prelude.{◌≡◌, length};

use call_graph::{Graph, LinkRefusal, link};
use f77_ast::{Parsed, Symbols};
use f77_parser::{ParseRefusal, parse};
use fixed_form::{ReadRefusal, statements};
use fx_lists::{List, Text};
use std::alloc::{AllocError as Memory, Global};
use storage_layout::{LayoutRefusal, symbols};

/// Why there is nothing else to print of a program.
#[derive(Debug, Drop)]
pub enum Stop {
    Memory,
    /// Its first refusal, as it is printed.
    Refused(String),
}

impl From<Memory> for Stop {
    fn from(_error: Memory) -> Stop {
        Stop::Memory
    }
}

/// The modules. It fails behind 1,048,576 bytes.
#[tactic(auto, using(f77_parser::proofs::SizeLemmas::short_texts))]
pub fn modules_of(alloc: Global, text: &Text) -> Result<List<Parsed>, Stop> {
    if text.len() > 1_048_576 {
        return Err(Stop::Memory);
    }
    let lines = match statements(alloc, text) {
        Ok(lines) => lines,
        Err(ReadRefusal::At(line, code)) => {
            return Err(Stop::Refused(format!(in alloc; "read {line} {code}\n")?));
        }
        Err(ReadRefusal::Memory) => return Err(Stop::Memory),
    };
    match parse(alloc, &lines) {
        Ok(modules) => Ok(modules),
        Err(ParseRefusal::At(line, code, _)) => {
            Err(Stop::Refused(format!(in alloc; "read {line} {code}\n")?))
        }
        Err(ParseRefusal::Memory) => Err(Stop::Memory),
    }
}

/// The tables of the modules.
pub fn tables_of(alloc: Global, modules: &List<Parsed>) -> Result<List<Symbols>, Stop> {
    let mut tables = List::new(alloc);
    for parsed in modules.as_slice() {
        match symbols(alloc, parsed) {
            Ok(table) => tables.push(table)?,
            Err(LayoutRefusal::At(line, code)) => {
                return Err(Stop::Refused(format!(in alloc; "symbols {line} {code}\n")?));
            }
            Err(LayoutRefusal::Memory) => return Err(Stop::Memory),
        }
    }
    Ok(tables)
}

/// The graph of modules with their tables.
pub fn graph_of(
    alloc: Global,
    modules: &List<Parsed>,
    tables: &List<Symbols>,
) -> Result<Graph, Stop>
    requires { length modules.now ≡ length tables.now }
{
    match link(alloc, modules, tables) {
        Ok(graph) => Ok(graph),
        Err(LinkRefusal::NoMain) => Err(Stop::Refused(String::from_str(alloc, "link 50\n")?)),
        Err(LinkRefusal::At(place, line, code)) => Err(Stop::Refused(format!(in alloc;
            "link {place} {line} {code}\n"
        )?)),
        Err(LinkRefusal::Memory) => Err(Stop::Memory),
    }
}
