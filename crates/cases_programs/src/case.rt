//! One program.

use crate::effects_of::add_effects;
use crate::graphs::add_graphs;
use crate::loops_of::add_loop_answers;
use crate::reading::{Stop, graph_of, modules_of, tables_of};
use crate::scalars::add_scalars;
use crate::storage::add_storage;
use f77_ast::Parsed;
use fx_lists::{List, Text};
use std::alloc::{AllocError as Memory, Global};

/// What is printed of modules that link. It fails on another kind than those of the crate's head.
fn linked_answer(alloc: Global, kind: &str, modules: &List<Parsed>) -> Result<String, Stop> {
    let tables = tables_of(alloc, modules)?;
    if modules.len() != tables.len() {
        return Err(Stop::Memory);
    }
    let graph = graph_of(alloc, modules, &tables)?;
    let mut shown = String::new(alloc);
    match kind {
        "graph" => add_graphs(alloc, &mut shown, modules, &tables, &graph)?,
        "effects" => add_effects(alloc, &mut shown, modules, &tables, &graph)?,
        "scalars" => add_scalars(alloc, &mut shown, modules, &tables, &graph)?,
        "loops" => add_loop_answers(alloc, &mut shown, modules, &tables, &graph)?,
        _ => return Err(Stop::Memory),
    }
    Ok(shown)
}

fn answer_of(alloc: Global, kind: &str, text: &Text) -> Result<String, Stop> {
    let modules = modules_of(alloc, text)?;
    if kind == "storage" {
        let mut shown = String::new(alloc);
        add_storage(alloc, &mut shown, &modules)?;
        return Ok(shown);
    }
    linked_answer(alloc, kind, &modules)
}

/// What is printed of a program, of which the words say what is asked for.
pub fn answer(alloc: Global, words: &str, text: &Text) -> Result<String, Memory> {
    let kind = words.split_whitespace().next().unwrap_or("");
    match answer_of(alloc, kind, text) {
        Ok(shown) => Ok(shown),
        Err(Stop::Refused(told)) => Ok(told),
        Err(Stop::Memory) => Err(Memory),
    }
}
