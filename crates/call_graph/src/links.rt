//! From the modules of a program to its graph.
ghost use Rattle.std.specs.Prelude.{◌≡◌, ◌≤◌, length, map, IfOk};
ghost use Rattle.f77_ast.specs.PlainDecl.{parsed_tree};
ghost use Rattle.f77_ast.specs.Symbols.{symbol_tree};
ghost use Rattle.call_graph.specs.Faults.{Gives};
ghost use Rattle.call_graph.specs.Modules.{most_modules, names_of};
ghost use Rattle.call_graph.specs.Links.{program_calls, graph_from, module_fault, acyclic_of, joined_of, named_of, link_of};

use crate::blocks::blocks_of;
use crate::callees::{all_edges, all_places, unfit};
use crate::calls::{Calls, all_calls};
use crate::graph::Graph;
use crate::modules::{main_twice, name_twice, no_main, too_many};
use crate::order::names_in_order;
use crate::recursion::recursion;
use crate::refusal::{Fault, LinkRefusal, refusal_of};
use f77_ast::{Parsed, Symbols};
use fx_lists::List;
use std::alloc::{AllocError as Memory, Global};
use tracked_cells::{Names, untracked_of};

/// What is wrong with the modules before their CALLs are looked at.
fn module_fault(modules: &List<Parsed>, names: &Names) -> Option<Fault>
    requires few { length modules.now ≤ most_modules }
    requires named { names.now ≡ names_of (map parsed_tree modules.now) }
    ensures { result ≡ module_fault (map parsed_tree modules.now) }
{
    if let Some(fault) = name_twice(modules, names) {
        return Some(fault);
    }
    if let Some(fault) = main_twice(modules) {
        return Some(fault);
    }
    no_main(modules)
}

fn graph_of(
    alloc: Global,
    modules: &List<Parsed>,
    tables: &List<Symbols>,
    names: &Names,
    calls: &List<Calls>,
    callees: &List<List<u32>>,
) -> Result<Graph, Memory>
    requires { length callees.now ≤ most_modules }
    ensures { IfOk result (λ g. g ≡ graph_from (map parsed_tree modules.now) (map (map symbol_tree) tables.now) names.now calls.now callees.now) }
{
    let order = names_in_order(alloc, names, callees)?;
    let edges = all_edges(alloc, names, calls)?;
    let blocks = blocks_of(alloc, tables)?;
    let untracked = untracked_of(alloc, modules, tables)?;
    Ok(Graph {
        order,
        edges,
        blocks,
        untracked,
    })
}

/// Links modules whose CALLs fit.
fn link_fitting(
    alloc: Global,
    modules: &List<Parsed>,
    tables: &List<Symbols>,
    names: &Names,
    calls: &List<Calls>,
) -> Result<Graph, LinkRefusal>
    requires few { length modules.now ≤ most_modules }
    requires named { names.now ≡ names_of (map parsed_tree modules.now) }
    requires called { calls.now ≡ program_calls (map parsed_tree modules.now) (map (map symbol_tree) tables.now) }
    ensures { Gives result (acyclic_of (map parsed_tree modules.now) (map (map symbol_tree) tables.now)) }
{
    let callees = all_places(alloc, names, calls)?;
    let found = recursion(alloc, names, modules, calls, &callees)?;
    match found {
        Some(fault) => Err(refusal_of(fault)),
        None => {
            let graph = graph_of(alloc, modules, tables, names, calls, &callees)?;
            Ok(graph)
        }
    }
}

/// Links modules that are few, have different names, and one main program.
fn link_distinct(
    alloc: Global,
    modules: &List<Parsed>,
    tables: &List<Symbols>,
    names: &Names,
) -> Result<Graph, LinkRefusal>
    requires few { length modules.now ≤ most_modules }
    requires named { names.now ≡ names_of (map parsed_tree modules.now) }
    ensures { Gives result (joined_of (map parsed_tree modules.now) (map (map symbol_tree) tables.now)) }
{
    let calls = all_calls(alloc, modules, tables)?;
    match unfit(&calls, names, modules, tables) {
        Some(fault) => Err(refusal_of(fault)),
        None => link_fitting(alloc, modules, tables, names, &calls),
    }
}

/// Links modules that are few.
fn link_few(
    alloc: Global,
    modules: &List<Parsed>,
    tables: &List<Symbols>,
) -> Result<Graph, LinkRefusal>
    requires few { length modules.now ≤ most_modules }
    ensures { Gives result (named_of (map parsed_tree modules.now) (map (map symbol_tree) tables.now)) }
{
    let names = Names::of(alloc, modules)?;
    match module_fault(modules, &names) {
        Some(fault) => Err(refusal_of(fault)),
        None => link_distinct(alloc, modules, tables, &names),
    }
}

/// The graph of a program from its modules, each with its table of symbols. Err is the first refusal in this order: more than
/// 256 modules, a name twice, a second main program, no main program, a CALL that does not fit, recursion (codes 57, 52, 51, 50,
/// 53 to 55, 56).
pub fn link(
    alloc: Global,
    modules: &List<Parsed>,
    tables: &List<Symbols>,
) -> Result<Graph, LinkRefusal>
    requires one_each { length modules.now ≡ length tables.now }
    ensures { Gives result (link_of (map parsed_tree modules.now) (map (map symbol_tree) tables.now)) }
{
    match too_many(modules) {
        Some(fault) => Err(refusal_of(fault)),
        None => link_few(alloc, modules, tables),
    }
}
