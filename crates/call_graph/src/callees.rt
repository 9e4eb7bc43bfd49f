//! Whether the CALLs of a program fit what they call.
ghost use Rattle.std.specs.Prelude.{◌≡◌, ◌≤◌, ◌++◌, [], length, map, IfOk};
ghost use Rattle.f77_ast.specs.PlainDecl.{parsed_tree, module_tree};
ghost use Rattle.f77_ast.specs.Symbols.{symbol_tree};
ghost use Rattle.call_graph.specs.Modules.{most_modules};
ghost use Rattle.call_graph.specs.Callees.{takes_call, against, call_cause, first_in, unfit_from, place_put, found_put, places_of, all_places, edge_of, edges_of, all_edges};

use crate::actuals::all_fit;
use crate::calls::{Called, Calls};
use crate::graph::Edge;
use crate::modules::call_line;
use crate::order::holds;
use crate::refusal::Fault;
use f77_ast::{FunctionForm, Module, Parsed, StmtId, Symbols};
use fx_lists::{Code, List, Text};
use std::alloc::{AllocError as Memory, Global};
use tracked_cells::Names;

/// Whether a CALL of this number is one of a module of this form: a hidden one calls a function, any other a subroutine.
fn takes_call(at: StmtId, function: Option<FunctionForm>) -> bool
    ensures { result ≡ takes_call at function }
{
    match function {
        None => at <= 4096,
        Some(_) => at > 4096,
    }
}

/// Why a CALL of this module, with this table, does not fit.
fn against(call: &Called, callee: &Module, table: &Symbols) -> Option<Code>
    ensures { result ≡ against call.now (module_tree callee.now) (map symbol_tree table.now) }
{
    if callee.main {
        return Some(Code::NoSuchModule);
    }
    if !takes_call(call.at, callee.function) {
        return Some(Code::NoSuchModule);
    }
    if call.actuals.len() != callee.dummies.len() {
        return Some(Code::ArgumentCount);
    }
    if all_fit(call.actuals.as_slice(), table.as_slice()) {
        None
    } else {
        Some(Code::ArgumentType)
    }
}

/// Why a CALL does not fit.
fn call_cause(
    call: &Called,
    names: &Names,
    modules: &List<Parsed>,
    tables: &List<Symbols>,
) -> Option<Code>
    ensures { result ≡ call_cause call.now names.now (map parsed_tree modules.now) (map (map symbol_tree) tables.now) }
{
    let Some(place) = names.place(&call.callee) else {
        return Some(Code::NoSuchModule);
    };
    match (modules.get(place as usize), tables.get(place as usize)) {
        (Some(callee), Some(table)) => against(call, &callee.module, table),
        _ => Some(Code::NoSuchModule),
    }
}

/// The number and the cause of the first CALL that does not fit.
fn first_in(
    calls: &Calls,
    names: &Names,
    modules: &List<Parsed>,
    tables: &List<Symbols>,
) -> Option<(StmtId, Code)>
    ensures { result ≡ first_in calls.now names.now (map parsed_tree modules.now) (map (map symbol_tree) tables.now) }
{
    let mut rest = calls.as_slice();
    while let [call, more @ ..] = rest {
        if let Some(cause) = call_cause(call, names, modules, tables) {
            return Some((call.at, cause));
        }
        rest = more;
    }
    None
}

/// The fault of the first CALL that does not fit, in the order of the modules and of their texts: of no subroutine, with
/// another number of actuals than of dummies, or with an actual that does not fit. None where all fit. The lists have one
/// element for each module; `names` are the names of the modules.
pub fn unfit(
    calls: &List<Calls>,
    names: &Names,
    modules: &List<Parsed>,
    tables: &List<Symbols>,
) -> Option<Fault>
    requires { length modules.now ≤ most_modules }
    ensures { result ≡ unfit_from 0 (map parsed_tree modules.now) calls.now names.now (map parsed_tree modules.now) (map (map symbol_tree) tables.now) }
{
    let mut place = 0u32;
    let mut rest = modules.as_slice();
    let mut others = calls.as_slice();
    while let [parsed, more @ ..] = rest {
        match others {
            [] => return None,
            [own, later @ ..] => {
                if let Some((at, cause)) = first_in(own, names, modules, tables) {
                    let line = call_line(parsed, at);
                    return Some(Fault::At(place, line, cause));
                }
                others = later;
            }
        }
        place += 1;
        rest = more;
    }
    None
}

/// Adds a place, unless it is there. There are few.
fn put(places: &mut List<u32>, place: u32) -> Result<(), Memory>
    ensures { IfOk result (λ _. places.new ≡ place_put place places.old) }
{
    if holds(places, place) {
        return Ok(());
    }
    places.push(place)
}

fn put_found(places: &mut List<u32>, found: Option<u32>) -> Result<(), Memory>
    ensures { IfOk result (λ _. places.new ≡ found_put found places.old) }
{
    match found {
        None => Ok(()),
        Some(place) => put(places, place),
    }
}

/// The places of the modules that these CALLs call, each once.
fn places_of(alloc: Global, names: &Names, calls: &Calls) -> Result<List<u32>, Memory>
    ensures { IfOk result (λ ps. ps ≡ places_of calls.now names.now []) }
{
    let mut places = List::new(alloc);
    let mut rest = calls.as_slice();
    while let [call, more @ ..] = rest {
        put_found(&mut places, names.place(&call.callee))?;
        rest = more;
    }
    Ok(places)
}

/// For each module, in their order, the places from 0 of the modules that it calls, each once, in the order of its CALLs. A
/// name of no module is left out. Takes time of the CALLs of a module times its callees.
pub fn all_places(
    alloc: Global,
    names: &Names,
    calls: &List<Calls>,
) -> Result<List<List<u32>>, Memory>
    ensures { IfOk result (λ pss. pss ≡ all_places names.now calls.now) }
{
    let mut all = List::new(alloc);
    let mut rest = calls.as_slice();
    while let [own, more @ ..] = rest {
        all.push(places_of(alloc, names, own)?)?;
        rest = more;
    }
    Ok(all)
}

fn edge(caller: &Text, call: &Called) -> Result<Edge, Memory>
    ensures { IfOk result (λ e. e ≡ edge_of caller.now call.now) }
{
    Ok(Edge {
        caller: caller.clone()?,
        at: call.at,
        callee: call.callee.clone()?,
    })
}

/// Adds the CALLs of one module.
fn add_edges(edges: &mut List<Edge>, caller: &Text, calls: &Calls) -> Result<(), Memory>
    ensures { IfOk result (λ _. edges.new ≡ edges.old ++ edges_of caller.now calls.now) }
{
    let mut rest = calls.as_slice();
    while let [call, more @ ..] = rest {
        edges.push(edge(caller, call)?)?;
        rest = more;
    }
    Ok(())
}

/// The CALLs of a program, in the order of the modules and of their texts; `names` are the names of the modules.
pub fn all_edges(alloc: Global, names: &Names, calls: &List<Calls>) -> Result<List<Edge>, Memory>
    ensures { IfOk result (λ es. es ≡ all_edges names.now calls.now) }
{
    let mut edges = List::new(alloc);
    let mut rest = names.names();
    let mut others = calls.as_slice();
    while let [caller, more @ ..] = rest {
        match others {
            [] => return Ok(edges),
            [own, later @ ..] => {
                add_edges(&mut edges, caller, own)?;
                others = later;
            }
        }
        rest = more;
    }
    Ok(edges)
}
