//! The effects of modules and of their statements.

use crate::shown::text_of;
use crate::variables::add_variable;
use call_graph::{Graph, View};
use effects::{cumulated_effects, proper};
use f77_ast::{
    Arm, EffectSet, Loop, Parsed, Results, Stmt, Summaries, Symbols, Variable, What, copy_effect,
};
use fx_lists::List;
use std::alloc::{AllocError as Memory, Global};
use tracked_cells::Names;

fn add_variables(
    alloc: Global,
    shown: &mut String,
    symbols: &Symbols,
    variables: &List<Variable>,
) -> Result<(), Memory> {
    for v in variables.as_slice() {
        add_variable(alloc, shown, symbols, v)?;
    }
    Ok(())
}

/// A line: what it is of, the variables that are read and written, and the flags.
fn add_effect(
    alloc: Global,
    shown: &mut String,
    symbols: &Symbols,
    of: &str,
    effect: &EffectSet,
) -> Result<(), Memory> {
    shown.push_str(of)?;
    shown.push_str(" reads")?;
    add_variables(alloc, shown, symbols, &effect.reads)?;
    shown.push_str(" writes")?;
    add_variables(alloc, shown, symbols, &effect.writes)?;
    if effect.io {
        shown.push_str(" io")?;
    }
    if effect.stops {
        shown.push_str(" stops")?;
    }
    shown.push_str("\n")
}

/// The own effects of a statement and of its parts.
#[cycle(own)]
fn add_own(alloc: Global, shown: &mut String, view: &View<'_>, stmt: &Stmt) -> Result<(), Memory> {
    let id = stmt.id;
    let effect = proper(alloc, view, stmt)?;
    let of = format!(in alloc; "{id} own")?;
    add_effect(alloc, shown, view.symbols, of.as_str(), &effect)?;
    match &stmt.what {
        What::If(arms, other) => {
            add_arms(alloc, shown, view, arms)?;
            match other {
                None => Ok(()),
                Some(body) => add_list(alloc, shown, view, body),
            }
        }
        What::LogicalIf(_, inner) => add_own(alloc, shown, view, inner),
        What::Do(l) => add_loop(alloc, shown, view, l),
        What::Assign(..)
        | What::Call(..)
        | What::Goto(_)
        | What::Continue
        | What::Return
        | What::Stop(_)
        | What::Print(_)
        | What::Read(_) => Ok(()),
    }
}

#[cycle(own)]
fn add_loop(alloc: Global, shown: &mut String, view: &View<'_>, l: &Loop) -> Result<(), Memory> {
    add_list(alloc, shown, view, &l.body)
}

#[cycle(own)]
fn add_arms(
    alloc: Global,
    shown: &mut String,
    view: &View<'_>,
    arms: &List<Arm>,
) -> Result<(), Memory> {
    for arm in arms.as_slice() {
        add_list(alloc, shown, view, &arm.body)?;
    }
    Ok(())
}

#[cycle(own)]
fn add_list(
    alloc: Global,
    shown: &mut String,
    view: &View<'_>,
    list: &List<Stmt>,
) -> Result<(), Memory> {
    for stmt in list.as_slice() {
        add_own(alloc, shown, view, stmt)?;
    }
    Ok(())
}

fn add_results(
    alloc: Global,
    shown: &mut String,
    symbols: &Symbols,
    results: &Results<EffectSet>,
) -> Result<(), Memory> {
    for at in results.at.as_slice() {
        let id = at.id;
        let of = format!(in alloc; "{id} all")?;
        add_effect(alloc, shown, symbols, of.as_str(), &at.value)?;
    }
    add_effect(alloc, shown, symbols, "summary", &results.summary)
}

/// The effects of a module, whose summary is added to those of its callees.
fn add_module(
    alloc: Global,
    shown: &mut String,
    view: &View<'_>,
    known: &mut Summaries<EffectSet>,
) -> Result<(), Memory> {
    let name = text_of(&view.module.name);
    let title = format!(in alloc; "module {name}\n")?;
    shown.push_str(title.as_str())?;
    add_list(alloc, shown, view, &view.module.body)?;
    let results = cumulated_effects(alloc, view, known)?;
    add_results(alloc, shown, view.symbols, &results)?;
    known.add(
        &view.module.name,
        view.symbols,
        copy_effect(alloc, &results.summary)?,
    )
}

/// The effects of each module and its statements, callees first.
pub fn add_effects(
    alloc: Global,
    shown: &mut String,
    modules: &List<Parsed>,
    tables: &List<Symbols>,
    graph: &Graph,
) -> Result<(), Memory> {
    let names = Names::of(alloc, modules)?;
    let mut known = Summaries::new(alloc);
    for name in graph.order.as_slice() {
        let Some(place) = names.place(name) else {
            return Err(Memory);
        };
        match (modules.get(place as usize), tables.get(place as usize)) {
            (Some(parsed), Some(symbols)) => {
                let view = View {
                    module: &parsed.module,
                    symbols,
                    graph,
                };
                add_module(alloc, shown, &view, &mut known)?;
            }
            _ => return Err(Memory),
        }
    }
    Ok(())
}
