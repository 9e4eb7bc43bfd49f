//! The effects of a module, at each statement and as its callers see it.
ghost use Rattle.std.specs.Prelude.{◌≡◌, ◌++◌, [], map, filter, IfOk};
ghost use Rattle.f77_ast.specs.PlainStmt.{stmt_trees};
ghost use Rattle.f77_ast.specs.Symbols.{symbol_tree, bound_tree};
ghost use Rattle.f77_ast.specs.Summaries.{summary_in};
ghost use Rattle.effects.specs.Modules.{with_bounds, with_symbols, summary_of, cumulated_of};
ghost use Rattle.call_graph.specs.Visible.{is_visible_to_callers};

use crate::list::with_list;
use crate::reads::reads;
use crate::statement::step_reads;
use call_graph::{View, is_visible_to_callers};
use f77_ast::{
    Bound, EffectSet, Results, Summaries, Symbol, Symbols, Variable, copy_variable, union,
};
use fx_lists::List;
use std::alloc::{AllocError as Memory, Global};

fn visible_outside(
    alloc: Global,
    symbols: &Symbols,
    variables: &List<Variable>,
) -> Result<List<Variable>, Memory>
    ensures { IfOk result (λ vs. vs ≡ filter (is_visible_to_callers (map symbol_tree symbols.now)) variables.now) }
{
    let mut kept = List::new(alloc);
    let mut rest = variables.as_slice();
    while let [v, more @ ..] = rest {
        if is_visible_to_callers(symbols, v) {
            kept.push(copy_variable(v)?)?;
        }
        rest = more;
    }
    Ok(kept)
}

/// Those so far, and the variables in bounds.
fn with_bounds(
    alloc: Global,
    symbols: &Symbols,
    bounds: &List<Bound>,
    so_far: List<Variable>,
) -> Result<List<Variable>, Memory>
    ensures { IfOk result (λ vs. vs ≡ with_bounds (map bound_tree bounds.now) (map symbol_tree symbols.now) so_far) }
{
    let mut all = so_far;
    let mut rest = bounds.as_slice();
    while let [bound, more @ ..] = rest {
        let low = reads(alloc, symbols, &bound.low)?;
        let high = step_reads(alloc, symbols, &bound.high)?;
        let with_low = union(alloc, &all, &low)?;
        all = union(alloc, &with_low, &high)?;
        rest = more;
    }
    Ok(all)
}

/// The variables in the bounds of arrays.
fn bound_reads(alloc: Global, symbols: &Symbols) -> Result<List<Variable>, Memory>
    ensures { IfOk result (λ vs. vs ≡ with_symbols (map symbol_tree symbols.now) (map symbol_tree symbols.now) []) }
{
    let mut all = List::new(alloc);
    let mut rest = symbols.as_slice();
    while let [symbol, more @ ..] = rest {
        all = with_bounds(alloc, symbols, &symbol.bounds, all)?;
        rest = more;
    }
    Ok(all)
}

fn summary_of(alloc: Global, symbols: &Symbols, all: &EffectSet) -> Result<EffectSet, Memory>
    ensures { IfOk result (λ e. e ≡ summary_of all.now (map symbol_tree symbols.now)) }
{
    let bounds = bound_reads(alloc, symbols)?;
    let read = union(alloc, &all.reads, &bounds)?;
    let reads = visible_outside(alloc, symbols, &read)?;
    let writes = visible_outside(alloc, symbols, &all.writes)?;
    Ok(EffectSet {
        reads,
        writes,
        io: all.io,
        stops: all.stops,
    })
}

/// The effects of a module: at each executable statement, in the order of the text, with its parts and with what it calls; and
/// in all as callers see them, which is on dummies, variables of blocks and saved ones. The variables in the bounds of arrays
/// are read where the module is entered. Effects of a called module without a summary are left out.
pub fn cumulated_effects(
    alloc: Global,
    view: &View<'_>,
    callees: &Summaries<EffectSet>,
) -> Result<Results<EffectSet>, Memory>
    ensures { IfOk result (λ r. r ≡ cumulated_of (stmt_trees view.now.«module».now.body) (summary_in callees.now) (map symbol_tree view.now.symbols.now)) }
{
    let mut at = List::new(alloc);
    let all = with_list(
        alloc,
        view.symbols,
        callees,
        &view.module.body,
        EffectSet::none(alloc),
        &mut at,
    )?;
    let summary = summary_of(alloc, view.symbols, &all)?;
    Ok(Results { at, summary })
}
