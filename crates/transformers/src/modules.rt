//! What a module does to tracked cells, at each statement and as its callers see it.
ghost use Rattle.std.specs.Prelude.{◌≡◌, map, filter, IfOk};
ghost use Rattle.affine_systems.specs.Terms.{number};
ghost use Rattle.affine_systems.specs.Given.{Fits};
ghost use Rattle.f77_ast.specs.PlainStmt.{stmt_trees};
ghost use Rattle.f77_ast.specs.Symbols.{symbol_tree};
ghost use Rattle.f77_ast.specs.Summaries.{summary_in};
ghost use Rattle.call_translation.specs.Scopes.{scope_of};
ghost use Rattle.transformers.specs.Given.{CalleesFit, ResultsFit};
ghost use Rattle.transformers.specs.Modules.{is_visible_to_callers as goes_out_is, hidden_vars as hidden_vars_is, summary_of as summary_of_is, transformers_of};

use crate::statement::{TransformerContext, with_list};
use affine_systems::{System, Var};
use call_graph::View;
use call_translation::transformer_algebra::Transformer;
use call_translation::{CellScope, tracked_of};
use f77_ast::{EffectSet, Place, Results, Summaries, Symbols};
use fx_lists::List;
use hull_projection::{add_rows, project_owned};
use std::alloc::{AllocError as Memory, Global};

/// Whether callers see a symbol: a dummy, or a variable of a block.
fn is_visible_to_callers(symbols: &Symbols, number: u32) -> bool
    ensures { result ≡ goes_out_is (map symbol_tree symbols.now) number }
{
    match symbols.symbol(number) {
        None => false,
        Some(symbol) => match &symbol.place {
            Place::Dummy(_) | Place::Block(..) => true,
            Place::Local(..) | Place::Constant(_) => false,
        },
    }
}

/// The number of the symbol that a variable is of.
fn number_of(v: Var) -> u32
    ensures { result ≡ number v }
{
    match v {
        Var::Cell(n) | Var::Exit(n) | Var::Aux(n) => n,
        Var::Phi(n) => u32::from(n),
    }
}

/// The variables of a system that callers do not see. Each is looked up among those before it.
#[tactic(auto, using(crate::proofs::Steps::lists))]
fn hidden_vars(alloc: Global, symbols: &Symbols, s: &System) -> Result<List<Var>, Memory>
    ensures { IfOk result (λ vs. vs ≡ hidden_vars_is (map symbol_tree symbols.now) s.now) }
{
    let mut all = Vec::new(alloc);
    add_rows(&mut all, s.rows.as_slice())?;
    let mut hidden = List::new(alloc);
    let mut rest = all.as_slice();
    while let [v, more @ ..] = rest {
        if !is_visible_to_callers(symbols, number_of(*v)) {
            hidden.push(*v)?;
        }
        rest = more;
    }
    Ok(hidden)
}

/// The cells that callers see.
#[tactic(auto, using(crate::proofs::Steps::lists))]
fn seen_cells(alloc: Global, symbols: &Symbols, cells: &[u32]) -> Result<List<u32>, Memory>
    ensures { IfOk result (λ cs. cs ≡ filter (goes_out_is (map symbol_tree symbols.now)) cells.now) }
{
    let mut seen = List::new(alloc);
    let mut rest = cells;
    while let [cell, more @ ..] = rest {
        if is_visible_to_callers(symbols, *cell) {
            seen.push(*cell)?;
        }
        rest = more;
    }
    Ok(seen)
}

/// Of a module whose body has this transformer.
fn summary_of(alloc: Global, symbols: &Symbols, whole: Transformer) -> Result<Transformer, Memory>
    requires { Fits whole.system }
    ensures defined { IfOk result (λ t. t ≡ summary_of_is (map symbol_tree symbols.now) whole) }
    ensures fits { IfOk result (λ t. Fits t.system) }
{
    let hidden = hidden_vars(alloc, symbols, &whole.system)?;
    Ok(Transformer {
        cells: seen_cells(alloc, symbols, whole.cells.as_slice())?,
        foreign: whole.foreign,
        system: project_owned(alloc, whole.system, &hidden)?.system,
    })
}

/// The transformers of all executable statements of a module, in the order of the text, each with its parts and with what it calls; and as
/// summary what callers see of the module, over its dummies and its variables of common blocks. The effects are not used. What a CALL of a
/// module without a summary does is left out.
pub fn transformers(
    alloc: Global,
    view: &View<'_>,
    _effects: &Results<EffectSet>,
    callees: &Summaries<Transformer>,
) -> Result<Results<Transformer>, Memory>
    requires { CalleesFit (summary_in callees.now) }
    ensures defined { IfOk result (λ r. r ≡ transformers_of (stmt_trees view.now.«module».now.body) (scope_of view.now.«module».now view.now.symbols.now view.now.graph.now.untracked) (summary_in callees.now)) }
    ensures fits { IfOk result (λ r. ResultsFit r.at × Fits r.summary.system) }
{
    let tracked = tracked_of(alloc, view)?;
    let scope = CellScope {
        symbols: view.symbols,
        tracked: &tracked,
    };
    let known = TransformerContext {
        scope: &scope,
        callees,
    };
    let mut at = List::new(alloc);
    let whole = with_list(alloc, &known, &view.module.body, true, &mut at)?;
    let summary = summary_of(alloc, view.symbols, whole)?;
    Ok(Results { at, summary })
}
