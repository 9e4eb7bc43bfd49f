//! READ and WRITE regions of a module.
ghost use Rattle.std.specs.Prelude.{◌≡◌, IfOk};
ghost use Rattle.f77_ast.specs.PlainStmt.{stmt_trees};
ghost use Rattle.f77_ast.specs.Summaries.{summary_in};
ghost use Rattle.transformers.specs.call_translation.Scopes.{scope_of};
ghost use Rattle.transformers.specs.Given.{ResultsFit};
ghost use Rattle.region_translation.specs.region_sets.Lists.{SetsFit};
ghost use Rattle.region_translation.specs.region_sets.Sets.{SetFits};
ghost use Rattle.array_regions.specs.Calls.{CalleesFit};
ghost use Rattle.array_regions.specs.Modules.{regions_with};

use crate::context::RegionContext;
use crate::entry::summary_of;
use crate::statement::list_set;
use call_graph::View;
use f77_ast::{Results, Summaries};
use fx_lists::List;
use region_translation::call_equations::changed_cells;
use region_translation::region_sets::RegionSet;
use std::alloc::{AllocError as Memory, Global};
use transformers::call_translation::{CellScope, tracked_of};
use transformers::transformer_algebra::Transformer;

/// The READ and WRITE regions of each executable statement of a module, in the order of the text, each with its parts and with what it calls,
/// from the transformers `own` and the summaries of the modules that it calls; and as summary those that callers see. What a CALL of a module
/// without a summary accesses is left out. Err also where an array has more than 254 dimensions.
pub fn regions(
    alloc: Global,
    view: &View<'_>,
    own: &Results<Transformer>,
    callees: &Summaries<RegionSet>,
) -> Result<Results<RegionSet>, Memory>
    requires own { ResultsFit own.now.at }
    requires callees { CalleesFit (summary_in callees.now) }
    ensures defined { IfOk result (λ r. r ≡ regions_with (stmt_trees view.now.«module».now.body) (scope_of view.now.«module».now view.now.symbols.now view.now.graph.now.untracked) view.now.graph.now.untracked own.now.at (summary_in callees.now)) }
    ensures fits { IfOk result (λ r. SetsFit r.at × SetFits r.summary) }
{
    let tracked = tracked_of(alloc, view)?;
    let scope = CellScope {
        symbols: view.symbols,
        tracked: &tracked,
    };
    let changed = changed_cells(alloc, own)?;
    let known = RegionContext {
        view,
        scope: &scope,
        own,
        changed: &changed,
        callees,
    };
    let mut at = List::new(alloc);
    let body = list_set(alloc, &known, &view.module.body, true, &mut at)?;
    let summary = summary_of(alloc, &scope, body.as_slice())?;
    Ok(Results { at, summary })
}
