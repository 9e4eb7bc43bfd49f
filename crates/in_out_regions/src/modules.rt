//! IN regions of a module.
ghost use Rattle.std.specs.Prelude.{◌≡◌, IfOk};
ghost use Rattle.f77_ast.specs.PlainStmt.{stmt_trees};
ghost use Rattle.array_regions.specs.call_translation.Scopes.{scope_tree, scope_of};
ghost use Rattle.f77_ast.specs.Summaries.{summary_in};
ghost use Rattle.array_regions.specs.Calls.{CalleesFit};
ghost use Rattle.array_regions.specs.transformers.Given.{ResultsFit};
ghost use Rattle.array_regions.specs.region_sets.Lists.{SetsFit};
ghost use Rattle.array_regions.specs.region_sets.Sets.{SetFits};
ghost use Rattle.in_out_regions.specs.Modules.{summary_of as summary_of_is, ins_with};

use crate::context::InContext;
use crate::kinds::push_in;
use crate::statement::list_set;
use array_regions::call_equations::changed_cells;
use array_regions::call_translation::{CellScope, tracked_of};
use array_regions::region_sets::{Region, RegionSet, push_regions, unite_all};
use array_regions::transformer_algebra::Transformer;
use array_regions::{RegionContext, all_seen, entry_reads};
use call_graph::View;
use f77_ast::{Results, Summaries};
use fx_lists::List;
use std::alloc::{AllocError as Memory, Global};

/// The IN regions of a module that its callers see, from those of its body.
fn summary_of(alloc: Global, scope: &CellScope<'_>, body: &[Region]) -> Result<RegionSet, Memory>
    requires { SetFits body.now }
    ensures defined { IfOk result (λ rs. rs ≡ summary_of_is (scope_tree scope.now.symbols.now scope.now.tracked.now) body.now) }
    ensures fits { IfOk result SetFits }
{
    let read = entry_reads(alloc, scope)?;
    let mut all = List::new(alloc);
    push_in(alloc, &mut all, read.as_slice())?;
    push_regions(alloc, &mut all, body)?;
    let set = unite_all(alloc, all.as_slice())?;
    let out = all_seen(alloc, scope.symbols, set.as_slice())?;
    unite_all(alloc, out.as_slice())
}

/// The IN regions of each executable statement of a module, in the order of the text, each with its parts: which elements it reads before it writes them. From
/// the transformers `own` and the READ and WRITE regions of the module; and as summary those that callers see. Err also where an array has more than 254
/// dimensions.
pub fn in_regions(
    alloc: Global,
    view: &View<'_>,
    own: &Results<Transformer>,
    regions: &Results<RegionSet>,
    callees: &Summaries<RegionSet>,
) -> Result<Results<RegionSet>, Memory>
    requires own { ResultsFit own.now.at }
    requires regions { SetsFit regions.now.at }
    requires callees { CalleesFit (summary_in callees.now) }
    ensures defined { IfOk result (λ r. r ≡ ins_with (stmt_trees view.now.«module».now.body) (scope_of view.now.«module».now view.now.symbols.now view.now.graph.now.untracked) view.now.graph.now.untracked own.now.at regions.now.at (summary_in callees.now)) }
    ensures fits { IfOk result (λ r. SetsFit r.at × SetFits r.summary) }
{
    let tracked = tracked_of(alloc, view)?;
    let scope = CellScope {
        symbols: view.symbols,
        tracked: &tracked,
    };
    let changed = changed_cells(alloc, own)?;
    let around = RegionContext {
        view,
        scope: &scope,
        own,
        changed: &changed,
        callees,
    };
    let known = InContext {
        around: &around,
        regions: &regions.at,
    };
    let mut at = List::new(alloc);
    let body = list_set(alloc, &known, &view.module.body, true, &mut at)?;
    let summary = summary_of(alloc, &scope, body.as_slice())?;
    Ok(Results { at, summary })
}
