//! OUT regions of a module.
ghost use Rattle.std.specs.Prelude.{◌≡◌, IfOk};
ghost use Rattle.f77_ast.specs.PlainStmt.{stmt_trees};
ghost use Rattle.in_out_regions.specs.call_translation.Scopes.{scope_tree, scope_of};
ghost use Rattle.in_out_regions.specs.transformers.Given.{ResultsFit};
ghost use Rattle.in_out_regions.specs.region_sets.Lists.{SetsFit};
ghost use Rattle.in_out_regions.specs.region_sets.Sets.{SetFits};
ghost use Rattle.out_regions.specs.Modules.{summary_of as summary_of_is, outs_with};

use crate::context::OutContext;
use crate::statement::{body_out, put_list};
use call_graph::View;
use f77_ast::Results;
use fx_lists::List;
use in_out_regions::array_regions::all_seen;
use in_out_regions::call_translation::{CellScope, tracked_of};
use in_out_regions::region_sets::{Region, RegionSet, unite_all};
use in_out_regions::transformer_algebra::Transformer;
use std::alloc::{AllocError as Memory, Global};

/// OUT that the callers of a module see.
fn summary_of(alloc: Global, scope: &CellScope<'_>, out: &[Region]) -> Result<RegionSet, Memory>
    requires { SetFits out.now }
    ensures defined { IfOk result (λ rs. rs ≡ summary_of_is (scope_tree scope.now.symbols.now scope.now.tracked.now) out.now) }
    ensures fits { IfOk result SetFits }
{
    let set = unite_all(alloc, out)?;
    let seen = all_seen(alloc, scope.symbols, set.as_slice())?;
    unite_all(alloc, seen.as_slice())
}

/// The OUT regions of each executable statement of a module, in the order of the text, each with its parts: which elements it may write that the rest of
/// the run may read before they are written again. From the transformers `own`, READ and WRITE, and IN of the module, and from what its callers may read
/// behind it: `later`, none for a main program. And as summary those that callers see.
pub fn out_regions(
    alloc: Global,
    view: &View<'_>,
    own: &Results<Transformer>,
    regions: &Results<RegionSet>,
    ins: &Results<RegionSet>,
    later: &[Region],
) -> Result<Results<RegionSet>, Memory>
    requires own { ResultsFit own.now.at }
    requires regions { SetsFit regions.now.at }
    requires ins { SetsFit ins.now.at }
    requires later { SetFits later.now }
    ensures defined { IfOk result (λ r. r ≡ outs_with (stmt_trees view.now.«module».now.body) (scope_of view.now.«module».now view.now.symbols.now view.now.graph.now.untracked) own.now.at regions.now.at ins.now.at later.now) }
    ensures fits { IfOk result (λ r. SetsFit r.at × SetFits r.summary) }
{
    let tracked = tracked_of(alloc, view)?;
    let scope = CellScope {
        symbols: view.symbols,
        tracked: &tracked,
    };
    let known = OutContext {
        view,
        scope: &scope,
        own,
        regions: &regions.at,
        ins: &ins.at,
    };
    let body = &view.module.body;
    let out = body_out(alloc, &known, true, body, later)?;
    let mut at = List::new(alloc);
    put_list(alloc, &known, true, body, out.as_slice(), &mut at)?;
    let summary = summary_of(alloc, &scope, out.as_slice())?;
    Ok(Results { at, summary })
}
