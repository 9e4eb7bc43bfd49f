//! IN of a CALL.
ghost use Rattle.std.specs.Prelude.{◌≡◌, Some, IfOk};
ghost use Rattle.f77_ast.specs.Plain.{expr_trees};
ghost use Rattle.f77_ast.specs.Summaries.{summary_tree};
ghost use Rattle.array_regions.specs.region_sets.Sets.{SetFits};
ghost use Rattle.array_regions.specs.Known.{scope_in};
ghost use Rattle.in_out_regions.specs.Calls.{summary_in as summary_in_is};
ghost use Rattle.in_out_regions.specs.Contexts.{known_in, KnownFits};

use crate::context::InContext;
use crate::kinds::push_in;
use array_regions::region_sets::{RegionSet, unite_all};
use array_regions::{RegionContext, push_actuals_reads, push_callee};
use f77_ast::{Expr, Summary};
use fx_lists::{List, Text};
use std::alloc::{AllocError as Memory, Global};

/// Of a CALL of the module with a summary.
fn summary_in(
    alloc: Global,
    known: &RegionContext<'_>,
    name: &Text,
    actuals: &List<Expr>,
    callee: &Summary<RegionSet>,
) -> Result<RegionSet, Memory>
    requires { SetFits callee.now.value }
    ensures defined { IfOk result (λ rs. rs ≡ summary_in_is (scope_in known.now) known.now.changed.now known.now.view.now.graph.now.untracked name.now (expr_trees actuals.now) (Some (summary_tree callee.now))) }
    ensures fits { IfOk result SetFits }
{
    let mut read = List::new(alloc);
    push_actuals_reads(alloc, &mut read, known.scope, actuals)?;
    let mut all = List::new(alloc);
    push_in(alloc, &mut all, read.as_slice())?;
    push_callee(alloc, &mut all, known, name, actuals, callee)?;
    unite_all(alloc, all.as_slice())
}

/// The IN regions of a CALL (ANSI X3.9-1978, §15.9): what its actuals read, and the IN regions of the callee, in the terms of the caller; none where the callee
/// has no summary.
#[tactic(auto, using(crate::proofs::CallLaws::summaries))]
pub fn call_in(
    alloc: Global,
    known: &InContext<'_>,
    name: &Text,
    actuals: &List<Expr>,
) -> Result<RegionSet, Memory>
    requires { KnownFits known.now }
    ensures defined { IfOk result (λ rs. rs ≡ (known_in known.now).called name.now (expr_trees actuals.now)) }
    ensures fits { IfOk result SetFits }
{
    match known.around.callees.get(name) {
        None => Ok(List::new(alloc)),
        Some(callee) => summary_in(alloc, known.around, name, actuals, callee),
    }
}
