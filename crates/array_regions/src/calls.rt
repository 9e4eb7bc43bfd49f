//! READ and WRITE of a CALL.
ghost use Rattle.std.specs.Prelude.{◌≡◌, ◌++◌, map, IfOk, IfSome, OnOk, option_to_list};
ghost use Rattle.f77_ast.specs.Plain.{expr_trees};
ghost use Rattle.f77_ast.specs.Summaries.{summary_in};
ghost use Rattle.f77_ast.specs.Symbols.{symbol_tree};
ghost use Rattle.region_translation.specs.region_sets.Regions.{RegionFits};
ghost use Rattle.region_translation.specs.region_sets.Sets.{SetFits};
ghost use Rattle.region_translation.specs.call_equations.Sides.{sides_tree};
ghost use Rattle.array_regions.specs.Calls.{sides, all_in_caller, summary_in_caller};
ghost use Rattle.array_regions.specs.Known.{scope_in, called_in, KnownFits};

use crate::context::RegionContext;
use crate::reads::push_actuals_reads;
use f77_ast::{Expr, Summary};
use fx_lists::{List, Text};
use region_translation::call_equations::{CallSides, entry_cells};
use region_translation::region_sets::{Region, RegionSet, push_region, unite_all};
use region_translation::to_caller;
use std::alloc::{AllocError as Memory, Global};
use transformers::call_translation::CellScope;

/// Adds a region, where there is one.
#[tactic(auto, using(crate::proofs::Fitting::fitting))]
pub fn push_maybe(out: &mut RegionSet, r: Option<Region>) -> Result<(), Memory>
    requires out { SetFits out.old }
    requires r { IfSome r RegionFits }
    ensures added { OnOk result (out.new ≡ out.old ++ option_to_list r) }
    ensures fits { OnOk result (SetFits out.new) }
{
    match r {
        None => Ok(()),
        Some(r) => push_region(out, r),
    }
}

/// Adds regions of the callee in the terms of the caller; what is nothing to the caller is left out.
#[tactic(auto, using(crate::proofs::Fitting::fitting))]
fn push_in_caller(
    alloc: Global,
    out: &mut RegionSet,
    call: &CallSides<'_>,
    set: &[Region],
) -> Result<(), Memory>
    requires out { SetFits out.old }
    requires set { SetFits set.now }
    ensures added { OnOk result (out.new ≡ out.old ++ all_in_caller (sides_tree call.now) set.now) }
    ensures fits { OnOk result (SetFits out.new) }
{
    let mut rest = set;
    while let [r, more @ ..] = rest {
        push_maybe(out, to_caller(alloc, call, r)?)?;
        rest = more;
    }
    Ok(())
}

/// Adds what the callee of a CALL accesses, in the terms of the caller.
pub fn push_callee(
    alloc: Global,
    out: &mut RegionSet,
    known: &RegionContext<'_>,
    name: &Text,
    actuals: &List<Expr>,
    callee: &Summary<RegionSet>,
) -> Result<(), Memory>
    requires out { SetFits out.old }
    requires callee { SetFits callee.now.value }
    ensures added { OnOk result (out.new ≡ out.old ++ all_in_caller (sides (scope_in known.now) known.now.changed.now known.now.view.now.graph.now.untracked name.now (expr_trees actuals.now) (map symbol_tree callee.now.symbols)) callee.now.value) }
    ensures fits { OnOk result (SetFits out.new) }
{
    let tracked = entry_cells(alloc, &callee.symbols, &known.view.graph.untracked)?;
    let entry = CellScope {
        symbols: &callee.symbols,
        tracked: &tracked,
    };
    let call = CallSides {
        caller: known.scope,
        changed: known.changed,
        name,
        actuals,
        callee: &entry,
    };
    push_in_caller(alloc, out, &call, callee.value.as_slice())
}

/// Adds the same, where a summary of the callee is known.
#[tactic(auto, using(crate::proofs::CallLaws::summaries))]
fn push_summary(
    alloc: Global,
    out: &mut RegionSet,
    known: &RegionContext<'_>,
    name: &Text,
    actuals: &List<Expr>,
) -> Result<(), Memory>
    requires out { SetFits out.old }
    requires known { KnownFits known.now }
    ensures added { OnOk result (out.new ≡ out.old ++ summary_in_caller (scope_in known.now) known.now.changed.now known.now.view.now.graph.now.untracked name.now (expr_trees actuals.now) (summary_in known.now.callees.now name.now)) }
    ensures fits { OnOk result (SetFits out.new) }
{
    match known.callees.get(name) {
        None => Ok(()),
        Some(callee) => push_callee(alloc, out, known, name, actuals, callee),
    }
}

/// The regions of a CALL (ANSI X3.9-1978, §15.9): what its actuals read, in their order, and what the summary of the callee has, in the terms
/// of the caller. The summary is looked up in constant time; its symbols are gone over once.
pub fn call_set(
    alloc: Global,
    known: &RegionContext<'_>,
    name: &Text,
    actuals: &List<Expr>,
) -> Result<RegionSet, Memory>
    requires { KnownFits known.now }
    ensures defined { IfOk result (λ rs. rs ≡ called_in known.now name.now (expr_trees actuals.now)) }
    ensures fits { IfOk result SetFits }
{
    let mut all = List::new(alloc);
    push_actuals_reads(alloc, &mut all, known.scope, actuals)?;
    push_summary(alloc, &mut all, known, name, actuals)?;
    unite_all(alloc, all.as_slice())
}
