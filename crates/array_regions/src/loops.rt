//! READ and WRITE of a DO, from those of its body.
ghost use Rattle.std.specs.Prelude.{◌≡◌, ◌++◌, ◌∷◌, [], map, IfOk, OnOk};
ghost use Rattle.f77_ast.specs.PlainStmt.{loop_tree};
ghost use Rattle.transformers.specs.call_translation.Scopes.{scope_tree};
ghost use Rattle.transformers.specs.transformer_algebra.Loops.{LoopFits};
ghost use Rattle.transformers.specs.Given.{ResultsFit};
ghost use Rattle.transformers.specs.Lists.{transformer_at as transformer_at_is};
ghost use Rattle.region_translation.specs.region_sets.Loops.{RangeFits};
ghost use Rattle.region_translation.specs.region_sets.Sets.{SetFits};
ghost use Rattle.array_regions.specs.Loops.{range_with as range_with_is, range_of as range_of_is, loop_reads, all_over, do_set as do_set_is};

use crate::reads::{push_maybe_reads, push_reads};
use crate::references::scalar;
use f77_ast::{At, Loop};
use fx_lists::List;
use region_translation::region_sets::{
    Access, Range, Region, RegionSet, over_loop, push_region, unite_all,
};
use std::alloc::{AllocError as Memory, Global};
use transformers::call_translation::CellScope;
use transformers::transformer_algebra::{LoopParts, Transformer, iteration};
use transformers::{list_at, loop_parts};

/// What a DO with these parts is to the regions of its body.
fn range_with(alloc: Global, parts: LoopParts) -> Result<Range, Memory>
    requires { LoopFits parts }
    ensures defined { IfOk result (λ g. g ≡ range_with_is parts) }
    ensures fits { IfOk result RangeFits }
{
    let once = iteration(alloc, &parts)?;
    Ok(Range {
        index: parts.index,
        first: parts.first,
        last: parts.last,
        step: parts.step,
        turn: once,
    })
}

/// What a DO is to the regions of its body.
#[tactic(auto, using(crate::proofs::Steps::range_parts))]
pub fn range_of(
    alloc: Global,
    scope: &CellScope<'_>,
    l: &Loop,
    own: &List<At<Transformer>>,
) -> Result<Range, Memory>
    requires { ResultsFit own.now }
    ensures defined { IfOk result (λ g. g ≡ range_of_is (loop_tree l.now) (scope_tree scope.now.symbols.now scope.now.tracked.now) (transformer_at_is own.now)) }
    ensures fits { IfOk result RangeFits }
{
    let body = list_at(alloc, &l.body, false, own)?;
    let parts = loop_parts(alloc, scope, l, body)?;
    range_with(alloc, parts)
}

/// Adds what the first and the last value and the step read.
#[tactic(auto, using(crate::proofs::Steps::loop_values))]
pub fn push_loop_reads(
    alloc: Global,
    out: &mut RegionSet,
    scope: &CellScope<'_>,
    l: &Loop,
) -> Result<(), Memory>
    requires { SetFits out.old }
    ensures added { OnOk result (out.new ≡ out.old ++ loop_reads (loop_tree l.now) (scope_tree scope.now.symbols.now scope.now.tracked.now)) }
    ensures fits { OnOk result (SetFits out.new) }
{
    push_reads(alloc, out, scope, &l.first)?;
    push_reads(alloc, out, scope, &l.last)?;
    push_maybe_reads(alloc, out, scope, &l.step)
}

/// Adds the regions of a body as those of the DO.
#[tactic(auto, using(crate::proofs::Fitting::fitting))]
fn push_over(
    alloc: Global,
    out: &mut RegionSet,
    range: &Range,
    set: &[Region],
) -> Result<(), Memory>
    requires out { SetFits out.old }
    requires range { RangeFits range.now }
    requires set { SetFits set.now }
    ensures added { OnOk result (out.new ≡ out.old ++ all_over range.now set.now) }
    ensures fits { OnOk result (SetFits out.new) }
{
    let mut rest = set;
    while let [r, more @ ..] = rest {
        push_region(out, over_loop(alloc, r, range)?)?;
        rest = more;
    }
    Ok(())
}

/// The regions of a DO (ANSI X3.9-1978, §11.10) whose body has these: its initial and terminal parameters and its step are read, the DO
/// variable is written, and the body is executed in each iteration.
#[tactic(auto, using(crate::proofs::Fitting::fitting))]
pub fn do_set(
    alloc: Global,
    scope: &CellScope<'_>,
    l: &Loop,
    own: &List<At<Transformer>>,
    body: &[Region],
) -> Result<RegionSet, Memory>
    requires own { ResultsFit own.now }
    requires body { SetFits body.now }
    ensures defined { IfOk result (λ rs. rs ≡ do_set_is (loop_tree l.now) (scope_tree scope.now.symbols.now scope.now.tracked.now) (transformer_at_is own.now) body.now) }
    ensures fits { IfOk result SetFits }
{
    let range = range_of(alloc, scope, l, own)?;
    let mut all = List::new(alloc);
    push_loop_reads(alloc, &mut all, scope, l)?;
    push_region(&mut all, scalar(alloc, Access::Write, range.index)?)?;
    push_over(alloc, &mut all, &range, body)?;
    unite_all(alloc, all.as_slice())
}
