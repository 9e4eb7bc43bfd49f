//! The lines of a module: claims on scalars first, then READ and WRITE, then IN, then OUT, then the checks of references, and last directives and obstacles.
ghost use Rattle.std.specs.Prelude.{◌≡◌, ◌++◌, IfOk};
ghost use Rattle.module_phases.specs.ScalarViews.{known_in};
ghost use Rattle.result_lines.specs.Lines.{claims_of, mark_lines_of, lines_of, region_lines_of, printed_tree, scalar_lines_of};
ghost use Rattle.result_lines.specs.ReductionLines.{loop_lines_of, reduced_lines_of};

use crate::reduction::Reduction;
use crate::show::Show;
use crate::{loop_lines, mark_lines, region_lines, scalar_lines};
use affine_systems::System;
use call_graph::View;
use f77_ast::{At, Mark, Results};
use f77_printer::Added;
use fx_lists::List;
use region_sets::RegionSet;
use std::alloc::{AllocError as Memory, Global};
use transformers::transformer_algebra::Transformer;

/// The results of a module that lines say.
#[derive(Drop)]
pub struct PrintedResults<'a> {
    pub transformers: &'a Results<Transformer>,
    pub preconditions: &'a Results<System>,
    pub regions: &'a Results<RegionSet>,
    pub ins: &'a Results<RegionSet>,
    pub outs: &'a Results<RegionSet>,
    pub marks: &'a List<At<Mark>>,
}

/// The lines on the preconditions and transformers of a module.
#[tactic(auto, using(crate::proofs::Naming::name_steps))]
fn lines_on_scalars(
    alloc: Global,
    view: &View<'_>,
    results: &PrintedResults<'_>,
) -> Result<List<Added>, Memory>
    ensures { IfOk result (λ lines. lines ≡ scalar_lines_of (known_in view.now) results.now.transformers.now results.now.preconditions.now) }
{
    scalar_lines(alloc, view, results.transformers, results.preconditions)
}

/// The lines on sets of regions of a module: READ and WRITE, IN, or OUT.
#[tactic(auto, using(crate::proofs::Naming::name_steps))]
fn lines_on_regions(
    alloc: Global,
    view: &View<'_>,
    sets: &Results<RegionSet>,
) -> Result<List<Added>, Memory>
    ensures { IfOk result (λ lines. lines ≡ region_lines_of (known_in view.now) sets.now) }
{
    region_lines(alloc, view, sets)
}

/// The lines that claim something of a module.
fn claims_of(
    alloc: Global,
    view: &View<'_>,
    results: &PrintedResults<'_>,
) -> Result<List<Added>, Memory>
    ensures { IfOk result (λ lines. lines ≡ claims_of (known_in view.now) (printed_tree results.now)) }
{
    let mut lines = lines_on_scalars(alloc, view, results)?.into_vec();
    let mut regions = lines_on_regions(alloc, view, results.regions)?.into_vec();
    let mut ins = lines_on_regions(alloc, view, results.ins)?.into_vec();
    let mut outs = lines_on_regions(alloc, view, results.outs)?.into_vec();
    ins.append(&mut outs)?;
    regions.append(&mut ins)?;
    lines.append(&mut regions)?;
    Ok(List::from_vec(lines))
}

/// The directives of a module and, where `why` says so, the obstacles of its other loops.
fn lines_on_loops(
    alloc: Global,
    view: &View<'_>,
    marks: &List<At<Mark>>,
    why: bool,
) -> Result<List<Added>, Memory>
    ensures { IfOk result (λ lines. lines ≡ mark_lines_of (known_in view.now) why marks.now) }
{
    mark_lines(alloc, view, marks, why)
}

/// The comment lines that `show` adds to a module: at one place claims on scalars, then READ and WRITE, then IN, then OUT, and last the directive or the obstacle of a loop.
pub fn result_lines(
    alloc: Global,
    view: &View<'_>,
    results: &PrintedResults<'_>,
    show: Show,
) -> Result<List<Added>, Memory>
    ensures { IfOk result (λ lines. lines ≡ lines_of show (known_in view.now) (printed_tree results.now)) }
{
    match show {
        Show::All => {
            let mut lines = claims_of(alloc, view, results)?.into_vec();
            let mut loops = lines_on_loops(alloc, view, results.marks, true)?.into_vec();
            lines.append(&mut loops)?;
            Ok(List::from_vec(lines))
        }
        Show::Bare => lines_on_loops(alloc, view, results.marks, false),
        Show::Why => lines_on_loops(alloc, view, results.marks, true),
    }
}

/// The lines on loops, some of which have reduction variables.
fn lines_on_reduced(
    alloc: Global,
    view: &View<'_>,
    reduced: &List<At<Reduction>>,
    marks: &List<At<Mark>>,
    why: bool,
) -> Result<List<Added>, Memory>
    ensures { IfOk result (λ lines. lines ≡ loop_lines_of (known_in view.now) why reduced.now marks.now) }
{
    if reduced.is_empty() {
        return lines_on_loops(alloc, view, marks, why);
    }
    loop_lines(alloc, view, marks, reduced, why)
}

/// The lines on the checks of references, and behind them those on loops, some of which have reduction variables.
fn checks_and_loops(
    alloc: Global,
    view: &View<'_>,
    reduced: &List<At<Reduction>>,
    checks: List<Added>,
    marks: &List<At<Mark>>,
    why: bool,
) -> Result<List<Added>, Memory>
    ensures { IfOk result (λ lines. lines ≡ checks ++ loop_lines_of (known_in view.now) why reduced.now marks.now) }
{
    let mut lines = checks.into_vec();
    let mut loops = lines_on_reduced(alloc, view, reduced, marks, why)?.into_vec();
    lines.append(&mut loops)?;
    Ok(List::from_vec(lines))
}

/// As `result_lines`, but that these loops have REDUCTION clauses in place of their obstacles, and that the lines on the checks of references
/// stand behind the claims and before the lines on loops, whatever `show` is.
pub fn reduced_lines(
    alloc: Global,
    view: &View<'_>,
    results: &PrintedResults<'_>,
    show: Show,
    reduced: &List<At<Reduction>>,
    checks: List<Added>,
) -> Result<List<Added>, Memory>
    ensures { IfOk result (λ lines. lines ≡ reduced_lines_of show (known_in view.now) (printed_tree results.now) reduced.now checks) }
{
    match show {
        Show::All => {
            let mut lines = claims_of(alloc, view, results)?.into_vec();
            let mut rest = checks_and_loops(
                alloc,
                view,
                reduced,
                checks,
                results.marks,
                true,
            )?.into_vec();
            lines.append(&mut rest)?;
            Ok(List::from_vec(lines))
        }
        Show::Bare => checks_and_loops(alloc, view, reduced, checks, results.marks, false),
        Show::Why => checks_and_loops(alloc, view, reduced, checks, results.marks, true),
    }
}
