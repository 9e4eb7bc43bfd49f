//! What the earlier iterations of a DO certainly wrote.
ghost use Rattle.std.specs.Prelude.{◌≡◌, map, IfOk, IfSome, option_copied};
ghost use Rattle.affine_systems.specs.Given.{Fits};
ghost use Rattle.hull_projection.specs.Minus.{AllFit};
ghost use Rattle.array_regions.specs.region_sets.Loops.{RangeFits};
ghost use Rattle.array_regions.specs.region_sets.Regions.{RegionFits};
ghost use Rattle.in_out_regions.specs.Loops.{is_one_step as is_one_step_is, meets_each as meets_each_is, is_steady as is_steady_is, earlier_piece as earlier_piece_is, if_exact, earlier_of as earlier_of_is, earlier as earlier_is};

use crate::loop_rows::{earlier_rows, stays};
use affine_systems::{System, Var};
use array_regions::names_none;
use array_regions::region_sets::{Range, Region, push_system, remade};
use array_regions::transformer_algebra::{Naming, others, push_rows, rename_all};
use fx_lists::List;
use hull_projection::{Shadow, project_owned};
use std::alloc::{AllocError as Memory, Global};

pub fn is_one_step(step: Option<i32>) -> bool
    ensures { result ≡ is_one_step_is step }
{
    match step {
        None => false,
        Some(step) => step.unsigned_abs() == 1,
    }
}

/// Whether each number from the first value to the index is the index of an iteration, whatever that is.
fn meets_each(tracked: bool, g: &Range) -> bool
    ensures { result ≡ meets_each_is tracked g.now }
{
    tracked && is_one_step(g.step) && stays(g.turn.cells.as_slice(), &g.first)
}

/// Whether a region is exact and names no cell that changes but the index.
fn is_steady(alloc: Global, g: &Range, w: &Region) -> Result<bool, Memory>
    ensures { IfOk result (λ b. b ≡ is_steady_is g.now w.now) }
{
    if !w.exact {
        return Ok(false);
    }
    let cells = others(alloc, g.turn.cells.as_slice(), &[g.index])?;
    names_none(alloc, cells.as_slice(), w.pieces.as_slice())
}

/// A system of the body, for some earlier iteration.
fn earlier_piece(alloc: Global, g: &Range, s: &System) -> Result<Shadow, Memory>
    requires range { RangeFits g.now }
    requires fits { Fits s.now }
    ensures defined { IfOk result (λ r. r ≡ earlier_piece_is g.now s.now) }
    ensures fits { IfOk result (λ r. Fits r.system) }
{
    let name = Naming {
        from: Var::Cell(g.index),
        to: Var::Aux(2),
    };
    let then = rename_all(alloc, s, &[name])?;
    let before = push_rows(alloc, &then, earlier_rows(alloc, g)?)?;
    let vars = List::from_slice(alloc, &[Var::Aux(2)])?;
    project_owned(alloc, before, &vars)
}

/// The region for some earlier iteration, where the projection is exact.
#[tactic(auto, using(crate::proofs::Steps::regions))]
fn projected(alloc: Global, g: &Range, w: &Region) -> Result<Option<Region>, Memory>
    requires range { RangeFits g.now }
    requires region { RegionFits w.now }
    ensures defined { IfOk result (λ o. o ≡ if_exact w.now (map (earlier_piece_is g.now) w.now.pieces)) }
    ensures fits { IfOk result (λ o. IfSome o RegionFits) }
{
    let mut pieces = List::new(alloc);
    let mut exact = true;
    let mut rest = w.pieces.as_slice();
    while let [piece, more @ ..] = rest {
        let one = earlier_piece(alloc, g, piece)?;
        exact = exact && one.exact;
        push_system(&mut pieces, one.system)?;
        rest = more;
    }
    if !exact {
        return Ok(None);
    }
    Ok(Some(remade(w, true, pieces)?))
}

fn earlier_of(alloc: Global, tracked: bool, g: &Range, w: &Region) -> Result<Option<Region>, Memory>
    requires range { RangeFits g.now }
    requires region { RegionFits w.now }
    ensures defined { IfOk result (λ o. o ≡ earlier_of_is tracked g.now w.now) }
    ensures fits { IfOk result (λ o. IfSome o RegionFits) }
{
    if !meets_each(tracked, g) {
        return Ok(None);
    }
    if !is_steady(alloc, g, w)? {
        return Ok(None);
    }
    projected(alloc, g, w)
}

/// What the earlier iterations certainly wrote where one begins, from the WRITE region of the body; None where that is not known: where the step is not 1 or
/// -1, the index is no analysed scalar, the first value has no form or one of which a scalar changes, the region is not exact or names another scalar that
/// changes, or where the projection is not exact.
pub fn earlier(
    alloc: Global,
    tracked: bool,
    g: &Range,
    write: Option<&Region>,
) -> Result<Option<Region>, Memory>
    requires range { RangeFits g.now }
    requires region { IfSome (option_copied write) RegionFits }
    ensures defined { IfOk result (λ o. o ≡ earlier_is tracked g.now (option_copied write.entry)) }
    ensures fits { IfOk result (λ o. IfSome o RegionFits) }
{
    match write {
        None => Ok(None),
        Some(w) => earlier_of(alloc, tracked, g, w),
    }
}
