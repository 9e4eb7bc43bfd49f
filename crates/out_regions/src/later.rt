//! What later iterations of a DO may read before they write it (ANSI X3.9-1978, §11.10).
ghost use Rattle.std.specs.Prelude.{◌≡◌, map, IfOk};
ghost use Rattle.affine_systems.specs.Given.{Fits, IsGiven};
ghost use Rattle.affine_systems.specs.Rows.{AllRows};
ghost use Rattle.affine_forms.specs.Forms.{IsSmallForm};
ghost use Rattle.hull_projection.specs.Minus.{AllFit};
ghost use Rattle.in_out_regions.specs.region_sets.Loops.{RangeFits};
ghost use Rattle.in_out_regions.specs.region_sets.Regions.{RegionFits};
ghost use Rattle.in_out_regions.specs.region_sets.Sets.{SetFits};
ghost use Rattle.out_regions.specs.Later.{later_from as later_from_is, later_rows as later_rows_is, is_steady as is_steady_is, later_index as later_index_is, later_piece as later_piece_is, later as later_is, all_later as all_later_is};

use affine_forms::{Affine, var_form};
use affine_systems::{Row, System, Var};
use fx_lists::List;
use hull_projection::project_owned;
use in_out_regions::region_sets::{
    Range, Region, RegionSet, has_none, named_cells, push_region, push_system, remade,
};
use in_out_regions::transformer_algebra::{Naming, others, push_rows, rename_all, without};
use in_out_regions::{beyond_row, is_one_step, stays, within_row};
use std::alloc::{AllocError as Memory, Global};

/// That an iteration, whose index is `Aux(2)`, is later and one of the DO.
#[tactic(auto, using(crate::proofs::Steps::rows))]
fn later_from(alloc: Global, step: i32, index: u32, last: &Affine) -> Result<Vec<Row>, Memory>
    requires { IsSmallForm last.now }
    ensures defined { IfOk result (λ rs. rs.items ≡ later_from_is step index last.now) }
    ensures fits { IfOk result (λ rs. AllRows IsGiven rs.items) }
{
    let later = var_form(alloc, Var::Aux(2))?;
    let own = var_form(alloc, Var::Cell(index))?;
    let mut rows = Vec::new(alloc);
    rows.push(beyond_row(alloc, step, &later, &own)?)?;
    rows.push(within_row(alloc, step, &later, last)?)?;
    Ok(rows)
}

/// The same; no rows of an index that is not analysed.
fn later_rows(alloc: Global, tracked: bool, g: &Range) -> Result<Vec<Row>, Memory>
    requires { RangeFits g.now }
    ensures defined { IfOk result (λ rs. rs.items ≡ later_rows_is tracked g.now) }
    ensures fits { IfOk result (λ rs. AllRows IsGiven rs.items) }
{
    if !tracked {
        return Ok(Vec::new(alloc));
    }
    match g.step {
        None => Ok(Vec::new(alloc)),
        Some(step) => match &g.last {
            None => Ok(Vec::new(alloc)),
            Some(last) => later_from(alloc, step, g.index, last),
        },
    }
}

/// Whether each number from the index to the last value is the index of an iteration, and the system names no cell that changes but the index.
fn is_steady(alloc: Global, g: &Range, s: &System) -> Result<bool, Memory>
    ensures { IfOk result (λ b. b ≡ is_steady_is g.now s.now) }
{
    let cells = g.turn.cells.as_slice();
    if !(is_one_step(g.step) && stays(cells, &g.last)) {
        return Ok(false);
    }
    let changed = others(alloc, cells, &[g.index])?;
    let named = named_cells(alloc, changed.as_slice(), s)?;
    Ok(has_none(named.as_slice()))
}

/// A system of the body, for some later iteration.
fn later_index(alloc: Global, tracked: bool, g: &Range, s: &System) -> Result<System, Memory>
    requires range { RangeFits g.now }
    requires fits { Fits s.now }
    ensures defined { IfOk result (λ t. t ≡ later_index_is tracked g.now s.now) }
    ensures fits { IfOk result Fits }
{
    let name = Naming {
        from: Var::Cell(g.index),
        to: Var::Aux(2),
    };
    let named = rename_all(alloc, s, &[name])?;
    let after = push_rows(alloc, &named, later_rows(alloc, tracked, g)?)?;
    let vars = List::from_slice(alloc, &[Var::Aux(2)])?;
    Ok(project_owned(alloc, after, &vars)?.system)
}

fn later_piece(alloc: Global, tracked: bool, g: &Range, s: &System) -> Result<System, Memory>
    requires range { RangeFits g.now }
    requires fits { Fits s.now }
    ensures defined { IfOk result (λ t. t ≡ later_piece_is tracked g.now s.now) }
    ensures fits { IfOk result Fits }
{
    if is_steady(alloc, g, s)? {
        later_index(alloc, tracked, g, s)
    } else {
        without(alloc, g.turn.cells.as_slice(), s)
    }
}

/// A region of the body, as what some later iteration may access.
#[tactic(auto, using(crate::proofs::Fitting::fitting))]
fn later(alloc: Global, tracked: bool, g: &Range, r: &Region) -> Result<Region, Memory>
    requires range { RangeFits g.now }
    requires region { RegionFits r.now }
    ensures defined { IfOk result (λ q. q ≡ later_is tracked g.now r.now) }
    ensures fits { IfOk result RegionFits }
{
    let mut pieces = List::new(alloc);
    let mut rest = r.pieces.as_slice();
    while let [piece, more @ ..] = rest {
        push_system(&mut pieces, later_piece(alloc, tracked, g, piece)?)?;
        rest = more;
    }
    remade(r, false, pieces)
}

/// IN of the body, as what iterations after one may read, for the cells where that one begins. `tracked`: the index is an analysed scalar.
#[tactic(auto, using(crate::proofs::Fitting::fitting))]
pub fn all_later(
    alloc: Global,
    tracked: bool,
    g: &Range,
    ins: &[Region],
) -> Result<RegionSet, Memory>
    requires range { RangeFits g.now }
    requires ins { SetFits ins.now }
    ensures defined { IfOk result (λ qs. qs ≡ all_later_is tracked g.now ins.now) }
    ensures fits { IfOk result SetFits }
{
    let mut out = List::new(alloc);
    let mut rest = ins;
    while let [r, more @ ..] = rest {
        push_region(&mut out, later(alloc, tracked, g, r)?)?;
        rest = more;
    }
    Ok(out)
}
