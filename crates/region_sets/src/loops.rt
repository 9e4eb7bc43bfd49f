//! The region of a DO, from that of its body.
ghost use Rattle.std.specs.Prelude.{◌≡◌, IfOk};
ghost use Rattle.affine_systems.specs.Given.{Fits};
ghost use Rattle.region_sets.specs.Regions.{RegionFits};
ghost use Rattle.region_sets.specs.Loops.{RangeFits, is_counted as is_counted_is, first_assignment as first_assignment_is, iterations as iterations_is, iterations_at as iterations_at_is, at_index as at_index_is, loop_vars as loop_vars_is, composed_with as led_to_is, through_loop as through_loop_is, loop_piece as loop_piece_is, over_loop as over_loop_is};
ghost use Rattle.region_sets.specs.Laws.{HasIterations, HasIterationsAlone};

use crate::loop_rows::range_rows;
use crate::naming::{exit_vars, has_none, named_cells, to_exits};
use crate::region::push_system;
use crate::trimming::trimmed_to;
use crate::{Range, Region};
use affine_systems::{System, Var, meet};
use fx_lists::List;
use hull_projection::{Shadow, project_owned};
use std::alloc::{AllocError as Memory, Global};
use transformers::transformer_algebra::{
    Naming, Transformer, assign, has, identity_transformer, iterate, others, push_rows, rename_all,
    then,
};

fn is_counted(g: &Range) -> bool
    ensures { result ≡ is_counted_is g.now }
{
    g.step.is_some() && g.first.is_some() && g.last.is_some()
}

/// The index becomes the first value, where it is a cell that changes.
fn first_assignment(alloc: Global, g: &Range) -> Result<Transformer, Memory>
    requires { RangeFits g.now }
    ensures defined { IfOk result (λ t. t ≡ first_assignment_is g.now) }
    ensures fits { IfOk result (λ t. Fits t.system) }
{
    if !has(g.turn.cells.as_slice(), g.index) {
        return Ok(identity_transformer(alloc));
    }
    match g.step {
        None => assign(alloc, g.index, &None),
        Some(_) => assign(alloc, g.index, &g.first),
    }
}

/// From the DO to any iteration.
fn iterations(alloc: Global, g: &Range) -> Result<Transformer, Memory>
    requires { RangeFits g.now }
    ensures defined { IfOk result (λ t. t ≡ iterations_is g.now) }
    ensures fits { IfOk result (λ t. Fits t.system) }
{
    let first = first_assignment(alloc, g)?;
    let some = iterate(alloc, &g.turn)?;
    then(alloc, &first, &some)
}

/// The system of a body with the index of the iteration for its cell.
fn at_index(alloc: Global, index: u32, s: &System) -> Result<System, Memory>
    requires { Fits s.now }
    ensures defined { IfOk result (λ r. r ≡ at_index_is index s.now) }
    ensures fits { IfOk result Fits }
{
    let name = Naming {
        from: Var::Cell(index),
        to: Var::Aux(0),
    };
    rename_all(alloc, s, &[name])
}

/// The index of an iteration, and the number of those before it.
fn loop_vars(alloc: Global) -> Result<List<Var>, Memory>
    ensures { IfOk result (λ vs. vs ≡ loop_vars_is) }
{
    List::from_slice(alloc, &[Var::Aux(0), Var::Aux(1)])
}

/// What holds of the cells at an iteration, with its index for the exit of the cell.
fn iterations_at(alloc: Global, g: &Range, t: &Transformer) -> Result<System, Memory>
    requires fits { Fits t.now.system }
    requires turns { t.now ≡ iterations_is g.now }
    ensures defined { IfOk result (λ s. s ≡ iterations_at_is g.now) }
    ensures fits { IfOk result Fits }
{
    let name = Naming {
        from: Var::Exit(g.index),
        to: Var::Aux(0),
    };
    rename_all(alloc, &t.system, &[name])
}

/// The system where these cells are as some iterations left them.
fn composed_with(alloc: Global, cells: &[u32], g: &Range, s: &System) -> Result<System, Memory>
    requires range { RangeFits g.now }
    requires fits { Fits s.now }
    ensures defined { IfOk result (λ r. r ≡ led_to_is cells.now g.now s.now) }
    ensures fits { IfOk result Fits }
{
    let indexed = at_index(alloc, g.index, s)?;
    let names = to_exits(alloc, cells)?;
    let after = rename_all(alloc, &indexed, names.as_slice())?;
    let within = push_rows(alloc, &after, range_rows(alloc, g)?)?;
    let some = iterations(alloc, g)?;
    let there = iterations_at(alloc, g, &some)?;
    let both = meet(alloc, &within, &there)?;
    let vars = exit_vars(alloc, some.cells.as_slice())?;
    Ok(project_owned(alloc, both, &vars)?.system)
}

/// Where these are the changed cells that the system names beside the index.
fn through_loop(alloc: Global, cells: &[u32], g: &Range, s: &System) -> Result<Shadow, Memory>
    requires range { RangeFits g.now }
    requires fits { Fits s.now }
    ensures defined { IfOk result (λ r. r ≡ through_loop_is cells.now g.now s.now) }
    ensures fits { IfOk result (λ r. Fits r.system) }
{
    let vars = loop_vars(alloc)?;
    if has_none(cells) {
        let indexed = at_index(alloc, g.index, s)?;
        let within = push_rows(alloc, &indexed, range_rows(alloc, g)?)?;
        let left = project_owned(alloc, within, &vars)?;
        return Ok(Shadow {
            system: left.system,
            exact: left.exact && is_counted(g),
        });
    }
    let there = composed_with(alloc, cells, g, s)?;
    Ok(Shadow {
        system: project_owned(alloc, there, &vars)?.system,
        exact: false,
    })
}

fn loop_piece(alloc: Global, g: &Range, s: &System) -> Result<Shadow, Memory>
    requires range { RangeFits g.now }
    requires fits { Fits s.now }
    ensures defined { IfOk result (λ r. r ≡ loop_piece_is g.now s.now) }
    ensures fits { IfOk result (λ r. Fits r.system) }
{
    let changed = others(alloc, g.turn.cells.as_slice(), &[g.index])?;
    let cells = named_cells(alloc, changed.as_slice(), s)?;
    through_loop(alloc, cells.as_slice(), g, s)
}

#[tactic(auto, using(crate::proofs::Steps::fitting))]
fn of_all(alloc: Global, r: &Region, g: &Range) -> Result<Region, Memory>
    requires region { RegionFits r.now }
    requires range { RangeFits g.now }
    ensures defined { IfOk result (λ q. q ≡ over_loop_is r.now g.now) }
    ensures fits { IfOk result RegionFits }
{
    let mut pieces = List::new(alloc);
    let mut exact = true;
    let mut rest = r.pieces.as_slice();
    while let [piece, more @ ..] = rest {
        let one = loop_piece(alloc, g, piece)?;
        exact = exact && one.exact;
        push_system(&mut pieces, one.system)?;
        rest = more;
    }
    trimmed_to(alloc, r, r.exact && exact, pieces)
}

/// The region of a DO where it begins, from that of its body where an iteration begins: the elements for some value of the DO variable from
/// the first to the last, in whole steps, as far as these are affine and the step is constant. Not exact where the body's region is not or
/// names another analysed scalar that changes, where one of these is missing, or where the projection is not exact. The result is trimmed.
pub fn over_loop(alloc: Global, r: &Region, g: &Range) -> Result<Region, Memory>
    requires region { RegionFits r.now }
    requires range { RangeFits g.now }
    ensures defined { IfOk result (λ q. q ≡ over_loop_is r.now g.now) }
    ensures fits { IfOk result RegionFits }
    ensures sound { IfOk result (HasIterations g.now r.now) }
    ensures exact { IfOk result (HasIterationsAlone g.now r.now) }
{
    of_all(alloc, r, g)
}
