//! The convex hull of two systems, by rows lifted to one system of which the new variables are eliminated.
ghost use Rattle.std.specs.Prelude.{◌≡◌, ◌+◌, ◌<◌, ◌^◌, ◌||◌, length, true, IfOk};
ghost use Rattle.affine_systems.specs.Given.{Fits, ItemsFit};
ghost use Rattle.hull_projection.specs.Fresh.{fresh_after};
ghost use Rattle.hull_projection.specs.Hull.{hull_left as hull_left_is, lifted_hull as lifted_hull_is, both_vars as both_vars_is, hull as hull_is};
ghost use Rattle.hull_projection.specs.Laws.{HasBoth};

use crate::cleaning::clean;
use crate::eliminations::{Left, all_left, eliminate_all};
use crate::fresh::{aux_from, fresh_number};
use crate::lifting::lift_rows;
use crate::refutation::refuted;
use crate::variables::add_rows;
use affine_systems::items::{copy_rows, items_of, rows_of, tidy_items};
use affine_systems::{System, Var, tidy};
use fx_lists::List;
use std::alloc::{AllocError as Memory, Global};

/// A copy of a system.
pub fn copy_system(alloc: Global, sys: &System) -> Result<System, Memory>
    ensures { IfOk result (λ s. s ≡ sys.now) }
{
    Ok(System {
        rows: List::from_vec(copy_rows(alloc, sys.rows.as_slice())?),
        weak: sys.weak,
    })
}

/// Whether one or the other is true, or both.
pub fn either(one: bool, other: bool) -> bool
    ensures { result ≡ (one || other) }
{
    one || other
}

/// What is left after the last elimination, tidied as rows over whole numbers and cleaned.
fn hull_left(alloc: Global, weak: bool, left: Left) -> Result<System, Memory>
    requires { ItemsFit true left.items }
    ensures defined { IfOk result (λ s. s ≡ hull_left_is weak left) }
    ensures fits { IfOk result Fits }
{
    let rows = rows_of(alloc, left.items)?;
    let sys = System {
        rows,
        weak: either(weak, left.lost),
    };
    let whole = tidy(alloc, &sys)?;
    clean(alloc, &whole)
}

/// The hull of two systems with points. Its rows are rational until the new variables are gone.
fn lifted_hull(
    alloc: Global,
    first: u32,
    vars: &[Var],
    one: &System,
    other: &System,
) -> Result<System, Memory>
    requires room { first + length vars.now < 2 ^ 32 }
    requires fits { Fits one.now }
    requires other_fits { Fits other.now }
    requires number { first ≡ fresh_after vars.now }
    requires vars { vars.now ≡ both_vars_is one.now other.now }
    ensures defined { IfOk result (λ s. s ≡ lifted_hull_is first vars.now one.now other.now) }
    ensures fits { IfOk result Fits }
{
    let rows = lift_rows(
        alloc,
        first,
        vars,
        one.rows.as_slice(),
        other.rows.as_slice(),
    )?;
    let items = items_of(alloc, rows)?;
    let t = tidy_items(alloc, true, items)?;
    let weak = either(either(one.weak, other.weak), t.lost);
    let start = all_left(alloc, t.items)?;
    let aux = aux_from(alloc, first, vars.len() + 1)?;
    let left = eliminate_all(alloc, true, start, aux.as_slice())?;
    hull_left(alloc, weak, left)
}

/// The variables of both in ascending order.
fn both_vars(alloc: Global, one: &System, other: &System) -> Result<Vec<Var>, Memory>
    ensures { IfOk result (λ vs. vs.items ≡ both_vars_is one.now other.now) }
{
    let mut vars = Vec::new(alloc);
    add_rows(&mut vars, one.rows.as_slice())?;
    add_rows(&mut vars, other.rows.as_slice())?;
    Ok(vars)
}

fn hull_of(alloc: Global, one: &System, other: &System) -> Result<System, Memory>
    requires fits { Fits one.now }
    requires other_fits { Fits other.now }
    ensures defined { IfOk result (λ s. s ≡ hull_is one.now other.now) }
    ensures fits { IfOk result Fits }
{
    if refuted(alloc, one)? {
        return copy_system(alloc, other);
    }
    if refuted(alloc, other)? {
        return copy_system(alloc, one);
    }
    let vars = both_vars(alloc, one, other)?;
    let first = fresh_number(vars.as_slice(), vars.len())?;
    lifted_hull(alloc, first, vars.as_slice(), one, other)
}

/// A system that has the points of both: their convex hull, as far as elimination computes it; where one is refuted, a
/// copy of the other. Eliminates a variable for each that the two have, and one more. Memory also where there are no
/// numbers below 2^32 for these.
pub fn hull(alloc: Global, one: &System, other: &System) -> Result<System, Memory>
    requires fits { Fits one.now }
    requires other_fits { Fits other.now }
    ensures defined { IfOk result (λ s. s ≡ hull_is one.now other.now) }
    ensures fits { IfOk result Fits }
    ensures sound { IfOk result (HasBoth one.now other.now) }
{
    hull_of(alloc, one, other)
}
