//! The closure of an iteration: what any number of iterations changes.
ghost use Rattle.std.specs.Prelude.{◌≡◌, ◌+◌, ◌<◌, ◌^◌, length, IfOk};
ghost use Rattle.affine_systems.specs.Given.{Fits};
ghost use Rattle.affine_systems.specs.Items.{is_false_row as is_false_row_is};
ghost use Rattle.hull_projection.specs.Variables.{row_vars as row_vars_is};
ghost use Rattle.hull_projection.specs.Fresh.{fresh_after};
ghost use Rattle.hull_projection.specs.Closure.{AreCells, AreOrdered, steps as steps_is, changes_of as changes_of_is, is_false as is_false_is, no_iteration as no_iteration_is, some_iterations as some_iterations_is, iterations_of, closure_of, closure as closure_is};
ghost use Rattle.hull_projection.specs.Laws.{ContainsIterations};

use crate::cleaning::clean;
use crate::fresh::{fresh_number, old_vars};
use crate::iterations::{iteration_rows, iterations_var, push_steps, same_rows};
use crate::projection::project_owned;
use crate::variables::{add_rows, in_order};
use affine_systems::items::copy_rows;
use affine_systems::{Row, System, Var, Vars, tidy};
use elimination::eliminate;
use fx_lists::List;
use std::alloc::{AllocError as Memory, Global};

/// The variables of rows in ascending order.
fn row_vars(alloc: Global, rows: &[Row]) -> Result<Vec<Var>, Memory>
    ensures { IfOk result (λ vs. vs.items ≡ row_vars_is rows.now) }
{
    let mut vars = Vec::new(alloc);
    add_rows(&mut vars, rows)?;
    Ok(vars)
}

/// The body with an auxiliary variable for the change of each cell.
fn steps(alloc: Global, first: u32, cells: &[Var], body: &System) -> Result<System, Memory>
    requires room { first + length cells.now < 2 ^ 32 }
    requires cells { AreOrdered cells.now }
    requires fits { Fits body.now }
    ensures defined { IfOk result (λ s. s ≡ steps_is first cells.now body.now) }
    ensures fits { IfOk result Fits }
{
    let mut rows = copy_rows(alloc, body.rows.as_slice())?;
    push_steps(alloc, &mut rows, first, cells)?;
    let sys = System {
        rows: List::from_vec(rows),
        weak: body.weak,
    };
    tidy(alloc, &sys)
}

/// What the body says of the changes of the cells.
fn changes_of(alloc: Global, first: u32, cells: &[Var], body: &System) -> Result<System, Memory>
    requires room { first + length cells.now < 2 ^ 32 }
    requires cells { AreOrdered cells.now }
    requires fits { Fits body.now }
    ensures defined { IfOk result (λ s. s ≡ changes_of_is first cells.now body.now) }
    ensures fits { IfOk result Fits }
{
    let sys = steps(alloc, first, cells, body)?;
    let vars = old_vars(first, row_vars(alloc, sys.rows.as_slice())?);
    let shadow = project_owned(alloc, sys, &vars)?;
    Ok(shadow.system)
}

fn is_false_row(row: &Row) -> bool
    ensures { result ≡ is_false_row_is row.now }
{
    !row.equal && row.terms.is_empty() && row.bound < 0
}

/// Whether a row is infeasible.
fn is_false(rows: &[Row]) -> bool
    ensures { result ≡ is_false_is rows.now }
{
    rows.iter().any(|row| is_false_row(row))
}

/// No iteration: each cell stays as it is.
fn no_iteration(alloc: Global, cells: &[Var], weak: bool) -> Result<System, Memory>
    requires { AreOrdered cells.now }
    ensures defined { IfOk result (λ s. s ≡ no_iteration_is cells.now weak) }
    ensures fits { IfOk result Fits }
{
    let sys = System {
        rows: List::from_vec(same_rows(alloc, cells)?),
        weak,
    };
    tidy(alloc, &sys)
}

/// Any number of iterations with such changes.
fn some_iterations(
    alloc: Global,
    first: u32,
    cells: &[Var],
    changes: &System,
) -> Result<System, Memory>
    requires room { first + length cells.now < 2 ^ 32 }
    requires cells { AreOrdered cells.now }
    requires fits { Fits changes.now }
    ensures defined { IfOk result (λ s. s ≡ some_iterations_is first cells.now changes.now) }
    ensures fits { IfOk result Fits }
{
    let sys = System {
        rows: List::from_vec(iteration_rows(alloc, first, cells, changes.rows.as_slice())?),
        weak: changes.weak,
    };
    let many = tidy(alloc, &sys)?;
    let left = eliminate(alloc, many, iterations_var(first, cells))?;
    clean(alloc, &left.system)
}

/// Any number of iterations with such changes; no iteration where these are infeasible.
fn any_iterations(alloc: Global, first: u32, cells: &[Var], once: &System) -> Result<System, Memory>
    requires room { first + length cells.now < 2 ^ 32 }
    requires cells { AreOrdered cells.now }
    requires fits { Fits once.now }
    ensures defined { IfOk result (λ s. s ≡ iterations_of first cells.now once.now) }
    ensures fits { IfOk result Fits }
{
    if is_false(once.rows.as_slice()) {
        no_iteration(alloc, cells, once.weak)
    } else {
        some_iterations(alloc, first, cells, once)
    }
}

fn ordered_closure(alloc: Global, cells: &[Var], body: &System) -> Result<System, Memory>
    requires cells { AreOrdered cells.now }
    requires fits { Fits body.now }
    ensures defined { IfOk result (λ s. s ≡ closure_of (fresh_after (row_vars_is body.now.rows)) cells.now body.now) }
    ensures fits { IfOk result Fits }
{
    let vars = row_vars(alloc, body.rows.as_slice())?;
    let first = fresh_number(vars.as_slice(), cells.len())?;
    let once = changes_of(alloc, first, cells, body)?;
    any_iterations(alloc, first, cells, &once)
}

/// Over-approximates the reflexive transitive closure of the relation from cells to exits that `body` describes:
/// contains each pair of stores that any number of iterations joins. `changes` are the cells that an iteration may
/// change, in any order. Memory also where there are no numbers below 2^32 for a fresh variable for each of these and
/// one more.
pub fn closure(alloc: Global, changes: &Vars, body: &System) -> Result<System, Memory>
    requires cells { AreCells changes.now }
    requires fits { Fits body.now }
    ensures defined { IfOk result (λ s. s ≡ closure_is changes.now body.now) }
    ensures fits { IfOk result Fits }
    ensures sound { IfOk result (ContainsIterations body.now) }
{
    let cells = in_order(alloc, changes.as_slice())?;
    ordered_closure(alloc, cells.as_slice(), body)
}
