//! Rows on the changes of cells in one iteration, and in any number of iterations.
ghost use Rattle.std.specs.Prelude.{◌≡◌, ◌+◌, ◌<◌, ◌≤◌, ◌^◌, ◌++◌, length, map, neg_ℤ, IfOk, OnOk};
ghost use Rattle.affine_systems.specs.Terms.{Ascends};
ghost use Rattle.affine_systems.specs.Points.{factor_of as factor_is};
ghost use Rattle.affine_systems.specs.Rows.{AllRows};
ghost use Rattle.affine_systems.specs.Given.{AreSmall, IsSmallRow};
ghost use Rattle.hull_projection.specs.Closure.{exit_of as exit_of_is, step_row as step_row_is, step_rows, same_row as same_row_is, cell_terms, exit_terms, iterations_var as iterations_var_is, many_iterations as many_iterations_is, iteration_rows as iteration_rows_is};

use crate::lifting::{at_least_0, negative};
use affine_systems::terms::{factor_of, push_term};
use affine_systems::{Row, Term, Var};
use fx_lists::List;
use std::alloc::{AllocError as Memory, Global};

/// The exit of a cell.
fn exit_of(v: Var) -> Var
    ensures { result ≡ exit_of_is v }
{
    match v {
        Var::Cell(n) => Var::Exit(n),
        Var::Exit(n) => Var::Exit(n),
        Var::Phi(n) => Var::Phi(n),
        Var::Aux(n) => Var::Aux(n),
    }
}

/// That the auxiliary variable is what the cell's exit is more than the cell.
fn step_row(alloc: Global, number: u32, cell: Var) -> Result<Row, Memory>
    ensures { IfOk result (λ r. r ≡ step_row_is number cell) }
{
    let mut terms = Vec::new(alloc);
    terms.push(Term {
        var: cell,
        factor: 1,
    })?;
    terms.push(Term {
        var: exit_of(cell),
        factor: -1,
    })?;
    terms.push(Term {
        var: Var::Aux(number),
        factor: 1,
    })?;
    Ok(Row {
        equal: true,
        terms: List::from_vec(terms),
        bound: 0,
    })
}

#[tactic(auto, using(crate::proofs::FreshSteps::steps_loop))]
/// Adds for each cell the equal row which says that its exit less the cell is an auxiliary variable, its change. These
/// are numbered from `first` on, in the order of the cells.
pub fn push_steps(
    alloc: Global,
    out: &mut Vec<Row>,
    first: u32,
    cells: &[Var],
) -> Result<(), Memory>
    requires { first + length cells.now < 2 ^ 32 }
    ensures { OnOk result (out.new.items ≡ out.old.items ++ step_rows first cells.now) }
{
    for i in 0..cells.len() {
        out.push(step_row(alloc, first + i as u32, cells[i])?)?;
    }
    Ok(())
}

/// That a cell's exit is the cell.
fn same_row(alloc: Global, cell: Var) -> Result<Row, Memory>
    ensures { IfOk result (λ r. r ≡ same_row_is cell) }
{
    let mut terms = Vec::new(alloc);
    terms.push(Term {
        var: cell,
        factor: -1,
    })?;
    terms.push(Term {
        var: exit_of(cell),
        factor: 1,
    })?;
    Ok(Row {
        equal: true,
        terms: List::from_vec(terms),
        bound: 0,
    })
}

/// For each cell, in order, the equal row which says that its exit is the cell.
pub fn same_rows(alloc: Global, cells: &[Var]) -> Result<Vec<Row>, Memory>
    ensures { IfOk result (λ rs. rs.items ≡ map same_row_is cells.now) }
{
    let mut out = Vec::new(alloc);
    for cell in cells {
        out.push(same_row(alloc, *cell)?)?;
    }
    Ok(out)
}

/// Minus the factor of a variable.
fn negated_factor(terms: &[Term], v: Var) -> i128
    requires { AreSmall terms.now }
    ensures { result ≡ neg_ℤ (factor_is v terms.now) }
{
    negative(factor_of(terms, v))
}

#[tactic(auto, using(crate::proofs::FreshSteps::cells_loop))]
/// Adds each cell with minus the factor of its change. Looks each factor up among the terms.
fn push_cells(out: &mut Vec<Term>, first: u32, cells: &[Var], terms: &[Term]) -> Result<(), Memory>
    requires room { first + length cells.now < 2 ^ 32 }
    requires small { AreSmall terms.now }
    ensures { OnOk result (out.new.items ≡ out.old.items ++ cell_terms first cells.now terms.now) }
{
    for i in 0..cells.len() {
        let factor = negated_factor(terms, Var::Aux(first + i as u32));
        push_term(out, cells[i], factor)?;
    }
    Ok(())
}

#[tactic(auto, using(crate::proofs::FreshSteps::exits_loop))]
/// Adds each exit with the factor of its cell's change. Looks each factor up among the terms.
fn push_exits(out: &mut Vec<Term>, first: u32, cells: &[Var], terms: &[Term]) -> Result<(), Memory>
    requires room { first + length cells.now < 2 ^ 32 }
    requires small { AreSmall terms.now }
    ensures { OnOk result (out.new.items ≡ out.old.items ++ exit_terms first cells.now terms.now) }
{
    for i in 0..cells.len() {
        let factor = factor_of(terms, Var::Aux(first + i as u32));
        push_term(out, exit_of(cells[i]), factor)?;
    }
    Ok(())
}

/// The auxiliary variable of the number of iterations: the one after those of the changes of the cells.
pub fn iterations_var(first: u32, cells: &[Var]) -> Var
    requires { first + length cells.now < 2 ^ 32 }
    ensures { result ≡ iterations_var_is first cells.now }
{
    Var::Aux(first + cells.len() as u32)
}

/// A row on the changes of one iteration as one on those of any number of iterations.
fn many_iterations(alloc: Global, first: u32, cells: &[Var], row: &Row) -> Result<Row, Memory>
    requires room { first + length cells.now < 2 ^ 32 }
    requires small { IsSmallRow row.now }
    ensures { IfOk result (λ r. r ≡ many_iterations_is first cells.now row.now) }
{
    let mut terms = Vec::new(alloc);
    push_cells(&mut terms, first, cells, row.terms.as_slice())?;
    push_exits(&mut terms, first, cells, row.terms.as_slice())?;
    push_term(
        &mut terms,
        iterations_var(first, cells),
        negative(row.bound),
    )?;
    Ok(Row {
        equal: row.equal,
        terms: List::from_vec(terms),
        bound: 0,
    })
}

/// Rows on any number of iterations, from rows on the changes of one: a row on a sum of changes with a bound becomes
/// one on exits less cells, with the bound times the number of iterations. A last row says that this number is at least
/// 0.
pub fn iteration_rows(
    alloc: Global,
    first: u32,
    cells: &[Var],
    rows: &[Row],
) -> Result<Vec<Row>, Memory>
    requires room { first + length cells.now < 2 ^ 32 }
    requires small { AllRows IsSmallRow rows.now }
    ensures { IfOk result (λ rs. rs.items ≡ iteration_rows_is first cells.now rows.now) }
{
    let mut out = Vec::new(alloc);
    for row in rows {
        out.push(many_iterations(alloc, first, cells, row)?)?;
    }
    out.push(at_least_0(alloc, iterations_var(first, cells))?)?;
    Ok(out)
}
