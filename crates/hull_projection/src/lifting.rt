//! The rows of two systems lifted to one: each point of the hull, with a multiplier and a multiple of a point of the first.
ghost use Rattle.std.specs.Prelude.{◌≡◌, ◌+◌, ◌<◌, ◌≤◌, ◌^◌, ◌++◌, [], ◌∷◌, length, map, neg_ℤ, unsigned_abs, true, false, IfOk, OnOk};
ghost use Rattle.affine_systems.specs.Terms.{term};
ghost use Rattle.affine_systems.specs.Rows.{AllRows};
ghost use Rattle.affine_systems.specs.Given.{AreSmall, IsSmallRow};
ghost use Rattle.hull_projection.specs.Hull.{place_of as place_of_is, copy_of as copy_of_is, share_of as share_of_is, copies, negated_copies, scale as scale_is, rest_scaled as rest_scaled_is, at_least_0 as at_least_0_is, at_most_1 as at_most_1_is, lift_rows as lift_rows_is};

use affine_systems::terms::push_term;
use affine_systems::{Row, Term, Var};
use fx_lists::List;
use std::alloc::{AllocError as Memory, Global};

#[tactic(auto, using(crate::proofs::FreshSteps::place_loop))]
/// The place of a variable in a list, or its length where the variable is not there.
fn place_of(v: Var, vars: &[Var]) -> usize
    ensures defined { result ≡ place_of_is v vars.now }
    ensures within { result ≤ length vars.now }
{
    for i in 0..vars.len() {
        if v.is_same(vars[i]) {
            return i;
        }
    }
    vars.len()
}

/// The auxiliary variable that is a multiple of the variable. Looks the variable up from the start of the list.
fn copy_of(first: u32, vars: &[Var], v: Var) -> Var
    requires { first + length vars.now < 2 ^ 32 }
    ensures { result ≡ copy_of_is first vars.now v }
{
    Var::Aux(first + place_of(v, vars) as u32)
}

/// The multiplier.
fn share_of(first: u32, vars: &[Var]) -> Var
    requires { first + length vars.now < 2 ^ 32 }
    ensures { result ≡ share_of_is first vars.now }
{
    Var::Aux(first + vars.len() as u32)
}

/// The number, below 2^62 in magnitude, with the opposite sign.
pub fn negative(number: i128) -> i128
    requires { unsigned_abs number < 2 ^ 62 }
    ensures { result ≡ neg_ℤ number }
{
    -number
}

/// Adds the terms with the copies of their variables.
fn push_copies(out: &mut Vec<Term>, first: u32, vars: &[Var], terms: &[Term]) -> Result<(), Memory>
    requires { first + length vars.now < 2 ^ 32 }
    ensures { OnOk result (out.new.items ≡ out.old.items ++ copies first vars.now terms.now) }
{
    for t in terms {
        out.push(Term {
            var: copy_of(first, vars, t.var),
            factor: t.factor,
        })?;
    }
    Ok(())
}

/// The negated term with the copy of its variable.
fn negated_copy(first: u32, vars: &[Var], t: Term) -> Term
    requires room { first + length vars.now < 2 ^ 32 }
    requires small { unsigned_abs t.factor < 2 ^ 62 }
    ensures { result ≡ term (copy_of_is first vars.now t.var) (neg_ℤ t.factor) }
{
    Term {
        var: copy_of(first, vars, t.var),
        factor: negative(t.factor),
    }
}

/// Adds the negated terms with the copies of their variables.
fn push_negated(out: &mut Vec<Term>, first: u32, vars: &[Var], terms: &[Term]) -> Result<(), Memory>
    requires room { first + length vars.now < 2 ^ 32 }
    requires small { AreSmall terms.now }
    ensures { OnOk result (out.new.items ≡ out.old.items ++ negated_copies first vars.now terms.now) }
{
    for t in terms {
        out.push(negated_copy(first, vars, *t))?;
    }
    Ok(())
}

/// A row of the first system: a multiple of the point is in the same multiple of it.
fn scale(alloc: Global, first: u32, vars: &[Var], row: &Row) -> Result<Row, Memory>
    requires room { first + length vars.now < 2 ^ 32 }
    requires small { IsSmallRow row.now }
    ensures { IfOk result (λ r. r ≡ scale_is first vars.now row.now) }
{
    let mut terms = Vec::new(alloc);
    push_copies(&mut terms, first, vars, row.terms.as_slice())?;
    push_term(&mut terms, share_of(first, vars), negative(row.bound))?;
    Ok(Row {
        equal: row.equal,
        terms: List::from_vec(terms),
        bound: 0,
    })
}

/// A row of the second system: what is left of the point is in what is left of the multiplier.
fn rest_scaled(alloc: Global, first: u32, vars: &[Var], row: &Row) -> Result<Row, Memory>
    requires room { first + length vars.now < 2 ^ 32 }
    requires small { IsSmallRow row.now }
    ensures { IfOk result (λ r. r ≡ rest_scaled_is first vars.now row.now) }
{
    let mut terms = Vec::from_slice(alloc, row.terms.as_slice())?;
    push_negated(&mut terms, first, vars, row.terms.as_slice())?;
    push_term(&mut terms, share_of(first, vars), row.bound)?;
    Ok(Row {
        equal: row.equal,
        terms: List::from_vec(terms),
        bound: row.bound,
    })
}

/// A row with one term.
fn single(alloc: Global, var: Var, factor: i128, bound: i128) -> Result<Row, Memory>
    ensures { IfOk result (λ r. r ≡ record { equal = false; terms = record { var = var; factor = factor } ∷ []; bound = bound }) }
{
    let mut terms = Vec::new(alloc);
    terms.push(Term { var, factor })?;
    Ok(Row {
        equal: false,
        terms: List::from_vec(terms),
        bound,
    })
}

/// The row which says that a variable is at least 0.
pub fn at_least_0(alloc: Global, v: Var) -> Result<Row, Memory>
    ensures { IfOk result (λ r. r ≡ at_least_0_is v) }
{
    single(alloc, v, -1, 0)
}

fn at_most_1(alloc: Global, v: Var) -> Result<Row, Memory>
    ensures { IfOk result (λ r. r ≡ at_most_1_is v) }
{
    single(alloc, v, 1, 1)
}

fn push_scaled(
    alloc: Global,
    out: &mut Vec<Row>,
    first: u32,
    vars: &[Var],
    rows: &[Row],
) -> Result<(), Memory>
    requires room { first + length vars.now < 2 ^ 32 }
    requires small { AllRows IsSmallRow rows.now }
    ensures { OnOk result (out.new.items ≡ out.old.items ++ map (scale_is first vars.now) rows.now) }
{
    for row in rows {
        out.push(scale(alloc, first, vars, row)?)?;
    }
    Ok(())
}

fn push_rest(
    alloc: Global,
    out: &mut Vec<Row>,
    first: u32,
    vars: &[Var],
    rows: &[Row],
) -> Result<(), Memory>
    requires room { first + length vars.now < 2 ^ 32 }
    requires small { AllRows IsSmallRow rows.now }
    ensures { OnOk result (out.new.items ≡ out.old.items ++ map (rest_scaled_is first vars.now) rows.now) }
{
    for row in rows {
        out.push(rest_scaled(alloc, first, vars, row)?)?;
    }
    Ok(())
}

/// The rows of both systems, lifted, and two that put the multiplier between 0 and 1. The auxiliary variable `first` +
/// k is the multiple of the variable at index k of `vars`, and that after these is the multiplier.
pub fn lift_rows(
    alloc: Global,
    first: u32,
    vars: &[Var],
    one: &[Row],
    other: &[Row],
) -> Result<Vec<Row>, Memory>
    requires room { first + length vars.now < 2 ^ 32 }
    requires one { AllRows IsSmallRow one.now }
    requires other { AllRows IsSmallRow other.now }
    ensures { IfOk result (λ rs. rs.items ≡ lift_rows_is first vars.now one.now other.now) }
{
    let mut rows = Vec::new(alloc);
    push_scaled(alloc, &mut rows, first, vars, one)?;
    push_rest(alloc, &mut rows, first, vars, other)?;
    let share = share_of(first, vars);
    rows.push(at_least_0(alloc, share)?)?;
    rows.push(at_most_1(alloc, share)?)?;
    Ok(rows)
}
