//! Which of two iterations comes first, by their indices.
ghost use Rattle.std.specs.Prelude.{◌≡◌, true, [], ◌∷◌, nat_lt, unsigned_abs, IfOk};
ghost use Rattle.affine_systems.specs.Rows.{AllRows};
ghost use Rattle.affine_systems.specs.Given.{IsGiven};
ghost use Rattle.affine_systems.specs.Terms.{var_lt};
ghost use Rattle.affine_forms.specs.Forms.{IsSmallForm};
ghost use Rattle.affine_forms.specs.Comparisons.{var_form as var_form_is, below_row as below_row_is};
ghost use Rattle.dependence_test.specs.Order.{one as one_is, steps_from as steps_from_is, step_rows as step_rows_is, rows_by as rows_by_is, order_rows as order_rows_is};

use affine_forms::{Affine, at_most_row, below_row, same_row, var_form};
use affine_systems::{Row, Term, Var};
use fx_lists::List;
use std::alloc::{AllocError as Memory, Global};

/// The form of the number 1.
#[tactic(auto, using(crate::proofs::OrderLaws::order_steps))]
fn one(alloc: Global) -> Affine
    ensures defined { result ≡ one_is }
    ensures small { IsSmallForm result }
{
    Affine {
        terms: List::new(alloc),
        constant: 1,
    }
}

/// i + s t
#[tactic(auto, using(crate::proofs::OrderLaws::order_steps))]
fn steps_from(alloc: Global, i: Var, step: i32, t: Var) -> Result<Affine, Memory>
    requires before { var_lt i t ≡ true }
    requires steps { nat_lt 1 (unsigned_abs step) ≡ true }
    ensures defined { IfOk result (λ f. f ≡ steps_from_is i step t) }
    ensures small { IfOk result IsSmallForm }
{
    let terms = [
        Term { var: i, factor: 1 },
        Term {
            var: t,
            factor: i128::from(step),
        },
    ];
    Ok(Affine {
        terms: List::from_slice(alloc, &terms)?,
        constant: 0,
    })
}

/// j == i + s t, 1 <= t
#[tactic(auto, using(crate::proofs::OrderLaws::order_steps))]
fn step_rows(alloc: Global, step: i32, i: Var, j: Var, t: Var) -> Result<Vec<Row>, Memory>
    requires before { var_lt i t ≡ true }
    requires steps { nat_lt 1 (unsigned_abs step) ≡ true }
    ensures defined { IfOk result (λ rs. rs.items ≡ step_rows_is step i j t) }
    ensures fits { IfOk result (λ rs. AllRows IsGiven rs.items) }
{
    let mut rows = Vec::new(alloc);
    let later = var_form(alloc, j)?;
    let from = steps_from(alloc, i, step, t)?;
    rows.push(same_row(alloc, &later, &from)?)?;
    let steps = var_form(alloc, t)?;
    rows.push(at_most_row(alloc, &one(alloc), &steps)?)?;
    Ok(rows)
}

/// The row which says that the one variable is below the other.
#[tactic(auto, using(crate::proofs::OrderLaws::order_steps))]
fn below(alloc: Global, v: Var, w: Var) -> Result<Vec<Row>, Memory>
    ensures defined { IfOk result (λ rs. rs.items ≡ below_row_is (var_form_is v) (var_form_is w) ∷ []) }
    ensures fits { IfOk result (λ rs. AllRows IsGiven rs.items) }
{
    let mut rows = Vec::new(alloc);
    let left = var_form(alloc, v)?;
    let right = var_form(alloc, w)?;
    rows.push(below_row(alloc, &left, &right)?)?;
    Ok(rows)
}

fn rows_by(alloc: Global, step: i32, i: Var, j: Var, t: Var) -> Result<Vec<Row>, Memory>
    requires { var_lt i t ≡ true }
    ensures defined { IfOk result (λ rs. rs.items ≡ rows_by_is step i j t) }
    ensures fits { IfOk result (λ rs. AllRows IsGiven rs.items) }
{
    if step == 1 {
        below(alloc, i, j)
    } else if step == -1 {
        below(alloc, j, i)
    } else if step.unsigned_abs() > 1 {
        step_rows(alloc, step, i, j, t)
    } else {
        Ok(Vec::new(alloc))
    }
}

/// The rows which say that the iteration with the index `j` comes after that with the index `i`: `t` is the number of steps between them, and
/// stands in no row where the step is 1 or -1. None where the step is no constant, or 0.
pub fn order_rows(
    alloc: Global,
    step: Option<i32>,
    i: Var,
    j: Var,
    t: Var,
) -> Result<Vec<Row>, Memory>
    requires { var_lt i t ≡ true }
    ensures defined { IfOk result (λ rs. rs.items ≡ order_rows_is step i j t) }
    ensures fits { IfOk result (λ rs. AllRows IsGiven rs.items) }
{
    match step {
        None => Ok(Vec::new(alloc)),
        Some(step) => rows_by(alloc, step, i, j, t),
    }
}
