//! A variable replaced by what an equal row says that it is.
ghost use Rattle.std.specs.Prelude.{◌≡◌, ◌++◌, ◌||◌, [], true, IfOk};
ghost use Rattle.affine_systems.specs.Points.{factor_of};
ghost use Rattle.affine_systems.specs.Rows.{AllRows};
ghost use Rattle.affine_systems.specs.Tidy.{is_unit};
ghost use Rattle.affine_systems.specs.Given.{IsNormal};
ghost use Rattle.region_sets.specs.Ready.{IsReady};
ghost use Rattle.region_sets.specs.Putting.{normal_form as normal_form_is, put_in as put_in_is, before_rows, is_lost, put_in_all, loses_row, put_row as put_row_is};

use crate::naming::in_terms;
use affine_forms::false_row;
use affine_systems::{Norm, Row, System, Var, normalise, substitute};
use fx_lists::List;
use std::alloc::{AllocError as Memory, Global};

/// A row in normal form; 0 <= -1 where it never holds.
fn normal_form(alloc: Global, row: Option<Row>) -> Option<Row>
    ensures { result ≡ normal_form_is row }
{
    match row {
        None => None,
        Some(mut row) => match normalise(&mut row) {
            Norm::False => Some(false_row(alloc)),
            Norm::Kept | Norm::True | Norm::TooBig => Some(row),
        },
    }
}

/// A row with a variable replaced by what it is.
#[tactic(auto, using(crate::proofs::PutSteps::putting))]
fn put_in(alloc: Global, v: Var, by: &Row, row: &Row) -> Result<Option<Row>, Memory>
    requires by { IsNormal by.now }
    requires equal { by.now.equal ≡ true }
    requires unit { is_unit (factor_of v by.now.terms) ≡ true }
    requires row { IsReady row.now }
    ensures { IfOk result (λ o. o ≡ put_in_is v by.now row.now) }
{
    if in_terms(v, row.terms.as_slice()) {
        let put = substitute(alloc, row, v, by)?;
        Ok(normal_form(alloc, put))
    } else {
        Ok(Some(row.clone()?))
    }
}

/// Adds a row with the variable replaced. Whether it was lost.
#[tactic(auto, using(crate::proofs::PutSteps::putting))]
fn push_put(alloc: Global, out: &mut Vec<Row>, v: Var, by: &Row, row: &Row) -> Result<bool, Memory>
    requires by { IsNormal by.now }
    requires equal { by.now.equal ≡ true }
    requires unit { is_unit (factor_of v by.now.terms) ≡ true }
    requires out { AllRows IsReady out.old.items }
    requires row { IsReady row.now }
    ensures lost { IfOk result (λ l. l ≡ is_lost (put_in_is v by.now row.now)) }
    ensures added { IfOk result (λ _. out.new.items ≡ out.old.items ++ before_rows (put_in_is v by.now row.now) []) }
    ensures ready { IfOk result (λ _. AllRows IsReady out.new.items) }
{
    match put_in(alloc, v, by, row)? {
        None => Ok(true),
        Some(new) => {
            out.push(new)?;
            Ok(false)
        }
    }
}

fn either(one: bool, other: bool) -> bool
    ensures { result ≡ (one || other) }
{
    one || other
}

/// Adds rows with the variable replaced. Whether one was lost.
#[tactic(auto, using(crate::proofs::PutSteps::put_loop))]
fn put_all(
    alloc: Global,
    out: &mut Vec<Row>,
    v: Var,
    by: &Row,
    rows: &[Row],
) -> Result<bool, Memory>
    requires by { IsNormal by.now }
    requires equal { by.now.equal ≡ true }
    requires unit { is_unit (factor_of v by.now.terms) ≡ true }
    requires out { AllRows IsReady out.old.items }
    requires rows { AllRows IsReady rows.now }
    ensures lost { IfOk result (λ l. l ≡ loses_row v by.now rows.now) }
    ensures added { IfOk result (λ _. out.new.items ≡ out.old.items ++ put_in_all v by.now rows.now) }
    ensures ready { IfOk result (λ _. AllRows IsReady out.new.items) }
{
    let mut lost = false;
    for row in rows {
        let one = push_put(alloc, out, v, by, row)?;
        lost = either(lost, one);
    }
    Ok(lost)
}

/// A system with a variable replaced in all rows by what the equal row `by`, which has the factor 1 or -1 there, says that it is; weak where a row is
/// lost to a number that reaches 2^62. It is not tidied.
pub fn put_row(alloc: Global, v: Var, by: &Row, s: System) -> Result<System, Memory>
    requires by { IsNormal by.now }
    requires equal { by.now.equal ≡ true }
    requires unit { is_unit (factor_of v by.now.terms) ≡ true }
    requires rows { AllRows IsReady s.rows }
    ensures defined { IfOk result (λ t. t ≡ put_row_is v by.now s) }
    ensures ready { IfOk result (λ t. AllRows IsReady t.rows) }
{
    let mut rows = Vec::new(alloc);
    let lost = put_all(alloc, &mut rows, v, by, s.rows.as_slice())?;
    Ok(System {
        rows: List::from_vec(rows),
        weak: either(s.weak, lost),
    })
}
