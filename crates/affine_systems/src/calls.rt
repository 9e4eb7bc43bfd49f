//! The calls that end in a tidy, and substitution in a row.
ghost use Rattle.std.specs.Prelude.{◌≡◌, ◌↔◌, true, false, [], ◌∷◌, map, IfOk, IsNone};
ghost use Rattle.affine_systems.specs.Rows.{AllRows, renamed_row as renamed_row_is};
ghost use Rattle.affine_systems.specs.Terms.{renamed_terms as renamed_terms_is};
ghost use Rattle.affine_systems.specs.Points.{factor_of as factor_is};
ghost use Rattle.affine_systems.specs.Normal.{normal, TooBig};
ghost use Rattle.affine_systems.specs.Tidy.{tidy as tidy_is, is_unit, by_row};
ghost use Rattle.affine_systems.specs.Calls.{one_by, push_row as push_row_is, meet as meet_is, rename as rename_is, unless_too_big as unless_too_big_is, substitute as substitute_is};
ghost use Rattle.affine_systems.specs.Given.{AreSmall, IsSmallRow, IsGiven, IsNormal, Fits};
ghost use Rattle.affine_systems.specs.Laws.{KeepsPoints, AddsNoPoint, KeepsCommonPoints, AddsNoCommonPoint, RenamesPoints, RenamesNoPointMore, SaysTheSame};

use crate::false_rows::copy_row;
use crate::normal::normalise;
use crate::rows::cancel;
use crate::systems::{copy_rows, tidy_rows};
use crate::terms::{combination, factor_of};
use crate::{Norm, Row, System, Term, Terms, Var};
use fx_lists::List;
use std::alloc::{AllocError as Memory, Global};

/// The simplified system, in the form that all calls take and give: at most 512 normal rows in the order of rows, one
/// for each list of terms, with the pivot of each equal row in no other row; `0 <= -1` alone where a row is found
/// infeasible. Rows with a number of 2^62 or more, and those past the 512, are lost, which makes it weak.
pub fn tidy(alloc: Global, sys: &System) -> Result<System, Memory>
    requires fits { AllRows IsGiven sys.now.rows }
    ensures defined { IfOk result (λ s. s ≡ tidy_is sys.now) }
    ensures fits { IfOk result Fits }
    ensures sound { IfOk result (KeepsPoints sys.now) }
    ensures no_new_points { IfOk result (AddsNoPoint sys.now) }
{
    let rows = copy_rows(alloc, sys.rows.as_slice())?;
    tidy_rows(alloc, rows, sys.weak)
}

/// The system with one more row, tidied. It has the points of the system at which the row holds, and no others unless
/// it is weak.
pub fn push_row(alloc: Global, sys: &System, row: &Row) -> Result<System, Memory>
    requires fits { Fits sys.now }
    requires row { IsGiven row.now }
    ensures defined { IfOk result (λ s. s ≡ push_row_is sys.now row.now) }
    ensures fits { IfOk result Fits }
    ensures sound { IfOk result (KeepsCommonPoints sys.now.rows (row.now ∷ [])) }
    ensures no_new_points { IfOk result (AddsNoCommonPoint sys.now.rows (row.now ∷ [])) }
{
    let mut rows = copy_rows(alloc, sys.rows.as_slice())?;
    rows.push(copy_row(alloc, row)?)?;
    tidy_rows(alloc, rows, sys.weak)
}

/// The conjunction of two systems, tidied. It has the points that both have, and no others unless it is weak.
pub fn meet(alloc: Global, one: &System, other: &System) -> Result<System, Memory>
    requires fits { Fits one.now }
    requires other_fits { Fits other.now }
    ensures defined { IfOk result (λ s. s ≡ meet_is one.now other.now) }
    ensures fits { IfOk result Fits }
    ensures sound { IfOk result (KeepsCommonPoints one.now.rows other.now.rows) }
    ensures no_new_points { IfOk result (AddsNoCommonPoint one.now.rows other.now.rows) }
{
    let mut rows = copy_rows(alloc, one.rows.as_slice())?;
    let mut more = copy_rows(alloc, other.rows.as_slice())?;
    rows.append(&mut more)?;
    tidy_rows(alloc, rows, one.weak || other.weak)
}

#[tactic(auto, using(crate::proofs::RenameSteps::renamed_steps))]
/// The terms with one variable in place of another.
fn renamed_terms(alloc: Global, terms: &[Term], from: Var, to: Var) -> Result<Terms, Memory>
    requires { AreSmall terms.now }
    ensures { IfOk result (λ ts. ts ≡ renamed_terms_is (one_by from to) terms.now) }
{
    let factor = factor_of(terms, from);
    if factor == 0 || from.is_same(to) {
        return List::from_slice(alloc, terms);
    }
    let one = Term { var: to, factor: 1 };
    let less = Term {
        var: from,
        factor: -1,
    };
    if to.is_before(from) {
        combination(alloc, 1, terms, factor, &[one, less])
    } else {
        combination(alloc, 1, terms, factor, &[less, one])
    }
}

/// The row with one variable in place of another.
fn renamed_row(alloc: Global, row: &Row, from: Var, to: Var) -> Result<Row, Memory>
    requires { IsSmallRow row.now }
    ensures { IfOk result (λ r. r ≡ renamed_row_is (one_by from to) row.now) }
{
    Ok(Row {
        equal: row.equal,
        terms: renamed_terms(alloc, row.terms.as_slice(), from, to)?,
        bound: row.bound,
    })
}

fn renamed_rows(alloc: Global, rows: &[Row], from: Var, to: Var) -> Result<Vec<Row>, Memory>
    requires { AllRows IsSmallRow rows.now }
    ensures { IfOk result (λ rs. rs.items ≡ map (renamed_row_is (one_by from to)) rows.now) }
{
    let mut out = Vec::with_capacity(alloc, rows.len())?;
    for row in rows {
        out.push(renamed_row(alloc, row, from, to)?)?;
    }
    Ok(out)
}

/// The system with the variable `to` in place of `from`, tidied. Where a row has both, their factors are added.
pub fn rename(alloc: Global, sys: &System, from: Var, to: Var) -> Result<System, Memory>
    requires fits { Fits sys.now }
    ensures defined { IfOk result (λ s. s ≡ rename_is sys.now from to) }
    ensures fits { IfOk result Fits }
    ensures sound { IfOk result (RenamesPoints from to sys.now) }
    ensures no_new_points { IfOk result (RenamesNoPointMore from to sys.now) }
{
    let rows = renamed_rows(alloc, sys.rows.as_slice(), from, to)?;
    tidy_rows(alloc, rows, sys.weak)
}

/// The normal form of a row, or the row itself where it is trivial or infeasible; None where it is too big.
fn unless_too_big(mut row: Row) -> Option<Row>
    ensures { result ≡ unless_too_big_is (normal false row) row }
{
    match normalise(&mut row) {
        Norm::TooBig => None,
        Norm::Kept => Some(row),
        Norm::True => Some(row),
        Norm::False => Some(row),
    }
}

/// The normal form of the row with a variable replaced by the equal row `by`, which has factor 1 or -1 there; where
/// that is trivial or infeasible, the row as it comes out. None where a number of the result reaches 2^62.
pub fn substitute(alloc: Global, row: &Row, var: Var, by: &Row) -> Result<Option<Row>, Memory>
    requires row { IsNormal row.now }
    requires by { IsNormal by.now }
    requires equal { by.now.equal ≡ true }
    requires unit { is_unit (factor_is var by.now.terms) ≡ true }
    ensures defined { IfOk result (λ o. o ≡ substitute_is row.now var by.now) }
    ensures too_big { IfOk result (λ o. IsNone o ↔ (normal false (by_row row.now var by.now) ≡ TooBig)) }
    ensures says { IfOk result (SaysTheSame row.now by.now) }
{
    let new = cancel(alloc, row, var, by)?;
    Ok(unless_too_big(new))
}
