//! Rows combined so that a variable cancels.
ghost use Rattle.std.specs.Prelude.{◌≡◌, ◌<◌, ◌^◌, unsigned_abs, IfOk};
ghost use Rattle.affine_systems.specs.Given.{IsSmallRow};
ghost use Rattle.affine_systems.specs.Points.{factor_of as factor_is, occurs as occurs_is};
ghost use Rattle.affine_systems.specs.Rows.{combine_as};
ghost use Rattle.affine_systems.specs.Eliminate.{cancelling};

use crate::terms::{blend, combination, factor_of};
use crate::{Row, Var};
use std::alloc::{AllocError as Memory, Global};

/// The factor of a variable in a row, 0 where it does not occur; below 2^62 in magnitude.
pub fn factor(row: &Row, v: Var) -> i128
    requires { IsSmallRow row.now }
    ensures defined { result ≡ factor_is v row.now.terms }
    ensures small { unsigned_abs result < 2 ^ 62 }
{
    factor_of(row.terms.as_slice(), v)
}

/// Whether a variable occurs in a row.
pub fn occurs(row: &Row, v: Var) -> bool
    requires { IsSmallRow row.now }
    ensures { result ≡ occurs_is v row.now }
{
    factor(row, v) != 0
}

/// The sum of p times one row and q times the other, as an equal or an at-most row, without the terms that cancel. Not
/// normalised.
pub fn combine(
    alloc: Global,
    equal: bool,
    p: i128,
    row: &Row,
    q: i128,
    other: &Row,
) -> Result<Row, Memory>
    requires one { unsigned_abs p < 2 ^ 62 }
    requires first { IsSmallRow row.now }
    requires two { unsigned_abs q < 2 ^ 62 }
    requires second { IsSmallRow other.now }
    ensures { IfOk result (λ r. r ≡ combine_as equal p row.now q other.now) }
{
    Ok(Row {
        equal,
        terms: combination(alloc, p, row.terms.as_slice(), q, other.terms.as_slice())?,
        bound: blend(p, row.bound, q, other.bound),
    })
}

/// The row without v, by an equal row that has v with a factor a: |a| times the row and the multiple of `by` that
/// cancels v, added. Not normalised.
pub fn cancel(alloc: Global, row: &Row, v: Var, by: &Row) -> Result<Row, Memory>
    requires one { IsSmallRow row.now }
    requires two { IsSmallRow by.now }
    ensures { IfOk result (λ r. r ≡ cancelling (factor_is v by.now.terms) row.now by.now (factor_is v row.now.terms)) }
{
    let a = factor(by, v);
    let c = factor(row, v);
    let p = a.unsigned_abs() as i128;
    let q = if a < 0 { c } else { -c };
    combine(alloc, row.equal, p, row, q, by)
}
