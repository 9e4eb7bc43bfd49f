//! Rows that compare two forms.
ghost use Rattle.std.specs.Prelude.{◌≡◌, ◌-ℤ◌, ◌<◌, ◌^◌, pos, unsigned_abs, IfOk};
ghost use Rattle.affine_systems.specs.Given.{IsGiven};
ghost use Rattle.affine_forms.specs.Forms.{IsSmallForm};
ghost use Rattle.affine_forms.specs.Comparisons.{difference as difference_is, at_most_row as at_most_row_is, below_row as below_row_is, same_row as same_row_is, var_form as var_form_is};

use crate::Affine;
use affine_systems::terms::combination;
use affine_systems::{Row, Term, Terms, Var};
use fx_lists::List;
use std::alloc::{AllocError as Memory, Global};

/// The form of a variable: its one term, with factor 1 and constant 0.
pub fn var_form(alloc: Global, var: Var) -> Result<Affine, Memory>
    ensures defined { IfOk result (λ f. f ≡ var_form_is var) }
    ensures small { IfOk result IsSmallForm }
{
    let terms = List::from_slice(alloc, &[Term { var, factor: 1 }])?;
    Ok(Affine { terms, constant: 0 })
}

/// How much larger the second number is.
fn bound_difference(x: i128, y: i128) -> i128
    requires first { unsigned_abs x < 2 ^ 62 }
    requires second { unsigned_abs y < 2 ^ 62 }
    ensures defined { result ≡ (y -ℤ x) }
    ensures below { unsigned_abs result < 2 ^ 126 }
{
    y - x
}

/// How much larger the second number is, less 1.
fn bound_difference_less_1(x: i128, y: i128) -> i128
    requires first { unsigned_abs x < 2 ^ 62 }
    requires second { unsigned_abs y < 2 ^ 62 }
    ensures defined { result ≡ ((y -ℤ x) -ℤ pos 1) }
    ensures below { unsigned_abs result < 2 ^ 126 }
{
    y - x - 1
}

/// The terms of one form less those of another.
fn difference(alloc: Global, left: &Affine, right: &Affine) -> Result<Terms, Memory>
    requires left { IsSmallForm left.now }
    requires right { IsSmallForm right.now }
    ensures { IfOk result (λ ts. ts ≡ difference_is left.now right.now) }
{
    combination(alloc, 1, left.terms.as_slice(), -1, right.terms.as_slice())
}

/// The at-most row which says that the left form is at most the right. Not normalised.
pub fn at_most_row(alloc: Global, left: &Affine, right: &Affine) -> Result<Row, Memory>
    requires left { IsSmallForm left.now }
    requires right { IsSmallForm right.now }
    ensures defined { IfOk result (λ r. r ≡ at_most_row_is left.now right.now) }
    ensures fits { IfOk result IsGiven }
{
    let terms = difference(alloc, left, right)?;
    let bound = bound_difference(left.constant, right.constant);
    Ok(Row {
        equal: false,
        terms,
        bound,
    })
}

/// The at-most row which says that the left form is at most the right less 1. Not normalised.
pub fn below_row(alloc: Global, left: &Affine, right: &Affine) -> Result<Row, Memory>
    requires left { IsSmallForm left.now }
    requires right { IsSmallForm right.now }
    ensures defined { IfOk result (λ r. r ≡ below_row_is left.now right.now) }
    ensures fits { IfOk result IsGiven }
{
    let terms = difference(alloc, left, right)?;
    let bound = bound_difference_less_1(left.constant, right.constant);
    Ok(Row {
        equal: false,
        terms,
        bound,
    })
}

/// The equal row which says that the two forms have one value. Not normalised.
pub fn same_row(alloc: Global, left: &Affine, right: &Affine) -> Result<Row, Memory>
    requires left { IsSmallForm left.now }
    requires right { IsSmallForm right.now }
    ensures defined { IfOk result (λ r. r ≡ same_row_is left.now right.now) }
    ensures fits { IfOk result IsGiven }
{
    let terms = difference(alloc, left, right)?;
    let bound = bound_difference(left.constant, right.constant);
    Ok(Row {
        equal: true,
        terms,
        bound,
    })
}
