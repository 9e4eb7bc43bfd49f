//! Whether rows are such as the calls take.
ghost use Rattle.std.specs.Prelude.{◌≡◌, ◌<◌, ◌^◌, true, unsigned_abs, IfOk, IfSome};
ghost use Rattle.affine_systems.specs.Rows.{AllRows};
ghost use Rattle.affine_systems.specs.Given.{IsGiven, Fits};
ghost use Rattle.hull_projection.specs.Closure.{IsCell, AreCells};
ghost use Rattle.cases_rows.specs.Given.{IsGivenTerm, IsBeforeFirst, AreGiven};

use affine_systems::{Row, System, Term, Var, tidy};
use std::alloc::{AllocError, Global};

/// Whether a number is below 2^126 in magnitude.
fn is_below(number: i128) -> bool
    ensures { result ≡ true → unsigned_abs number < 2 ^ 126 }
{
    number.unsigned_abs() < 1 << 126
}

/// Whether the factor is not 0, and below 2^126 in magnitude.
fn is_term(t: Term) -> bool
    ensures { result ≡ true → IsGivenTerm t }
{
    t.factor != 0 && is_below(t.factor)
}

#[tactic(auto, using(crate::proofs::GivenSteps::before_steps))]
/// Whether a variable comes before the first of the terms.
fn comes_before(v: Var, terms: &[Term]) -> bool
    ensures { result ≡ true → IsBeforeFirst v terms.now }
{
    terms.is_empty() || v.is_before(terms[0].var)
}

/// Whether terms ascend without zeros and have factors below 2^126.
fn are_terms(terms: &[Term]) -> bool
    ensures { result ≡ true → AreGiven terms.now }
{
    let mut i = terms.len();
    while i > 0 {
        i -= 1;
        let t = terms[i];
        if !is_term(t) || !comes_before(t.var, &terms[i + 1..]) {
            return false;
        }
    }
    true
}

/// Whether it is a row that a call takes.
pub fn is_row(row: &Row) -> bool
    ensures { result ≡ true → IsGiven row.now }
{
    is_below(row.bound) && are_terms(row.terms.as_slice())
}

pub fn are_rows(rows: &[Row]) -> bool
    ensures { result ≡ true → AllRows IsGiven rows.now }
{
    for row in rows {
        if !is_row(row) {
            return false;
        }
    }
    true
}

fn is_cell(v: Var) -> bool
    ensures { result ≡ true → IsCell v }
{
    match v {
        Var::Cell(_) => true,
        Var::Exit(_) => false,
        Var::Phi(_) => false,
        Var::Aux(_) => false,
    }
}

pub fn are_cells(vars: &[Var]) -> bool
    ensures { result ≡ true → AreCells vars.now }
{
    for v in vars {
        if !is_cell(*v) {
            return false;
        }
    }
    true
}

/// The tidied system, or None where the rows are not such as `tidy` takes.
pub fn fitting(alloc: Global, sys: &System) -> Result<Option<System>, AllocError>
    ensures { IfOk result (λ o. IfSome o Fits) }
{
    if are_rows(sys.rows.as_slice()) {
        Ok(Some(tidy(alloc, sys)?))
    } else {
        Ok(None)
    }
}
