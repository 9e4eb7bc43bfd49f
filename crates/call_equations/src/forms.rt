//! Sums of forms, with none where a number reaches 2^62.
ghost use Rattle.std.specs.Prelude.{◌≡◌, ◌^◌, ◌<◌, [], IfOk, IfSome, unsigned_abs};
ghost use Rattle.affine_systems.specs.Given.{IsGiven};
ghost use Rattle.affine_forms.specs.Forms.{IsSmallForm, affine, limited as limited_form, sum_of as sum_of_is};
ghost use Rattle.call_equations.specs.Forms.{zero as zero_is, offset as offset_is, less as less_is, is_zero as is_zero_is, equation as equation_is, is_among as is_among_is, lack as lack_is, unless_among as unless_among_is};

use affine_forms::{Affine, limit, plus, same_row, var_form};
use affine_systems::{Row, Term, Var};
use call_translation::transformer_algebra::has;
use fx_lists::List;
use std::alloc::{AllocError as Memory, Global};

/// One form and `k` times another, where there are both.
pub fn sum_of(
    alloc: Global,
    f: &Option<Affine>,
    k: i128,
    g: &Option<Affine>,
) -> Result<Option<Affine>, Memory>
    requires first { IfSome f.now IsSmallForm }
    requires factor { unsigned_abs k < 2 ^ 62 }
    requires second { IfSome g.now IsSmallForm }
    ensures defined { IfOk result (λ o. o ≡ sum_of_is f.now k g.now) }
    ensures small { IfOk result (λ o. IfSome o IsSmallForm) }
{
    match f {
        None => Ok(None),
        Some(f) => match g {
            None => Ok(None),
            Some(g) => plus(alloc, f, k, g),
        },
    }
}

/// The form of a number.
pub fn number(alloc: Global, n: i128) -> Option<Affine>
    ensures defined { result ≡ limited_form (affine [] n) }
    ensures small { IfSome result IsSmallForm }
{
    limit(Affine {
        terms: List::new(alloc),
        constant: n,
    })
}

pub fn zero(alloc: Global) -> Affine
    ensures defined { result ≡ zero_is }
    ensures small { IsSmallForm result }
{
    Affine {
        terms: List::new(alloc),
        constant: 0,
    }
}

/// One form less another.
pub fn less(alloc: Global, f: &Option<Affine>, g: &Option<Affine>) -> Result<Option<Affine>, Memory>
    requires first { IfSome f.now IsSmallForm }
    requires second { IfSome g.now IsSmallForm }
    ensures defined { IfOk result (λ o. o ≡ less_is f.now g.now) }
    ensures small { IfOk result (λ o. IfSome o IsSmallForm) }
{
    sum_of(alloc, f, -1, g)
}

/// How far a variable is from a form.
pub fn offset(alloc: Global, v: Var, low: &Option<Affine>) -> Result<Option<Affine>, Memory>
    requires { IfSome low.now IsSmallForm }
    ensures defined { IfOk result (λ o. o ≡ offset_is v low.now) }
    ensures small { IfOk result (λ o. IfSome o IsSmallForm) }
{
    let own = Some(var_form(alloc, v)?);
    less(alloc, &own, low)
}

/// Whether a form is 0, whatever its variables are.
pub fn is_zero(f: &Option<Affine>) -> bool
    ensures { result ≡ is_zero_is f.now }
{
    match f {
        None => false,
        Some(f) => f.terms.is_empty() && f.constant == 0,
    }
}

/// The row that says that two forms have one value, where there are both.
pub fn equation(
    alloc: Global,
    f: &Option<Affine>,
    g: &Option<Affine>,
) -> Result<Option<Row>, Memory>
    requires first { IfSome f.now IsSmallForm }
    requires second { IfSome g.now IsSmallForm }
    ensures defined { IfOk result (λ o. o ≡ equation_is f.now g.now) }
    ensures fits { IfOk result (λ o. IfSome o IsGiven) }
{
    match f {
        None => Ok(None),
        Some(f) => match g {
            None => Ok(None),
            Some(g) => Ok(Some(same_row(alloc, f, g)?)),
        },
    }
}

fn is_among(cells: &[u32], v: Var) -> bool
    ensures { result ≡ is_among_is cells.now v }
{
    match v {
        Var::Cell(cell) => has(cells, cell),
        Var::Exit(_) | Var::Phi(_) | Var::Aux(_) => false,
    }
}

/// Whether none of the terms is of one of the cells.
fn lack(cells: &[u32], terms: &[Term]) -> bool
    ensures { result ≡ lack_is cells.now terms.now }
{
    let mut rest = terms;
    while let [t, more @ ..] = rest {
        if is_among(cells, t.var) {
            return false;
        }
        rest = more;
    }
    true
}

/// A form, unless it names one of the cells.
pub fn unless_among(cells: &[u32], f: Option<Affine>) -> Option<Affine>
    requires { IfSome f IsSmallForm }
    ensures defined { result ≡ unless_among_is cells.now f }
    ensures small { IfSome result IsSmallForm }
{
    match f {
        None => None,
        Some(f) => {
            if lack(cells, f.terms.as_slice()) {
                Some(f)
            } else {
                None
            }
        }
    }
}
