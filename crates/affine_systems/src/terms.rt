//! Terms of rows: the factor of a variable, and combinations.
ghost use Rattle.std.specs.Prelude.{◌≡◌, ◌+ℤ◌, ◌*ℤ◌, ◌<◌, ◌≤◌, ◌^◌, ◌++◌, [], unsigned_abs, IfOk};
ghost use Rattle.affine_systems.specs.Terms.{Ascends, term_before, add_terms};
ghost use Rattle.affine_systems.specs.Rows.{combined_terms};
ghost use Rattle.affine_systems.specs.Points.{factor_of as factor_is};
ghost use Rattle.affine_systems.specs.Given.{AreSmall};

use crate::{Term, Terms, Var};
use fx_lists::List;
use std::alloc::{AllocError as Memory, Global};
use std::cmp::Ordering;

/// The factor of a variable in ascending terms, 0 where it does not occur.
pub fn factor_of(terms: &[Term], v: Var) -> i128
    requires { Ascends terms.now }
    ensures { result ≡ factor_is v terms.now }
{
    for t in terms {
        match t.var.order(v) {
            Ordering::Less => {}
            Ordering::Equal => return t.factor,
            Ordering::Greater => return 0,
        }
    }
    0
}

fn scale(p: i128, x: i128) -> i128
    requires factor { unsigned_abs p < 2 ^ 62 }
    requires number { unsigned_abs x < 2 ^ 62 }
    ensures defined { result ≡ p *ℤ x }
    ensures below { unsigned_abs result ≤ 2 ^ 124 }
{
    p * x
}

/// p times x and q times y, added. All are below 2^62 in magnitude, the result is below 2^126.
pub fn blend(p: i128, x: i128, q: i128, y: i128) -> i128
    requires one { unsigned_abs p < 2 ^ 62 }
    requires first { unsigned_abs x < 2 ^ 62 }
    requires two { unsigned_abs q < 2 ^ 62 }
    requires second { unsigned_abs y < 2 ^ 62 }
    ensures defined { result ≡ ((p *ℤ x) +ℤ (q *ℤ y)) }
    ensures below { unsigned_abs result < 2 ^ 126 }
{
    scale(p, x) + scale(q, y)
}

/// Adds a term after the others, unless its factor is 0.
pub fn push_term(out: &mut Vec<Term>, var: Var, factor: i128) -> Result<(), Memory>
    ensures { IfOk result (λ _. out.new.items ≡ out.old.items ++ term_before var factor []) }
{
    if factor != 0 {
        out.push(Term { var, factor })?;
    }
    Ok(())
}

/// Adds p times each term at the end.
fn push_scaled(out: &mut Vec<Term>, p: i128, terms: &[Term]) -> Result<(), Memory>
    requires factor { unsigned_abs p < 2 ^ 62 }
    requires small { AreSmall terms.now }
    ensures { IfOk result (λ _. out.new.items ≡ out.old.items ++ add_terms p terms.now []) }
{
    for t in terms {
        push_term(out, t.var, scale(p, t.factor))?;
    }
    Ok(())
}

/// The sum of p times the terms `ts` and q times the terms `us`, both ascending: ascending again, without factors 0.
/// One merge, linear in both.
pub fn combination(
    alloc: Global,
    p: i128,
    ts: &[Term],
    q: i128,
    us: &[Term],
) -> Result<Terms, Memory>
    requires one { unsigned_abs p < 2 ^ 62 }
    requires first { AreSmall ts.now }
    requires two { unsigned_abs q < 2 ^ 62 }
    requires second { AreSmall us.now }
    ensures { IfOk result (λ terms. terms ≡ combined_terms p ts.now q us.now) }
{
    let mut out = Vec::with_capacity(alloc, ts.len().max(us.len()))?;
    let mut i = 0;
    let mut j = 0;
    while i < ts.len() && j < us.len() {
        let t = ts[i];
        let u = us[j];
        match t.var.order(u.var) {
            Ordering::Less => {
                push_term(&mut out, t.var, scale(p, t.factor))?;
                i += 1;
            }
            Ordering::Equal => {
                push_term(&mut out, t.var, blend(p, t.factor, q, u.factor))?;
                i += 1;
                j += 1;
            }
            Ordering::Greater => {
                push_term(&mut out, u.var, scale(q, u.factor))?;
                j += 1;
            }
        }
    }
    push_scaled(&mut out, p, &ts[i..])?;
    push_scaled(&mut out, q, &us[j..])?;
    Ok(List::from_vec(out))
}
