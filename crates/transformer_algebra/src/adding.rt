//! Terms added one after the other to ascending ones.
ghost use Rattle.std.specs.Prelude.{◌≡◌, ◌++◌, ◌<◌, ◌≤◌, ◌^◌, length, take, drop, unsigned_abs, ◌+ℤ◌, IfOk};
ghost use Rattle.affine_systems.specs.Terms.{term_before, add_term as add_term_is};
ghost use Rattle.affine_systems.specs.Given.{FactorsBelow};

use affine_systems::terms::push_term;
use affine_systems::{Term, Var};
use std::alloc::AllocError as Memory;

/// Puts a term at a place, unless its factor is 0.
fn insert_term(out: &mut Vec<Term>, at: usize, var: Var, factor: i128) -> Result<(), Memory>
    requires { at ≤ length out.old.items }
    ensures { IfOk result (λ _. out.new.items ≡ take at out.old.items ++ term_before var factor (drop at out.old.items)) }
{
    if factor != 0 {
        out.insert(at, Term { var, factor })?;
    }
    Ok(())
}

fn sum(x: i128, y: i128) -> i128
    requires first { unsigned_abs x < 2 ^ 62 }
    requires second { unsigned_abs y < 2 ^ 126 }
    ensures { result ≡ (x +ℤ y) }
{
    x + y
}

/// Adds a term to a sum of ascending terms: as a new term in its place, or to the factor that its variable has there;
/// terms with factor 0 are left out. Linear in the terms.
pub fn add_term(out: &mut Vec<Term>, var: Var, factor: i128) -> Result<(), Memory>
    requires terms { FactorsBelow (2 ^ 126) out.old.items }
    requires factor { unsigned_abs factor < 2 ^ 62 }
    ensures { IfOk result (λ _. out.new.items ≡ add_term_is var factor out.old.items) }
{
    for i in 0..out.len() {
        let t = out[i];
        if var.is_same(t.var) {
            let _ = out.remove(i);
            return insert_term(out, i, var, sum(factor, t.factor));
        }
        if var.is_before(t.var) {
            return insert_term(out, i, var, factor);
        }
    }
    push_term(out, var, factor)
}
