//! The order of rows, and rows that are opposite to each other.
ghost use Rattle.std.specs.Prelude.{◌≡◌, ◌<◌, ◌^◌, length, unsigned_abs};
ghost use Rattle.affine_systems.specs.Given.{AreSmall};
ghost use Rattle.affine_systems.specs.Terms.{is_opposite as is_opposite_is, are_opposite_terms as are_opposite_terms_is};
ghost use Rattle.affine_systems.specs.Rows.{equal_cmp, vars_cmp, factors_cmp, shape_cmp, same_shape};
ghost use Rattle.affine_systems.specs.Tidy.{are_opposite as are_opposite_is};
ghost use Rattle.work_area.specs.Slots.{row_in};

use crate::slot::Slot;
use affine_systems::Term;
use std::cmp::Ordering;

/// An equal row comes before an at-most row.
fn equal_order(one: bool, other: bool) -> Ordering
    ensures { result ≡ equal_cmp one other }
{
    match (one, other) {
        (true, false) => Ordering::Less,
        (false, true) => Ordering::Greater,
        (true, true) => Ordering::Equal,
        (false, false) => Ordering::Equal,
    }
}

#[tactic(auto, using(affine_systems::proofs::Orders::vars_loop))]
fn vars_order(ts: &[Term], us: &[Term]) -> Ordering
    requires { length us.now ≡ length ts.now }
    ensures { result ≡ vars_cmp ts.now us.now }
{
    for i in 0..ts.len() {
        let order = ts[i].var.order(us[i].var);
        if order != Ordering::Equal {
            return order;
        }
    }
    Ordering::Equal
}

#[tactic(auto, using(affine_systems::proofs::Orders::factors_loop))]
fn factors_order(ts: &[Term], us: &[Term]) -> Ordering
    requires { length us.now ≡ length ts.now }
    ensures { result ≡ factors_cmp ts.now us.now }
{
    for i in 0..ts.len() {
        let order = ts[i].factor.cmp(&us[i].factor);
        if order != Ordering::Equal {
            return order;
        }
    }
    Ordering::Equal
}

#[tactic(auto, unfolding(affine_systems::specs::Rows::shape_cmp))]
/// The order of two rows but for their bounds: equal rows first, then fewer terms, then the variables from the first
/// on, then the factors.
pub fn shape_order(one: &Slot, other: &Slot) -> Ordering
    ensures { result ≡ shape_cmp (row_in one.now) (row_in other.now) }
{
    let first = equal_order(one.equal, other.equal).then(one.terms.len().cmp(&other.terms.len()));
    if first != Ordering::Equal {
        return first;
    }
    let vars = vars_order(one.terms.as_slice(), other.terms.as_slice());
    if vars != Ordering::Equal {
        return vars;
    }
    factors_order(one.terms.as_slice(), other.terms.as_slice())
}

/// Whether two rows differ in their bounds at most.
pub fn has_same_shape(one: &Slot, other: &Slot) -> bool
    ensures { result ≡ same_shape (row_in one.now) (row_in other.now) }
{
    shape_order(one, other).is_eq()
}

/// Whether two terms have the same variable, with opposite factors.
fn is_opposite(t: Term, u: Term) -> bool
    requires { unsigned_abs u.factor < 2 ^ 62 }
    ensures { result ≡ is_opposite_is t u }
{
    t.var.is_same(u.var) && t.factor == -u.factor
}

#[tactic(auto, using(affine_systems::proofs::Orders::opposite_loop))]
/// Whether the terms have the same variables, with opposite factors.
fn are_opposite_terms(ts: &[Term], us: &[Term]) -> bool
    requires len { length us.now ≡ length ts.now }
    requires small { AreSmall us.now }
    ensures { result ≡ are_opposite_terms_is ts.now us.now }
{
    for i in 0..ts.len() {
        if !is_opposite(ts[i], us[i]) {
            return false;
        }
    }
    true
}

#[tactic(auto, using(affine_systems::proofs::Orders::opposite_lengths))]
/// Whether both are at-most rows with the same variables and opposite factors, so that they bound one sum from both
/// sides.
pub fn are_opposite(one: &Slot, other: &Slot) -> bool
    requires { AreSmall other.now.terms.items }
    ensures { result ≡ are_opposite_is (row_in one.now) (row_in other.now) }
{
    !(one.equal || other.equal)
        && one.terms.len() == other.terms.len()
        && are_opposite_terms(one.terms.as_slice(), other.terms.as_slice())
}
