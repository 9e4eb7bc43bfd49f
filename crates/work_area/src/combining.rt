//! Rows combined so that a variable cancels.
ghost use Rattle.std.specs.Prelude.{◌≡◌, ◌<◌, ◌≤◌, ◌^◌, ◌++◌, ◌*ℤ◌, [], length, unsigned_abs};
ghost use Rattle.std.specs.Vec.{vec_capacity};
ghost use Rattle.affine_systems.specs.Terms.{term_before, add_terms};
ghost use Rattle.affine_systems.specs.Given.{AreSmall, IsSmallRow};
ghost use Rattle.affine_systems.specs.Points.{factor_of as factor_is, occurs as occurs_is};
ghost use Rattle.affine_systems.specs.Rows.{combined_terms, combine_as};
ghost use Rattle.affine_systems.specs.Items.{item as item_of, joined};
ghost use Rattle.affine_systems.specs.Eliminate.{cancelling};
ghost use Rattle.work_area.specs.Slots.{row_in, item_in, room};

use crate::slot::{Slot, put_term};
use affine_systems::terms::{blend, factor_of};
use affine_systems::{Term, Var};
use std::cmp::Ordering;

/// The factor of a variable in a row, 0 where it does not occur; below 2^62 in magnitude.
pub fn factor(slot: &Slot, v: Var) -> i128
    requires { IsSmallRow (row_in slot.now) }
    ensures defined { result ≡ factor_is v slot.now.terms.items }
    ensures small { unsigned_abs result < 2 ^ 62 }
{
    factor_of(slot.terms.as_slice(), v)
}

/// Whether a variable occurs in a row.
pub fn occurs(slot: &Slot, v: Var) -> bool
    requires { IsSmallRow (row_in slot.now) }
    ensures { result ≡ occurs_is v (row_in slot.now) }
{
    factor(slot, v) != 0
}

/// Adds a term, for which there is room, unless its factor is 0.
fn put_nonzero(out: &mut Vec<Term>, var: Var, factor: i128)
    requires { length (out.now.items ++ term_before var factor []) ≤ vec_capacity out.now }
    ensures items { out.new.items ≡ out.old.items ++ term_before var factor [] }
    ensures room { vec_capacity out.old ≤ vec_capacity out.new }
{
    if factor != 0 {
        put_term(out, Term { var, factor });
    }
}

/// The product of two numbers below 2^62 in magnitude.
fn scale(p: i128, x: i128) -> i128
    requires factor { unsigned_abs p < 2 ^ 62 }
    requires number { unsigned_abs x < 2 ^ 62 }
    ensures { result ≡ p *ℤ x }
{
    p * x
}

/// Adds p times each term, for which there is room.
fn put_scaled(out: &mut Vec<Term>, p: i128, terms: &[Term])
    requires factor { unsigned_abs p < 2 ^ 62 }
    requires small { AreSmall terms.now }
    requires room { length (out.now.items ++ add_terms p terms.now []) ≤ vec_capacity out.now }
    ensures items { out.new.items ≡ out.old.items ++ add_terms p terms.now [] }
    ensures room { vec_capacity out.old ≤ vec_capacity out.new }
{
    for t in terms {
        put_nonzero(out, t.var, scale(p, t.factor));
    }
}

/// Puts the sum of p times the terms `ts` and q times the terms `us` in the place of what was there: both ascend, and so
/// does the sum, which has no factor 0. One merge, linear in both.
fn put_combination(out: &mut Vec<Term>, p: i128, ts: &[Term], q: i128, us: &[Term])
    requires one { unsigned_abs p < 2 ^ 62 }
    requires first { AreSmall ts.now }
    requires two { unsigned_abs q < 2 ^ 62 }
    requires second { AreSmall us.now }
    requires room { length (combined_terms p ts.now q us.now) ≤ vec_capacity out.now }
    ensures items { out.new.items ≡ combined_terms p ts.now q us.now }
    ensures room { vec_capacity out.old ≤ vec_capacity out.new }
{
    out.clear();
    let mut i = 0;
    let mut j = 0;
    while i < ts.len() && j < us.len() {
        let t = ts[i];
        let u = us[j];
        match t.var.order(u.var) {
            Ordering::Less => {
                put_nonzero(out, t.var, scale(p, t.factor));
                i += 1;
            }
            Ordering::Equal => {
                put_nonzero(out, t.var, blend(p, t.factor, q, u.factor));
                i += 1;
                j += 1;
            }
            Ordering::Greater => {
                put_nonzero(out, u.var, scale(q, u.factor));
                j += 1;
            }
        }
    }
    put_scaled(out, p, &ts[i..]);
    put_scaled(out, q, &us[j..]);
}

/// Puts p times one row and q times the other in a row's place, as an equal or an at-most row, without the terms that
/// cancel, with the originals of both. Not normalised.
pub fn put_combined(
    out: &mut Slot,
    made: u128,
    equal: bool,
    p: i128,
    one: &Slot,
    q: i128,
    other: &Slot,
)
    requires one { unsigned_abs p < 2 ^ 62 }
    requires first { IsSmallRow (row_in one.now) }
    requires two { unsigned_abs q < 2 ^ 62 }
    requires second { IsSmallRow (row_in other.now) }
    requires room { length (combine_as equal p (row_in one.now) q (row_in other.now)).terms ≤ room out.now }
    ensures item { item_in out.new ≡ item_of (combine_as equal p (row_in one.now) q (row_in other.now)) (joined one.now.originals other.now.originals) made }
    ensures room { room out.old ≤ room out.new }
{
    out.equal = equal;
    put_combination(
        &mut out.terms,
        p,
        one.terms.as_slice(),
        q,
        other.terms.as_slice(),
    );
    out.bound = blend(p, one.bound, q, other.bound);
    out.originals = one.originals.union(other.originals);
    out.made = made;
}

/// Puts the row without v, by an equal row that has v with a factor a, in a row's place: |a| times the row and the
/// multiple of `by` that cancels v, added. Not normalised.
pub fn put_cancelled(out: &mut Slot, made: u128, slot: &Slot, v: Var, by: &Slot)
    requires one { IsSmallRow (row_in slot.now) }
    requires two { IsSmallRow (row_in by.now) }
    requires room { length (cancelling (factor_is v by.now.terms.items) (row_in slot.now) (row_in by.now) (factor_is v slot.now.terms.items)).terms ≤ room out.now }
    ensures item { item_in out.new ≡ item_of (cancelling (factor_is v by.now.terms.items) (row_in slot.now) (row_in by.now) (factor_is v slot.now.terms.items)) (joined slot.now.originals by.now.originals) made }
    ensures room { room out.old ≤ room out.new }
{
    let a = factor(by, v);
    let c = factor(slot, v);
    let p = a.unsigned_abs() as i128;
    let q = if a < 0 { c } else { -c };
    put_combined(out, made, slot.equal, p, slot, q, by);
}
