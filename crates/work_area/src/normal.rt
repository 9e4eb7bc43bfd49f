//! The normal form of a row.
ghost use Rattle.std.specs.Prelude.{true, false, neg_ℤ, [], ◌≡◌, ◌<◌, ◌≤◌, ◌/◌, ◌%◌, List, pos, if◌then◌else◌};
ghost use Rattle.std.specs.Int.{int_div_euclid};
ghost use Rattle.std.specs.Vec.{vec_capacity};
ghost use Rattle.affine_systems.specs.Terms.{negated_terms};
ghost use Rattle.affine_systems.specs.Rows.{row as row_of};
ghost use Rattle.affine_systems.specs.Items.{item as item_of};
ghost use Rattle.work_area.specs.Slots.{row_in, item_in, room};
ghost use Rattle.affine_systems.specs.Normal.{gcd as gcd_is, divisor as divisor_is, is_small as is_small_number, are_small as are_small_factors, last_is_negative as last_factor_is_negative, divided, normal, turned_divided, without_terms as without_terms_is, Answers};

use crate::slot::Slot;
use affine_systems::{Norm, Term};

#[tactic(auto, using(affine_systems::proofs::GcdSteps::gcd_step, affine_systems::proofs::GcdSteps::gcd_end))]
/// The greatest common divisor of numbers of one word.
fn word_gcd(a: u64, b: u64) -> u64
    ensures { result ≡ gcd_is a b }
{
    let mut x = a;
    let mut y = b;
    while y != 0 {
        let rest = x % y;
        x = y;
        y = rest;
    }
    x
}

#[tactic(auto, using(affine_systems::proofs::GcdSteps::gcd_step, affine_systems::proofs::GcdSteps::gcd_end))]
/// The greatest common divisor. From where both numbers have one word, division is faster.
fn gcd(a: u128, b: u128) -> u128
    ensures { result ≡ gcd_is a b }
{
    let mut x = a;
    let mut y = b;
    while y != 0 {
        if x < 1 << 64 && y < 1 << 64 {
            return word_gcd(x as u64, y as u64) as u128;
        }
        let rest = x % y;
        x = y;
        y = rest;
    }
    x
}

#[tactic(auto, using(affine_systems::proofs::GcdSteps::divisor_loop))]
/// What a row is divided by; at least 1.
fn divisor(terms: &[Term], start: u128) -> u128
    ensures defined { result ≡ divisor_is terms.now start }
    ensures positive { 0 < result }
{
    let mut g = start;
    for t in terms {
        g = gcd(t.factor.unsigned_abs(), g);
        if g == 1 {
            return 1;
        }
    }
    g.max(1)
}

/// The quotient. Division is faster where both numbers have one word.
fn quotient(n: u128, g: u128) -> u128
    requires { 0 < g }
    ensures { result ≡ n / g }
{
    if n < 1 << 64 && g < 1 << 64 {
        (n as u64 / g as u64) as u128
    } else {
        n / g
    }
}

/// The rest of a division, which is faster where both numbers have one word.
fn remainder(n: u128, g: u128) -> u128
    requires { 0 < g }
    ensures { result ≡ n % g }
{
    if n < 1 << 64 && g < 1 << 64 {
        (n as u64 % g as u64) as u128
    } else {
        n % g
    }
}

#[tactic(auto, using(affine_systems::proofs::ExactLaws::div_one))]
/// The quotient rounded down.
fn floor_div(z: i128, g: u128) -> i128
    requires { 0 < g }
    ensures { result ≡ int_div_euclid z (pos g) }
{
    if g == 1 {
        z
    } else if z >= 0 {
        quotient(z.unsigned_abs(), g) as i128
    } else {
        -1 - quotient(z.unsigned_abs() - 1, g) as i128
    }
}

#[tactic(auto, unfolding(affine_systems::specs::Normal::is_small))]
/// Whether a number is below 2^62 in magnitude.
fn is_small(z: i128) -> bool
    ensures { result ≡ is_small_number z }
{
    z.unsigned_abs() < 1 << 62
}

/// Whether the last term has a negative factor; false where there are no terms.
pub fn last_is_negative(terms: &[Term]) -> bool
    ensures { result ≡ last_factor_is_negative terms.now }
{
    match terms.last() {
        Some(t) => t.factor < 0,
        None => false,
    }
}

/// The factors divided, each rounded down.
fn divide(terms: &mut Vec<Term>, g: u128)
    requires { 0 < g }
    ensures items { terms.new.items ≡ divided g terms.old.items }
    ensures room { vec_capacity terms.old ≤ vec_capacity terms.new }
{
    for i in 0..terms.len() {
        let t = terms.as_slice()[i];
        let factor = floor_div(t.factor, g);
        terms[i] = Term { var: t.var, factor };
    }
}

#[tactic(auto, using(affine_systems::proofs::Factors::negation_small))]
/// The number, below 2^62 in magnitude, with the opposite sign.
fn turn(z: i128) -> i128
    requires { is_small_number z ≡ true }
    ensures { result ≡ neg_ℤ z }
{
    -z
}

/// The terms with factors of the opposite sign.
fn negate(terms: &mut Vec<Term>)
    requires { are_small_factors terms.now.items ≡ true }
    ensures items { terms.new.items ≡ negated_terms terms.old.items }
    ensures room { vec_capacity terms.old ≤ vec_capacity terms.new }
{
    for i in 0..terms.len() {
        let t = terms.as_slice()[i];
        let factor = turn(t.factor);
        terms[i] = Term { var: t.var, factor };
    }
}

#[tactic(auto, using(affine_systems::proofs::Factors::are_small_divided_loop))]
/// Whether all factors are small once they are divided.
fn are_small_divided(terms: &[Term], g: u128) -> bool
    requires { 0 < g }
    ensures { result ≡ are_small_factors (divided g terms.now) }
{
    for t in terms {
        if !is_small(floor_div(t.factor, g)) {
            return false;
        }
    }
    true
}

/// The answer for a row without terms.
fn without_terms(equal: bool, bound: i128) -> Norm
    ensures { Answers (without_terms_is equal bound) result (row_of equal [] bound) (row_of equal [] bound) }
{
    let holds = if equal { bound == 0 } else { bound >= 0 };
    if holds { Norm::True } else { Norm::False }
}

#[tactic(auto, using(affine_systems::proofs::RowSteps::turned_is))]
/// Divides a row, and makes the last factor of an equal row positive.
fn divide_row(slot: &mut Slot, g: u128)
    requires positive { 0 < g }
    requires factors { are_small_factors (divided g slot.now.terms.items) ≡ true }
    requires bound { is_small_number (int_div_euclid slot.now.bound (pos g)) ≡ true }
    ensures item { item_in slot.new ≡ item_of (turned_divided g (row_in slot.old)) slot.old.originals slot.old.made }
    ensures room { room slot.old ≤ room slot.new }
{
    divide(&mut slot.terms, g);
    slot.bound = floor_div(slot.bound, g);
    if slot.equal && last_is_negative(slot.terms.as_slice()) {
        negate(&mut slot.terms);
        slot.bound = turn(slot.bound);
    }
}

/// Brings a row to normal form: divides it by the gcd of its factors, with the bound of an at-most row rounded down,
/// and makes the last factor of an equal row positive. The row changes only where the answer is Kept.
pub fn normalise(slot: &mut Slot) -> Norm
    ensures defined { Answers (normal false (row_in slot.old)) result (row_in slot.old) (row_in slot.new) }
    ensures item { item_in slot.new ≡ item_of (row_in slot.new) slot.old.originals slot.old.made }
    ensures room { room slot.old ≤ room slot.new }
{
    if slot.terms.is_empty() {
        return without_terms(slot.equal, slot.bound);
    }
    let g = divisor(slot.terms.as_slice(), 0);
    if slot.equal && remainder(slot.bound.unsigned_abs(), g) != 0 {
        return Norm::False;
    }
    if !is_small(floor_div(slot.bound, g)) || !are_small_divided(slot.terms.as_slice(), g) {
        return Norm::TooBig;
    }
    divide_row(slot, g);
    Norm::Kept
}
