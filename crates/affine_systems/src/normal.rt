//! The normal form of a row.
ghost use Rattle.std.specs.Prelude.{true, false, neg_ℤ, [], ◌≡◌, ◌<◌, ◌≤◌, ◌*◌, ◌^◌, ◌/◌, ◌%◌, length, List, pos, if◌then◌else◌};
ghost use Rattle.std.specs.Int.{int_div_euclid};
ghost use Rattle.affine_systems.specs.Terms.{negated_terms, Ascends};
ghost use Rattle.affine_systems.specs.Given.{IsNormal};
ghost use Rattle.affine_systems.specs.Rows.{row as row_of};
ghost use Rattle.affine_systems.specs.Normal.{gcd as gcd_is, divisor as divisor_is, is_small as is_small_number, are_small as are_small_factors, IsSize, last_is_negative as last_factor_is_negative, start_of as start_is, divided, normal, turned_divided, without_terms as without_terms_is, Answers};

use crate::{Norm, Row, Term, Terms};

#[tactic(auto, using(crate::proofs::GcdSteps::gcd_step, crate::proofs::GcdSteps::gcd_end))]
/// The greatest common divisor of numbers of one word.
fn word_gcd(a: u64, b: u64) -> u64
    ensures { result ≡ gcd_is a b }
{
    let mut x = a;
    let mut y = b;
    while y != 0 {
        let rest = x % y;
        x = y;
        y = rest;
    }
    x
}

#[tactic(auto, using(crate::proofs::GcdSteps::gcd_step, crate::proofs::GcdSteps::gcd_end))]
/// The greatest common divisor. From where both numbers have one word, division is faster.
fn gcd(a: u128, b: u128) -> u128
    ensures { result ≡ gcd_is a b }
{
    let mut x = a;
    let mut y = b;
    while y != 0 {
        if x < 1 << 64 && y < 1 << 64 {
            return word_gcd(x as u64, y as u64) as u128;
        }
        let rest = x % y;
        x = y;
        y = rest;
    }
    x
}

#[tactic(auto, using(crate::proofs::GcdLaws::size_at))]
/// The magnitudes of the smallest and the largest factor.
fn size_range(terms: &[Term]) -> (u128, u128)
    requires { 0 < length terms.now }
    ensures least { IsSize result.0 terms.now }
    ensures most { IsSize result.1 terms.now }
{
    let first = terms[0].factor.unsigned_abs();
    let mut least = first;
    let mut most = first;
    for t in terms {
        let size = t.factor.unsigned_abs();
        if size < least {
            least = size;
        }
        if size > most {
            most = size;
        }
    }
    (least, most)
}

/// Whether the larger number stays at or above 2^62 whatever divisor of the smaller one it is divided by.
fn stays_big(least: u128, most: u128) -> bool
    ensures { result ≡ true → (0 < least) × (least * 2 ^ 62 ≤ most) }
{
    least > 0 && most / (1 << 62) >= least
}

#[tactic(auto, using(crate::proofs::GcdSteps::divisor_loop))]
/// What a row is divided by; at least 1. Dividing starts from the magnitude of one of the factors, so that numbers are
/// small soon.
fn divisor(terms: &[Term], size: u128, start: u128) -> u128
    requires { IsSize size terms.now }
    ensures defined { result ≡ divisor_is terms.now start }
    ensures positive { 0 < result }
{
    let mut g = gcd(size, start);
    for t in terms {
        g = gcd(t.factor.unsigned_abs(), g);
        if g == 1 {
            return 1;
        }
    }
    g.max(1)
}

/// The quotient. Division is faster where both numbers have one word.
fn quotient(n: u128, g: u128) -> u128
    requires { 0 < g }
    ensures { result ≡ n / g }
{
    if n < 1 << 64 && g < 1 << 64 {
        (n as u64 / g as u64) as u128
    } else {
        n / g
    }
}

/// The rest of a division, which is faster where both numbers have one word.
fn remainder(n: u128, g: u128) -> u128
    requires { 0 < g }
    ensures { result ≡ n % g }
{
    if n < 1 << 64 && g < 1 << 64 {
        (n as u64 % g as u64) as u128
    } else {
        n % g
    }
}

#[tactic(auto, using(crate::proofs::ExactLaws::div_one))]
/// The quotient rounded down.
fn floor_div(z: i128, g: u128) -> i128
    requires { 0 < g }
    ensures { result ≡ int_div_euclid z (pos g) }
{
    if g == 1 {
        z
    } else if z >= 0 {
        quotient(z.unsigned_abs(), g) as i128
    } else {
        -1 - quotient(z.unsigned_abs() - 1, g) as i128
    }
}

#[tactic(auto, unfolding(crate::specs::Normal::is_small))]
/// Whether a number is below 2^62 in magnitude.
fn is_small(z: i128) -> bool
    ensures { result ≡ is_small_number z }
{
    z.unsigned_abs() < 1 << 62
}

/// Whether the last term has a negative factor; false where there are no terms.
pub fn last_is_negative(terms: &[Term]) -> bool
    ensures { result ≡ last_factor_is_negative terms.now }
{
    match terms.last() {
        Some(t) => t.factor < 0,
        None => false,
    }
}

/// The factors divided, each rounded down.
fn divide(terms: &mut Terms, g: u128)
    requires { 0 < g }
    ensures { terms.new ≡ divided g terms.old }
{
    for i in 0..terms.len() {
        let t = terms.as_slice()[i];
        let factor = floor_div(t.factor, g);
        terms.set(i, Term { var: t.var, factor });
    }
}

#[tactic(auto, using(crate::proofs::Factors::negation_small))]
/// The number, below 2^62 in magnitude, with the opposite sign.
pub fn turn(z: i128) -> i128
    requires { is_small_number z ≡ true }
    ensures { result ≡ neg_ℤ z }
{
    -z
}

/// The terms with factors of the opposite sign.
fn negate(terms: &mut Terms)
    requires { are_small_factors terms.now ≡ true }
    ensures { terms.new ≡ negated_terms terms.old }
{
    for i in 0..terms.len() {
        let t = terms.as_slice()[i];
        let factor = turn(t.factor);
        terms.set(i, Term { var: t.var, factor });
    }
}

#[tactic(auto, using(crate::proofs::Factors::are_small_divided_loop))]
/// Whether all factors are small once they are divided.
fn are_small_divided(terms: &[Term], g: u128) -> bool
    requires { 0 < g }
    ensures { result ≡ are_small_factors (divided g terms.now) }
{
    for t in terms {
        if !is_small(floor_div(t.factor, g)) {
            return false;
        }
    }
    true
}

/// The answer for a row without terms.
fn without_terms(equal: bool, bound: i128) -> Norm
    ensures { Answers (without_terms_is equal bound) result (row_of equal [] bound) (row_of equal [] bound) }
{
    let holds = if equal { bound == 0 } else { bound >= 0 };
    if holds { Norm::True } else { Norm::False }
}

#[tactic(auto, using(crate::proofs::RowSteps::turned_is))]
/// Divides a row, and makes the last factor of an equal row positive.
fn divide_row(row: &mut Row, g: u128)
    requires positive { 0 < g }
    requires factors { are_small_factors (divided g row.now.terms) ≡ true }
    requires bound { is_small_number (int_div_euclid row.now.bound (pos g)) ≡ true }
    ensures { row.new ≡ turned_divided g row.old }
{
    divide(&mut row.terms, g);
    row.bound = floor_div(row.bound, g);
    if row.equal && last_is_negative(row.terms.as_slice()) {
        negate(&mut row.terms);
        row.bound = turn(row.bound);
    }
}

/// Where the gcd of the factors starts.
fn start_of(rational: bool, bound: i128) -> u128
    ensures { result ≡ start_is rational bound }
{
    if rational { bound.unsigned_abs() } else { 0 }
}

/// Brings a row to normal form: divides it by the gcd of its factors, with the bound of an at-most row rounded down,
/// and makes the last factor of an equal row positive. The bound of a `rational` row counts in the gcd, so that it is
/// never rounded. The row changes only where the answer is Kept. An at-most row with factors so far apart that one stays
/// at or above 2^62 is refused before anything is divided.
pub fn normalise_as(rational: bool, row: &mut Row) -> Norm
    ensures { Answers (normal rational row.old) result row.old row.new }
{
    if row.terms.is_empty() {
        return without_terms(row.equal, row.bound);
    }
    let (least, most) = size_range(row.terms.as_slice());
    if !row.equal && stays_big(least, most) {
        return Norm::TooBig;
    }
    let g = divisor(row.terms.as_slice(), least, start_of(rational, row.bound));
    if row.equal && remainder(row.bound.unsigned_abs(), g) != 0 {
        return Norm::False;
    }
    if !is_small(floor_div(row.bound, g)) || !are_small_divided(row.terms.as_slice(), g) {
        return Norm::TooBig;
    }
    divide_row(row, g);
    Norm::Kept
}

/// Brings a row over integers to normal form: divides it by the gcd of its factors, with the bound of an at-most row
/// rounded down, and makes the last factor of an equal row positive. The row changes only where the answer is Kept.
/// Takes no memory.
pub fn normalise(row: &mut Row) -> Norm
    ensures defined { Answers (normal false row.old) result row.old row.new }
    ensures normal { result ≡ Norm.Kept → Ascends row.old.terms → IsNormal row.new }
{
    normalise_as(false, row)
}
