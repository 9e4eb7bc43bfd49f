//! Rows that are their own normal form, but for the size of their numbers.
ghost use Rattle.std.specs.Prelude.{◌≡◌};
ghost use Rattle.std.specs.List.{list_all};
ghost use Rattle.affine_systems.specs.Normal.{gcd as gcd_is, divisor as divisor_is, last_is_negative as last_is_negative_is};
ghost use Rattle.base_json.specs.Read.{is_reduced as is_reduced_is, is_false_row as is_false_row_is, is_false_alone as is_false_alone_is, rows_fit as rows_fit_is};

use affine_systems::{Row, Term};

/// The greatest common divisor.
#[tactic(auto, using(affine_systems::proofs::GcdSteps::gcd_step, affine_systems::proofs::GcdSteps::gcd_end))]
fn gcd(a: u128, b: u128) -> u128
    ensures { result ≡ gcd_is a b }
{
    let mut x = a;
    let mut y = b;
    while y != 0 {
        let rest = x % y;
        x = y;
        y = rest;
    }
    x
}

/// The greatest common divisor of the factors; 1 where all are 0.
#[tactic(auto, using(affine_systems::proofs::GcdSteps::divisor_loop))]
fn divisor(terms: &[Term]) -> u128
    ensures { result ≡ divisor_is terms.now 0 }
{
    let mut g = 0;
    for t in terms {
        g = gcd(t.factor.unsigned_abs(), g);
        if g == 1 {
            return 1;
        }
    }
    g.max(1)
}

/// Whether the last term has a negative factor; false where there are no terms.
fn last_is_negative(terms: &[Term]) -> bool
    ensures { result ≡ last_is_negative_is terms.now }
{
    match terms.last() {
        Some(t) => t.factor < 0,
        None => false,
    }
}

fn is_reduced(row: &Row) -> bool
    ensures { result ≡ is_reduced_is row.now }
{
    let terms = row.terms.as_slice();
    !terms.is_empty() && divisor(terms) == 1 && !(row.equal && last_is_negative(terms))
}

/// Whether it is the row `0 <= -1`.
fn is_false_row(row: &Row) -> bool
    ensures { result ≡ is_false_row_is row.now }
{
    row.terms.is_empty() && !row.equal && row.bound == -1
}

fn is_false_alone(rows: &[Row]) -> bool
    ensures { result ≡ is_false_alone_is rows.now }
{
    match rows {
        [row] => is_false_row(row),
        _ => false,
    }
}

fn are_reduced(rows: &[Row]) -> bool
    ensures { result ≡ list_all is_reduced_is rows.now }
{
    rows.iter().all(|row| is_reduced(row))
}

/// Whether rows are a system: at most 512, each its own normal form but for the size of its numbers, or the row `0 <= -1` alone.
pub fn rows_fit(rows: &[Row]) -> bool
    ensures { result ≡ rows_fit_is rows.now }
{
    rows.len() <= 512 && (is_false_alone(rows) || are_reduced(rows))
}
