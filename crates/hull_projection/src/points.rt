//! Points that are found without elimination. Rows that have a point are not refuted, and most rows that are not refuted have one that is found so.
ghost use Rattle.std.specs.Prelude.{◌≡◌, true, false, IfOk, IfSome};
ghost use Rattle.affine_systems.specs.Points.{Holds, HoldsAll, value};
ghost use Rattle.hull_projection.specs.Refute.{refuted};
ghost use Rattle.hull_projection.specs.Coordinates.{point_of};

use affine_systems::{Row, Term, Var};
use std::alloc::{AllocError as Memory, Global};

/// The most rows for which a point is looked for: the search takes time by rows, times variables.
const FEW: usize = 64;

/// The number of a variable at a point.
#[derive(Clone, Copy)]
pub struct Coordinate {
    pub var: Var,
    pub number: i128,
}

/// The number of a variable, 0 where none is told.
fn number_at(point: &[Coordinate], var: Var) -> i128
    ensures { result ≡ point_of point.now var }
{
    let mut rest = point;
    while let [first, more @ ..] = rest {
        if first.var.is_same(var) {
            return first.number;
        }
        rest = more;
    }
    0
}

/// The sum of terms at a point; None where a number is too large.
#[tactic(auto, using(crate::proofs::PointSteps::one_term_more))]
fn sum_at(point: &[Coordinate], terms: &[Term]) -> Option<i128>
    ensures { IfSome result (λ n. n ≡ value (point_of point.now) terms.now) }
{
    let mut sum: i128 = 0;
    let mut rest = terms;
    while let [t, more @ ..] = rest {
        let part = t.factor.checked_mul(number_at(point, t.var))?;
        sum = sum.checked_add(part)?;
        rest = more;
    }
    Some(sum)
}

/// Whether a row is seen to hold at a point.
fn holds_at(point: &[Coordinate], row: &Row) -> bool
    ensures { result ≡ true → Holds (point_of point.now) row.now }
{
    match sum_at(point, row.terms.as_slice()) {
        None => false,
        Some(sum) => {
            if row.equal {
                sum == row.bound
            } else {
                sum <= row.bound
            }
        }
    }
}

fn all_hold(point: &[Coordinate], rows: &[Row]) -> bool
    ensures { result ≡ true → HoldsAll (point_of point.now) rows.now }
{
    let mut rest = rows;
    while let [row, more @ ..] = rest {
        if !holds_at(point, row) {
            return false;
        }
        rest = more;
    }
    true
}

/// The number of the last variable with the factor 1 or -1 by which the row meets its bound; None where there is none, or a number is too large.
fn met_by(point: &[Coordinate], row: &Row) -> Option<Coordinate> {
    let sum = sum_at(point, row.terms.as_slice())?;
    let lack = row.bound.checked_sub(sum)?;
    let mut found = None;
    for t in row.terms.as_slice() {
        if t.factor == 1 || t.factor == -1 {
            found = Some(*t);
        }
    }
    let t = found?;
    let change = t.factor.checked_mul(lack)?;
    let number = number_at(point, t.var).checked_add(change)?;
    Some(Coordinate { var: t.var, number })
}

/// Tells the number of a variable, in place of the one that was told.
fn put_number(point: &mut Vec<Coordinate>, told: Coordinate) -> Result<(), Memory> {
    for i in 0..point.len() {
        if point[i].var.is_same(told.var) {
            point[i] = told;
            return Ok(());
        }
    }
    point.push(told)?;
    Ok(())
}

/// Changes one number for each row that does not hold, row by row.
fn meet_each(point: &mut Vec<Coordinate>, rows: &[Row]) -> Result<(), Memory> {
    for row in rows {
        if !holds_at(point.as_slice(), row) {
            if let Some(told) = met_by(point.as_slice(), row) {
                put_number(point, told)?;
            }
        }
    }
    Ok(())
}

/// Whether a few rows are seen to have a point: the one that comes of 0 everywhere when one number is changed for each row that does not hold, two
/// times over.
#[tactic(auto, using(crate::proofs::PointSteps::not_refuted))]
pub fn have_found_point(alloc: Global, rows: &[Row]) -> Result<bool, Memory>
    ensures { IfOk result (λ b. b ≡ true → false ≡ refuted rows.now) }
{
    if rows.len() > FEW {
        return Ok(false);
    }
    let mut point = Vec::new(alloc);
    meet_each(&mut point, rows)?;
    meet_each(&mut point, rows)?;
    Ok(all_hold(point.as_slice(), rows))
}
