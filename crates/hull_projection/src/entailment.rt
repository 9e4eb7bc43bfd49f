//! Entailment: a row holds at each point of rows where its negations are refuted beside them.
ghost use Rattle.std.specs.Prelude.{◌≡◌, ◌<◌, ◌^◌, ◌∷◌, ◌++◌, [], true, neg_ℤ, pos, ◌-ℤ◌, unsigned_abs, IfOk};
ghost use Rattle.affine_systems.specs.Rows.{AllRows};
ghost use Rattle.affine_systems.specs.Terms.{term, negated_terms as negated_terms_is};
ghost use Rattle.affine_systems.specs.Given.{AreSmall, IsSmallRow, IsGiven, IsNormal, Fits};
ghost use Rattle.hull_projection.specs.Refute.{refuted, above as above_is, below as below_is, entails as entails_is};
ghost use Rattle.hull_projection.specs.Laws.{HoldsThroughout};

use crate::refutation::refuted_rows;
use affine_systems::items::copy_rows;
use affine_systems::{Row, System, Term, Terms};
use fx_lists::List;
use std::alloc::{AllocError as Memory, Global};

/// The negated term.
fn negation(t: Term) -> Term
    requires { unsigned_abs t.factor < 2 ^ 62 }
    ensures { result ≡ term t.var (neg_ℤ t.factor) }
{
    Term {
        var: t.var,
        factor: -t.factor,
    }
}

fn negated_terms(alloc: Global, terms: &[Term]) -> Result<Terms, Memory>
    requires { AreSmall terms.now }
    ensures { IfOk result (λ ts. ts ≡ negated_terms_is terms.now) }
{
    let mut out = Vec::new(alloc);
    for t in terms {
        out.push(negation(*t))?;
    }
    Ok(List::from_vec(out))
}

/// The bound of the negated sum where the sum is above a bound.
fn bound_above(bound: i128) -> i128
    requires { unsigned_abs bound < 2 ^ 62 }
    ensures { result ≡ (neg_ℤ bound -ℤ pos 1) }
{
    -bound - 1
}

/// The bound of the sum where it is below a bound.
fn bound_below(bound: i128) -> i128
    requires { unsigned_abs bound < 2 ^ 62 }
    ensures { result ≡ (bound -ℤ pos 1) }
{
    bound - 1
}

/// The at-most row which says that the sum of the terms is at least the bound plus 1.
pub fn above(alloc: Global, row: &Row) -> Result<Row, Memory>
    requires { IsSmallRow row.now }
    ensures { IfOk result (λ r. r ≡ above_is row.now) }
{
    Ok(Row {
        equal: false,
        terms: negated_terms(alloc, row.terms.as_slice())?,
        bound: bound_above(row.bound),
    })
}

/// The at-most row which says that the sum of the terms is at most the bound less 1.
pub fn below(alloc: Global, row: &Row) -> Result<Row, Memory>
    requires { IsSmallRow row.now }
    ensures { IfOk result (λ r. r ≡ below_is row.now) }
{
    Ok(Row {
        equal: false,
        terms: List::from_slice(alloc, row.terms.as_slice())?,
        bound: bound_below(row.bound),
    })
}

/// Whether rows are refuted beside another.
fn refuted_with(alloc: Global, rows: &[Row], row: Row) -> Result<bool, Memory>
    requires each { AllRows IsGiven rows.now }
    requires one { IsGiven row }
    ensures { IfOk result (λ b. b ≡ refuted (rows.now ++ row ∷ [])) }
{
    let mut all = copy_rows(alloc, rows)?;
    all.push(row)?;
    refuted_rows(alloc, all)
}

#[tactic(auto, using(crate::proofs::RefuteSteps::entailing))]
/// Whether the rows are refuted beside each negation of a row.
fn entails_row(alloc: Global, rows: &[Row], row: &Row) -> Result<bool, Memory>
    requires each { AllRows IsGiven rows.now }
    requires row { IsSmallRow row.now }
    ensures { IfOk result (λ b. b ≡ entails_is rows.now row.now) }
{
    let over = above(alloc, row)?;
    let one = refuted_with(alloc, rows, over)?;
    if !one {
        return Ok(false);
    }
    if !row.equal {
        return Ok(true);
    }
    let under = below(alloc, row)?;
    refuted_with(alloc, rows, under)
}

/// Whether refutation shows that the row holds at each point of the system. Where it does not, the row may hold all the
/// same. One refutation for an at-most row, at most two for an equal row.
pub fn entails(alloc: Global, sys: &System, row: &Row) -> Result<bool, Memory>
    requires fits { Fits sys.now }
    requires row { IsNormal row.now }
    ensures defined { IfOk result (λ b. b ≡ entails_is sys.now.rows row.now) }
    ensures holds { IfOk result (λ b. b ≡ true → HoldsThroughout sys.now.rows row.now) }
{
    entails_row(alloc, sys.rows.as_slice(), row)
}
