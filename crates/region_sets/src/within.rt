//! Whether systems lie within others, as refutation shows.
ghost use Rattle.std.specs.Prelude.{◌≡◌, ◌++◌, List, true, reverse, IfOk, IfSome};
ghost use Rattle.affine_systems.specs.Given.{Fits};
ghost use Rattle.affine_systems.specs.Rows.{AllRows};
ghost use Rattle.affine_systems.specs.Terms.{has_no_terms as has_no_terms_is};
ghost use Rattle.affine_systems.specs.declared.row.Row.{Row as ARow};
ghost use Rattle.hull_projection.specs.Minus.{AllFit};
ghost use Rattle.region_sets.specs.Within.{gives_row as gives_row_is, gives_rows as gives_rows_is, within_one as within_one_is, all_within as all_within_is};
ghost use Rattle.region_sets.specs.Joining.{AreAnswers};
ghost use Rattle.region_sets.specs.Ready.{IsReady};

use affine_systems::{Row, System};
use hull_projection::{entails, refuted};
use std::alloc::{AllocError as Memory, Global};

/// A row that a system was asked for, and whether the system gives it.
#[derive(Drop)]
pub struct Asked {
    pub row: Row,
    pub given: bool,
}

pub fn has_no_terms(row: &Row) -> bool
    ensures { result ≡ has_no_terms_is row.now.terms }
{
    match row.terms.as_slice() {
        [] => true,
        [_, ..] => false,
    }
}

/// Whether rows are the same.
fn same_row(a: &Row, b: &Row) -> bool
    ensures { result ≡ true → a.now ≡ b.now }
{
    a == b
}

/// A copy of a row.
fn copy_row(row: &Row) -> Result<Row, Memory>
    ensures { IfOk result (λ r. r ≡ row.now) }
{
    Ok(Row {
        equal: row.equal,
        terms: row.terms.clone()?,
        bound: row.bound,
    })
}

/// Whether refutation shows that the row holds at each point of the system.
#[tactic(auto, using(crate::proofs::Steps::ready_rows))]
fn gives_row(alloc: Global, s: &System, row: &Row) -> Result<bool, Memory>
    requires fits { Fits s.now }
    requires row { IsReady row.now }
    ensures { IfOk result (λ b. b ≡ gives_row_is s.now.rows row.now) }
{
    if has_no_terms(row) {
        refuted(alloc, s)
    } else {
        entails(alloc, s, row)
    }
}

/// What was found of a row, if it was asked for.
#[tactic(auto, using(crate::proofs::WithinSteps::answers))]
fn answer_of(asked: &[Asked], row: &Row) -> Option<bool>
    ensures { IfSome result (λ b. (rs : List ARow) → AreAnswers rs asked.now → b ≡ gives_row_is rs row.now) }
{
    let mut rest = asked;
    while let [one, more @ ..] = rest {
        if same_row(&one.row, row) {
            return Some(one.given);
        }
        rest = more;
    }
    None
}

/// Whether the system gives the row, which it is asked for once.
#[tactic(auto, using(crate::proofs::WithinSteps::answers))]
fn gives(alloc: Global, s: &System, row: &Row, asked: &mut Vec<Asked>) -> Result<bool, Memory>
    requires fits { Fits s.now }
    requires row { IsReady row.now }
    requires asked { AreAnswers s.now.rows asked.old.items }
    ensures defined { IfOk result (λ b. b ≡ gives_row_is s.now.rows row.now) }
    ensures asked { IfOk result (λ _. AreAnswers s.now.rows asked.new.items) }
{
    if let Some(given) = answer_of(asked.as_slice(), row) {
        return Ok(given);
    }
    let given = gives_row(alloc, s, row)?;
    let row = copy_row(row)?;
    asked.push(Asked { row, given })?;
    Ok(given)
}

fn gives_rows(
    alloc: Global,
    s: &System,
    rows: &[Row],
    asked: &mut Vec<Asked>,
) -> Result<bool, Memory>
    requires fits { Fits s.now }
    requires rows { AllRows IsReady rows.now }
    requires asked { AreAnswers s.now.rows asked.old.items }
    ensures defined { IfOk result (λ b. b ≡ gives_rows_is s.now.rows rows.now) }
    ensures asked { IfOk result (λ _. AreAnswers s.now.rows asked.new.items) }
{
    let mut rest = rows;
    while let [row, more @ ..] = rest {
        if !gives(alloc, s, row, asked)? {
            return Ok(false);
        }
        rest = more;
    }
    Ok(true)
}

/// Whether a system lies within one of the pieces.
#[tactic(auto, using(crate::proofs::Steps::ready_rows))]
fn within_one(
    alloc: Global,
    pieces: &[System],
    s: &System,
    asked: &mut Vec<Asked>,
) -> Result<bool, Memory>
    requires pieces { AllFit pieces.now }
    requires fits { Fits s.now }
    requires asked { AreAnswers s.now.rows asked.old.items }
    ensures defined { IfOk result (λ b. b ≡ within_one_is pieces.now s.now) }
    ensures asked { IfOk result (λ _. AreAnswers s.now.rows asked.new.items) }
{
    let mut rest = pieces;
    while let [piece, more @ ..] = rest {
        if gives_rows(alloc, s, piece.rows.as_slice(), asked)? {
            return Ok(true);
        }
        rest = more;
    }
    Ok(false)
}

/// Whether a system lies within one of the first or of the others.
#[tactic(auto, using(crate::proofs::WithinSteps::either))]
pub fn lies_within(
    alloc: Global,
    first: &[System],
    others: &[System],
    s: &System,
) -> Result<bool, Memory>
    requires first { AllFit first.now }
    requires others { AllFit others.now }
    requires fits { Fits s.now }
    ensures { IfOk result (λ b. b ≡ within_one_is (reverse first.now ++ reverse others.now) s.now) }
{
    let mut asked = Vec::new(alloc);
    if within_one(alloc, first, s, &mut asked)? {
        return Ok(true);
    }
    within_one(alloc, others, s, &mut asked)
}

fn lies_within_one(alloc: Global, pieces: &[System], s: &System) -> Result<bool, Memory>
    requires pieces { AllFit pieces.now }
    requires fits { Fits s.now }
    ensures { IfOk result (λ b. b ≡ within_one_is pieces.now s.now) }
{
    let mut asked = Vec::new(alloc);
    within_one(alloc, pieces, s, &mut asked)
}

/// Whether each of the systems lies within one of the pieces.
pub fn all_within(alloc: Global, pieces: &[System], systems: &[System]) -> Result<bool, Memory>
    requires pieces { AllFit pieces.now }
    requires systems { AllFit systems.now }
    ensures { IfOk result (λ b. b ≡ all_within_is pieces.now systems.now) }
{
    let mut rest = systems;
    while let [s, more @ ..] = rest {
        if !lies_within_one(alloc, pieces, s)? {
            return Ok(false);
        }
        rest = more;
    }
    Ok(true)
}
