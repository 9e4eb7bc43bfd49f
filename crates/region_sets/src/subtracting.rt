//! A region less another of the same variable.
ghost use Rattle.std.specs.Prelude.{◌≡◌, ◌++◌, true, IfOk, IfSome};
ghost use Rattle.affine_systems.specs.Given.{Fits};
ghost use Rattle.hull_projection.specs.Minus.{AllFit};
ghost use Rattle.region_sets.specs.Regions.{RegionFits};
ghost use Rattle.region_sets.specs.Subtract.{is_place as is_place_is, are_place_terms as are_place_terms_is, are_place_rows as are_place_rows_is, are_places as are_places_is, less_piece, less_one as less_one_is, less_all as less_all_is, unless_empty as unless_empty_is, all_left as all_left_is, are_apart as are_apart_is, all_apart as all_apart_is, subtract as subtract_is};
ghost use Rattle.region_sets.specs.Settled.{IsFixed};
ghost use Rattle.region_sets.specs.Laws.{KeepsRest, HasRestAlone};

use crate::Region;
use crate::living::trim_unless;
use crate::region::{copy_system, push_copies, push_system, remade, with_flag};
use crate::sets::same_pieces;
use affine_systems::{Row, System, Term, Var, meet};
use fx_lists::List;
use hull_projection::{apart, refuted};
use std::alloc::{AllocError as Memory, Global};

/// Whether a variable is a subscript or a cell.
fn is_place(v: Var) -> bool
    ensures { result ≡ is_place_is v }
{
    match v {
        Var::Cell(_) | Var::Phi(_) => true,
        Var::Exit(_) | Var::Aux(_) => false,
    }
}

fn are_place_terms(terms: &[Term]) -> bool
    ensures { result ≡ are_place_terms_is terms.now }
{
    let mut rest = terms;
    while let [t, more @ ..] = rest {
        if !is_place(t.var) {
            return false;
        }
        rest = more;
    }
    true
}

fn are_place_rows(rows: &[Row]) -> bool
    ensures { result ≡ are_place_rows_is rows.now }
{
    let mut rest = rows;
    while let [row, more @ ..] = rest {
        if !are_place_terms(row.terms.as_slice()) {
            return false;
        }
        rest = more;
    }
    true
}

/// Whether all rows are on subscripts and cells alone.
fn are_places(systems: &[System]) -> bool
    ensures { result ≡ are_places_is systems.now }
{
    let mut rest = systems;
    while let [s, more @ ..] = rest {
        if !are_place_rows(s.rows.as_slice()) {
            return false;
        }
        rest = more;
    }
    true
}

/// Adds what is left of a piece, less a system.
#[tactic(auto, using(crate::proofs::Steps::leaving))]
fn push_less(
    alloc: Global,
    out: &mut List<System>,
    s: &System,
    piece: &System,
) -> Result<(), Memory>
    requires out { AllFit out.old }
    requires s { Fits s.now }
    requires piece { Fits piece.now }
    ensures added { IfOk result (λ _. out.new ≡ out.old ++ less_piece s.now piece.now) }
    ensures fits { IfOk result (λ _. AllFit out.new) }
{
    let both = meet(alloc, piece, s)?;
    if refuted(alloc, &both)? {
        return push_system(out, copy_system(piece)?);
    }
    let parts = apart(alloc, piece, s)?;
    push_copies(out, parts.as_slice())
}

/// What is left of the pieces, less a system.
#[tactic(auto, using(crate::proofs::Steps::leaving))]
fn less_one(alloc: Global, s: &System, pieces: &[System]) -> Result<List<System>, Memory>
    requires s { Fits s.now }
    requires pieces { AllFit pieces.now }
    ensures defined { IfOk result (λ ss. ss ≡ less_one_is s.now pieces.now) }
    ensures fits { IfOk result AllFit }
{
    let mut out = List::new(alloc);
    let mut rest = pieces;
    while let [piece, more @ ..] = rest {
        push_less(alloc, &mut out, s, piece)?;
        rest = more;
    }
    Ok(out)
}

/// What is left of the pieces, less systems, one after the other.
#[tactic(auto, using(crate::proofs::Steps::leaving))]
fn less_all(alloc: Global, pieces: &[System], systems: &[System]) -> Result<List<System>, Memory>
    requires pieces { AllFit pieces.now }
    requires systems { AllFit systems.now }
    ensures defined { IfOk result (λ ss. ss ≡ less_all_is pieces.now systems.now) }
    ensures fits { IfOk result AllFit }
{
    let mut left = List::new(alloc);
    push_copies(&mut left, pieces)?;
    let mut rest = systems;
    while let [s, more @ ..] = rest {
        left = less_one(alloc, s, left.as_slice())?;
        rest = more;
    }
    Ok(left)
}

/// Whether a system has no point in common with others, as refutation shows.
fn are_apart(alloc: Global, piece: &System, systems: &[System]) -> Result<bool, Memory>
    requires piece { Fits piece.now }
    requires systems { AllFit systems.now }
    ensures { IfOk result (λ b. b ≡ are_apart_is piece.now systems.now) }
{
    let mut rest = systems;
    while let [s, more @ ..] = rest {
        let both = meet(alloc, piece, s)?;
        if !refuted(alloc, &both)? {
            return Ok(false);
        }
        rest = more;
    }
    Ok(true)
}

fn all_apart(alloc: Global, pieces: &[System], systems: &[System]) -> Result<bool, Memory>
    requires pieces { AllFit pieces.now }
    requires systems { AllFit systems.now }
    ensures { IfOk result (λ b. b ≡ all_apart_is pieces.now systems.now) }
{
    let mut rest = pieces;
    while let [piece, more @ ..] = rest {
        if !are_apart(alloc, piece, systems)? {
            return Ok(false);
        }
        rest = more;
    }
    Ok(true)
}

fn unless_empty(r: &Region, exact: bool, pieces: List<System>) -> Result<Option<Region>, Memory>
    requires { AllFit pieces }
    ensures defined { IfOk result (λ o. o ≡ unless_empty_is r.now exact pieces) }
    ensures fits { IfOk result (λ o. IfSome o RegionFits) }
{
    if pieces.is_empty() {
        return Ok(None);
    }
    Ok(Some(remade(r, exact, pieces)?))
}

/// A region of what is left, trimmed, unless nothing is. `known`: the region is one of a set.
fn all_left(
    alloc: Global,
    known: bool,
    r: &Region,
    pieces: List<System>,
) -> Result<Option<Region>, Memory>
    requires known { known ≡ true → IsFixed r.now }
    requires pieces { AllFit pieces }
    ensures defined { IfOk result (λ o. o ≡ all_left_is r.now pieces) }
    ensures fits { IfOk result (λ o. IfSome o RegionFits) }
{
    let same = known && same_pieces(&r.pieces, &pieces);
    let left = trim_unless(alloc, same, true, pieces)?;
    let just = left.exact;
    unless_empty(r, r.exact && just, left.pieces)
}

/// The difference as `subtract` makes it. `known`: the first region is one of a set, and is not trimmed again where it stays as it is.
pub fn subtract_known(
    alloc: Global,
    known: bool,
    a: &Region,
    b: &Region,
) -> Result<Option<Region>, Memory>
    requires known { known ≡ true → IsFixed a.now }
    requires first { RegionFits a.now }
    requires second { RegionFits b.now }
    ensures defined { IfOk result (λ o. o ≡ subtract_is a.now b.now) }
    ensures fits { IfOk result (λ o. IfSome o RegionFits) }
{
    if b.exact && are_places(b.pieces.as_slice()) {
        let pieces = less_all(alloc, a.pieces.as_slice(), b.pieces.as_slice())?;
        return all_left(alloc, known, a, pieces);
    }
    let apart = all_apart(alloc, a.pieces.as_slice(), b.pieces.as_slice())?;
    Ok(Some(with_flag(alloc, a, a.exact && apart)?))
}

/// The difference of two regions of the same variable, of the kind of the first; it may have more elements, and is None where nothing is
/// left. Only an exact second region is subtracted: each of its systems from all that is left, which is trimmed at the end. Of another one nothing is, and
/// the result is exact where the first is and both are shown to have no element in common.
pub fn subtract(alloc: Global, a: &Region, b: &Region) -> Result<Option<Region>, Memory>
    requires first { RegionFits a.now }
    requires second { RegionFits b.now }
    ensures defined { IfOk result (λ o. o ≡ subtract_is a.now b.now) }
    ensures fits { IfOk result (λ o. IfSome o RegionFits) }
    ensures sound { IfOk result (KeepsRest a.now b.now) }
    ensures exact { IfOk result (HasRestAlone a.now b.now) }
{
    subtract_known(alloc, false, a, b)
}
