//! At most four systems, none within another.
ghost use Rattle.std.specs.Prelude.{◌≡◌, ◌++◌, ◌∷◌, ◌&&◌, ◌<◌, ◌≤◌, [], length, reverse, if◌then◌else◌, IfOk, OnOk};
ghost use Rattle.affine_systems.specs.Given.{Fits};
ghost use Rattle.hull_projection.specs.Minus.{AllFit};
ghost use Rattle.region_sets.specs.Regions.{RegionFits};
ghost use Rattle.region_sets.specs.Within.{within_one};
ghost use Rattle.region_sets.specs.Trim.{live_pieces as live_pieces_is, sifted as sifted_is, limited as limited_is, trim as trim_is, or_infeasible as or_infeasible_is, trimmed_to as trimmed_to_is};
ghost use Rattle.region_sets.specs.Joining.{joined as joined_is, three_and_hull, is_lone_refuted as is_lone_refuted_is};

use crate::Region;
use crate::region::{push_system, remade};
use crate::within::lies_within;
use affine_forms::infeasible;
use affine_systems::System;
use fx_lists::List;
use hull_projection::{hull, refuted};
use std::alloc::{AllocError as Memory, Global};

/// Systems that are trimmed: what is refuted or lies within another is dropped, and of more than four the last become their hull.
#[derive(Drop)]
pub struct Trimmed {
    /// At most four.
    pub pieces: List<System>,
    /// No hull was taken, which may have more points.
    pub exact: bool,
}

/// Adds a system, unless it is refuted.
#[tactic(auto, using(crate::proofs::TrimSteps::trimming))]
fn push_live(alloc: Global, out: &mut Vec<System>, s: System) -> Result<(), Memory>
    requires out { AllFit out.old.items }
    requires s { Fits s }
    ensures added { OnOk result (out.new.items ≡ out.old.items ++ live_pieces_is (s ∷ [])) }
    ensures fits { OnOk result (AllFit out.new.items) }
{
    if !refuted(alloc, &s)? {
        out.push(s)?;
    }
    Ok(())
}

/// The systems that are not refuted.
#[tactic(auto, using(crate::proofs::TrimSteps::trimming))]
fn live_pieces(alloc: Global, pieces: List<System>) -> Result<Vec<System>, Memory>
    requires { AllFit pieces }
    ensures defined { IfOk result (λ v. v.items ≡ live_pieces_is pieces) }
    ensures fits { IfOk result (λ v. AllFit v.items) }
{
    let mut left = pieces.into_vec();
    let mut out = Vec::with_capacity(alloc, left.len())?;
    while let Some(s) = left.pop() {
        push_live(alloc, &mut out, s)?;
    }
    out.reverse();
    Ok(out)
}

/// Adds a system to those that are kept, unless it lies within one of them or of those that are left.
#[tactic(auto, using(crate::proofs::TrimSteps::trimming))]
fn push_apart(
    alloc: Global,
    kept: &mut Vec<System>,
    left: &[System],
    s: System,
) -> Result<(), Memory>
    requires kept { AllFit kept.old.items }
    requires left { AllFit left.now }
    requires s { Fits s }
    ensures added { OnOk result (kept.new.items ≡ (if within_one (reverse left.now ++ reverse kept.old.items) s then kept.old.items else kept.old.items ++ s ∷ [])) }
    ensures fits { OnOk result (AllFit kept.new.items) }
{
    if !lies_within(alloc, left, kept.as_slice(), &s)? {
        kept.push(s)?;
    }
    Ok(())
}

/// From the last to the first, those that lie within no other that is left.
#[tactic(auto, using(crate::proofs::TrimSteps::trimming))]
fn sifted(alloc: Global, pieces: Vec<System>) -> Result<Vec<System>, Memory>
    requires { AllFit pieces.items }
    ensures defined { IfOk result (λ v. v.items ≡ sifted_is (reverse pieces.items) []) }
    ensures fits { IfOk result (λ v. AllFit v.items) }
{
    let mut left = pieces;
    let mut kept = Vec::with_capacity(alloc, left.len())?;
    while let Some(s) = left.pop() {
        push_apart(alloc, &mut kept, left.as_slice(), s)?;
    }
    kept.reverse();
    Ok(kept)
}

/// With one more, of which the last before becomes their hull.
#[tactic(auto, using(crate::proofs::TrimSteps::joining))]
fn with_hull(alloc: Global, pieces: Vec<System>, last: System) -> Result<Vec<System>, Memory>
    requires pieces { AllFit pieces.items }
    requires last { Fits last }
    ensures defined { IfOk result (λ v. v.items ≡ joined_is (pieces.items ++ last ∷ [])) }
    ensures fits { IfOk result (λ v. AllFit v.items) }
{
    let mut left = pieces;
    match left.pop() {
        None => {
            left.push(last)?;
            Ok(left)
        }
        Some(s) => {
            let both = hull(alloc, &s, &last)?;
            left.push(both)?;
            Ok(left)
        }
    }
}

/// The last two become their hull.
#[tactic(auto, using(crate::proofs::TrimSteps::joining))]
fn joined(alloc: Global, pieces: Vec<System>) -> Result<Vec<System>, Memory>
    requires { AllFit pieces.items }
    ensures defined { IfOk result (λ v. v.items ≡ joined_is pieces.items) }
    ensures fits { IfOk result (λ v. AllFit v.items) }
{
    let mut left = pieces;
    match left.pop() {
        None => Ok(left),
        Some(last) => with_hull(alloc, left, last),
    }
}

/// Three of more, and the hull of all others.
#[tactic(auto, using(crate::proofs::TrimSteps::joining))]
fn hulled(alloc: Global, pieces: Vec<System>) -> Result<Vec<System>, Memory>
    requires fits { AllFit pieces.items }
    requires many { 3 < length pieces.items }
    ensures defined { IfOk result (λ v. v.items ≡ three_and_hull pieces.items) }
    ensures fits { IfOk result (λ v. AllFit v.items) }
{
    let mut left = pieces;
    while left.len() > 4 {
        left = joined(alloc, left)?;
    }
    Ok(left)
}

#[tactic(auto, using(crate::proofs::TrimSteps::limiting))]
fn limited(alloc: Global, pieces: Vec<System>) -> Result<Trimmed, Memory>
    requires { AllFit pieces.items }
    ensures defined { IfOk result (λ t. t ≡ limited_is pieces.items) }
    ensures fits { IfOk result (λ t. AllFit t.pieces) }
{
    if pieces.len() > 4 {
        return Ok(Trimmed {
            pieces: List::from_vec(hulled(alloc, pieces)?),
            exact: false,
        });
    }
    Ok(Trimmed {
        pieces: List::from_vec(pieces),
        exact: true,
    })
}

fn trim_many(alloc: Global, pieces: List<System>) -> Result<Trimmed, Memory>
    requires { AllFit pieces }
    ensures defined { IfOk result (λ t. t ≡ trim_is pieces) }
    ensures fits { IfOk result (λ t. AllFit t.pieces) }
{
    let live = live_pieces(alloc, pieces)?;
    let kept = sifted(alloc, live)?;
    limited(alloc, kept)
}

/// The first of some systems is alone and refuted.
fn is_lone_refuted(alloc: Global, pieces: &[System]) -> Result<bool, Memory>
    requires { AllFit pieces.now }
    ensures { IfOk result (λ b. b ≡ is_lone_refuted_is pieces.now) }
{
    match pieces {
        [one] => refuted(alloc, one),
        _ => Ok(false),
    }
}

/// No system, one that is not refuted, or many.
#[tactic(auto, using(crate::proofs::TrimSteps::few))]
fn trimmed_of(alloc: Global, pieces: List<System>) -> Result<Trimmed, Memory>
    requires { AllFit pieces }
    ensures defined { IfOk result (λ t. t ≡ trim_is pieces) }
    ensures fits { IfOk result (λ t. AllFit t.pieces) }
{
    if pieces.len() > 1 {
        return trim_many(alloc, pieces);
    }
    if is_lone_refuted(alloc, pieces.as_slice())? {
        return Ok(Trimmed {
            pieces: List::new(alloc),
            exact: true,
        });
    }
    Ok(Trimmed {
        pieces,
        exact: true,
    })
}

/// The systems without those that are refuted, and, from the last to the first, without each that is shown to lie within another that is left; where
/// more than four are left, the last two become their hull until four are. One refutation for each, and one comparison with each other.
#[tactic(auto, using(crate::proofs::TrimSteps::few))]
pub fn trim(alloc: Global, pieces: List<System>) -> Result<Trimmed, Memory>
    requires { AllFit pieces }
    ensures defined { IfOk result (λ t. t ≡ trim_is pieces) }
    ensures fits { IfOk result (λ t. AllFit t.pieces) }
    ensures few { IfOk result (λ t. length t.pieces ≤ 4) }
{
    trimmed_of(alloc, pieces)
}

/// The system without points where there are none.
#[tactic(auto, using(crate::proofs::TrimSteps::few))]
fn or_infeasible(alloc: Global, pieces: List<System>) -> Result<List<System>, Memory>
    requires { AllFit pieces }
    ensures defined { IfOk result (λ ss. ss ≡ or_infeasible_is pieces) }
    ensures fits { IfOk result AllFit }
{
    if !pieces.is_empty() {
        return Ok(pieces);
    }
    let mut none = List::new(alloc);
    push_system(&mut none, infeasible(alloc)?)?;
    Ok(none)
}

/// A region of these systems, trimmed, of the variable and kind of another; exact where `exact`, no hull was taken, and none of the systems that are
/// left is over-approximated. Where none is left, it has the system without points.
pub fn trimmed_to(
    alloc: Global,
    r: &Region,
    exact: bool,
    pieces: List<System>,
) -> Result<Region, Memory>
    requires { AllFit pieces }
    ensures defined { IfOk result (λ q. q ≡ trimmed_to_is r.now exact pieces) }
    ensures fits { IfOk result RegionFits }
{
    let left = trim(alloc, pieces)?;
    let just = left.exact;
    let pieces = or_infeasible(alloc, left.pieces)?;
    remade(r, exact && just, pieces)
}
