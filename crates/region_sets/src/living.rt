//! Regions that are handed on, with their pieces trimmed.
ghost use Rattle.std.specs.Prelude.{◌≡◌, ◌++◌, ◌∷◌, ◌&&◌, [], true, not, option_to_list, IfOk, IfSome, OnOk};
ghost use Rattle.hull_projection.specs.Minus.{AllFit};
ghost use Rattle.region_sets.specs.Settled.{is_bare as is_bare_is, may_change as may_change_is, AreSettled, IsSettled, AllSettled, IsFixed, AllFixed};
ghost use Rattle.region_sets.specs.Regions.{RegionFits, any_weak as any_weak_is};
ghost use Rattle.region_sets.specs.Trim.{trim as trim_is};
ghost use Rattle.region_sets.specs.Sets.{SetFits, all_trimmed as all_trimmed_is};

use crate::region::any_weak;
use crate::sets::{last_has, same_pieces};
use crate::trimming::trim;
use crate::within::has_no_terms;
use crate::{Region, RegionSet, Trimmed};
use affine_systems::{Row, System};
use fx_lists::List;
use std::alloc::{AllocError as Memory, Global};

/// Whether the first row has no terms.
fn is_bare(rows: &[Row]) -> bool
    ensures { result ≡ is_bare_is rows.now }
{
    match rows {
        [] => false,
        [first, ..] => has_no_terms(first),
    }
}

/// Whether the pieces of a region that is trimmed may change when they are trimmed again: one may be without points, and the last of four a hull.
pub fn may_change(exact: bool, pieces: &[System]) -> bool
    ensures { result ≡ may_change_is exact pieces.now }
{
    match pieces {
        [] | [_, _] | [_, _, _] => false,
        [one] => is_bare(one.rows.as_slice()),
        [_, _, _, _, ..] => !exact,
    }
}

/// Whether one of some regions, which are those of a set, has these pieces.
fn one_has(fixed: &[Region], pieces: &List<System>) -> bool
    requires { AllFixed fixed.now }
    ensures { result ≡ true → AreSettled true pieces.now }
{
    let mut rest = fixed;
    while let [r, more @ ..] = rest {
        if has_pieces(r, pieces) {
            return true;
        }
        rest = more;
    }
    false
}

/// Whether a region of a set has these pieces.
#[tactic(auto, using(crate::proofs::SettledLaws::settling))]
fn has_pieces(r: &Region, pieces: &List<System>) -> bool
    requires { IsFixed r.now }
    ensures { result ≡ true → AreSettled true pieces.now }
{
    same_pieces(&r.pieces, pieces)
}

/// Whether no hull that was taken of them may change pieces that are trimmed: of those of an exact region, or of one of a set.
#[tactic(auto, using(crate::proofs::SettledLaws::settling))]
fn are_sure(fixed: &[Region], exact: bool, pieces: &List<System>) -> bool
    requires { AllFixed fixed.now }
    ensures { AreSettled exact pieces.now → AreSettled result pieces.now }
{
    if exact || !may_change(exact, pieces.as_slice()) {
        return exact;
    }
    one_has(fixed, pieces)
}

/// Systems, trimmed; where it is known that they are trimmed, they stay.
#[tactic(auto, using(crate::proofs::LiveSteps::keeping))]
pub fn trim_unless(
    alloc: Global,
    known: bool,
    exact: bool,
    pieces: List<System>,
) -> Result<Trimmed, Memory>
    requires known { known ≡ true → AreSettled exact pieces }
    requires pieces { AllFit pieces }
    ensures defined { IfOk result (λ t. t ≡ trim_is pieces) }
    ensures fits { IfOk result (λ t. AllFit t.pieces) }
{
    if known && !may_change(exact, pieces.as_slice()) {
        return Ok(Trimmed {
            pieces,
            exact: true,
        });
    }
    trim(alloc, pieces)
}

/// Systems, trimmed; where the last of some regions, which are trimmed, has the same, they are not looked at.
pub fn trim_after(alloc: Global, before: &[Region], pieces: List<System>) -> Result<Trimmed, Memory>
    requires before { AllSettled before.now }
    requires pieces { AllFit pieces }
    ensures defined { IfOk result (λ t. t ≡ trim_is pieces) }
    ensures fits { IfOk result (λ t. AllFit t.pieces) }
{
    let known = last_has(before, false, &pieces);
    trim_unless(alloc, known, false, pieces)
}

/// Whether a region that is exact stays so with these pieces: none of them is over-approximated.
pub fn stays_exact(exact: bool, pieces: &[System]) -> bool
    ensures { result ≡ (exact && not (any_weak_is pieces.now)) }
{
    exact && !any_weak(pieces)
}

/// A region with its pieces trimmed, unless none is left. Nothing is looked at where it is known that they are trimmed, but
/// for a hull of a region that is none of the set `fixed`.
#[tactic(auto, using(crate::proofs::LiveSteps::keeping))]
pub fn if_left(
    alloc: Global,
    known: bool,
    fixed: &[Region],
    r: Region,
) -> Result<Option<Region>, Memory>
    requires fixed { AllFixed fixed.now }
    requires known { known ≡ true → IsSettled r }
    requires region { RegionFits r }
    ensures defined { IfOk result (λ o. option_to_list o ≡ all_trimmed_is (r ∷ [])) }
    ensures fits { IfOk result (λ o. IfSome o RegionFits) }
{
    let Region {
        variable,
        kind,
        exact,
        pieces,
    } = r;
    let sure = are_sure(fixed, exact, &pieces);
    let left = trim_unless(alloc, known, sure, pieces)?;
    let just = left.exact;
    let pieces = left.pieces;
    if pieces.is_empty() {
        return Ok(None);
    }
    let exact = stays_exact(exact && just, pieces.as_slice());
    Ok(Some(Region {
        variable,
        kind,
        exact,
        pieces,
    }))
}

/// Adds a region of a set with its pieces trimmed, unless none is left.
#[tactic(auto, using(crate::proofs::Steps::fitting))]
fn push_trimmed(
    alloc: Global,
    out: &mut Vec<Region>,
    fixed: &[Region],
    r: Region,
) -> Result<(), Memory>
    requires fixed { AllFixed fixed.now }
    requires out { SetFits out.old.items }
    requires settled { IsSettled r }
    requires region { RegionFits r }
    ensures added { OnOk result (out.new.items ≡ out.old.items ++ all_trimmed_is (r ∷ [])) }
    ensures fits { OnOk result (SetFits out.new.items) }
{
    if let Some(r) = if_left(alloc, true, fixed, r)? {
        out.push(r)?;
    }
    Ok(())
}

/// The regions of a set with their pieces trimmed, without those of which none is left.
#[tactic(auto, using(crate::proofs::LiveSteps::keeping))]
pub fn all_trimmed(alloc: Global, fixed: &[Region], set: RegionSet) -> Result<RegionSet, Memory>
    requires fixed { AllFixed fixed.now }
    requires settled { AllSettled set }
    requires fits { SetFits set }
    ensures defined { IfOk result (λ qs. qs ≡ all_trimmed_is set) }
    ensures fits { IfOk result SetFits }
{
    let mut left = set.into_vec();
    let mut out = Vec::with_capacity(alloc, left.len())?;
    while let Some(r) = left.pop() {
        push_trimmed(alloc, &mut out, fixed, r)?;
    }
    out.reverse();
    Ok(List::from_vec(out))
}
