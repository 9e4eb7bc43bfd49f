//! Sets of regions, in order.
ghost use Rattle.std.specs.Prelude.{◌≡◌, ◌++◌, ◌∷◌, ◌-◌, [], length, reverse, take, slice_index_or, true, if◌then◌else◌, IfOk, OnOk};
ghost use Rattle.region_sets.specs.Regions.{RegionFits};
ghost use Rattle.region_sets.specs.Settled.{AreSettled, IsSettled, AllSettled, AllFixed};
ghost use Rattle.region_sets.specs.Laws.{HasUnits, IsAsSharp};
ghost use Rattle.std.specs.declared.cmp.Ordering.TheVariants.{Less};
ghost use Rattle.region_sets.specs.declared.region.Region.{Region as ARegion};
ghost use Rattle.region_sets.specs.Sets.{SetFits, ComeBefore, access_number as access_number_is, region_cmp, with_region as with_region_is, with_trimmed as with_trimmed_is, with_regions, all_trimmed as all_trimmed_is, unite_all as unite_all_is};

use crate::living::{all_trimmed, if_left};
use crate::region::copy_region;
use crate::{Access, Region, RegionSet, unite};
use affine_systems::System;
use f77_ast::order;
use fx_lists::List;
use std::alloc::{AllocError as Memory, Global};
use std::cmp::Ordering;

fn access_number(kind: Access) -> u32
    ensures { result ≡ access_number_is kind }
{
    match kind {
        Access::Read => 0,
        Access::Write => 1,
        Access::In => 2,
        Access::Out => 3,
    }
}

/// By kind, then by variable.
fn region_order(a: &Region, b: &Region) -> Ordering
    ensures { result ≡ region_cmp a.now b.now }
{
    access_number(a.kind)
        .cmp(&access_number(b.kind))
        .then(order(&a.variable, &b.variable))
}

/// Appends a region; the list is neither sorted nor united by it.
#[tactic(auto, using(crate::proofs::Steps::fitting))]
pub fn push_region(out: &mut RegionSet, r: Region) -> Result<(), Memory>
    requires set { SetFits out.old }
    requires r { RegionFits r }
    ensures added { OnOk result (out.new ≡ out.old ++ r ∷ []) }
    ensures fits { OnOk result (SetFits out.new) }
{
    out.push(r)?;
    Ok(())
}

/// Appends copies of regions, in their order.
#[tactic(auto, using(crate::proofs::Steps::fitting))]
pub fn push_regions(alloc: Global, out: &mut RegionSet, set: &[Region]) -> Result<(), Memory>
    requires out { SetFits out.old }
    requires set { SetFits set.now }
    ensures added { OnOk result (out.new ≡ out.old ++ set.now) }
    ensures fits { OnOk result (SetFits out.new) }
{
    let mut rest = set;
    while let [r, more @ ..] = rest {
        push_region(out, copy_region(alloc, r)?)?;
        rest = more;
    }
    Ok(())
}

/// A set into which a region was put, and an index before which all come before the region.
#[derive(Drop)]
struct Placed {
    set: RegionSet,
    at: usize,
}

/// Puts a region into a set: united with the one of its variable and kind, or before the first that comes after it. All before `start` come
/// before it.
#[tactic(auto, using(crate::proofs::SetSteps::region_loop))]
fn with_region(alloc: Global, set: RegionSet, start: usize, r: Region) -> Result<Placed, Memory>
    requires set { SetFits set }
    requires r { RegionFits r }
    requires before { ComeBefore r (take start set) }
    ensures defined { IfOk result (λ p. p.set ≡ with_region_is r set) }
    ensures fits { IfOk result (λ p. SetFits p.set) }
    ensures before { IfOk result (λ p. ComeBefore r (take p.at p.set)) }
{
    let mut regions = set.into_vec();
    for i in start..regions.len() {
        match region_order(&r, &regions[i]) {
            Ordering::Less => {
                regions.insert(i, r)?;
                return Ok(Placed {
                    set: List::from_vec(regions),
                    at: i,
                });
            }
            Ordering::Equal => {
                regions[i] = unite(alloc, &regions[i], &r)?;
                return Ok(Placed {
                    set: List::from_vec(regions),
                    at: i,
                });
            }
            Ordering::Greater => {}
        }
    }
    let at = regions.len();
    regions.push(r)?;
    Ok(Placed {
        set: List::from_vec(regions),
        at,
    })
}

/// Puts a region into a set, with its pieces trimmed, unless none is left. All before `start` come before it. `known`: it is trimmed;
/// `fixed`: a set of which it may be one.
#[tactic(auto, using(crate::proofs::LiveSteps::put_steps))]
fn with_trimmed(
    alloc: Global,
    set: RegionSet,
    start: usize,
    known: bool,
    fixed: &[Region],
    r: Region,
) -> Result<Placed, Memory>
    requires fixed { AllFixed fixed.now }
    requires known { known ≡ true → IsSettled r }
    requires set { SetFits set }
    requires r { RegionFits r }
    requires before { ComeBefore r (take start set) }
    ensures defined { IfOk result (λ p. p.set ≡ with_trimmed_is r set) }
    ensures fits { IfOk result (λ p. SetFits p.set) }
    ensures before { IfOk result (λ p. ComeBefore r (take p.at p.set)) }
{
    match if_left(alloc, known, fixed, r)? {
        None => Ok(Placed { set, at: start }),
        Some(r) => {
            let placed = with_region(alloc, set, start, r)?;
            Ok(placed)
        }
    }
}

/// Whether the last of some regions comes after one.
fn is_last_after(r: &Region, regions: &[Region]) -> bool
    ensures { result ≡ true → (d : ARegion) → region_cmp r.now (slice_index_or regions.now (length regions.now - 1) d) ≡ Less }
{
    match regions.last() {
        None => false,
        Some(next) => region_order(r, next).is_lt(),
    }
}

/// Whether systems are the same, row by row.
pub fn same_pieces(a: &List<System>, b: &List<System>) -> bool
    ensures { result ≡ true → a.now ≡ b.now }
{
    a == b
}

/// Whether a region, which is trimmed, has these pieces, and is exact where `exact`.
#[tactic(auto, using(crate::proofs::SettledLaws::settling))]
fn last_pieces(r: &Region, exact: bool, pieces: &List<System>) -> bool
    requires { IsSettled r.now }
    ensures { result ≡ true → AreSettled exact pieces.now }
{
    if exact && !r.exact {
        return false;
    }
    same_pieces(&r.pieces, pieces)
}

/// Whether the last of some regions, which are trimmed, has these pieces, and is exact where `exact`.
pub(crate) fn last_has(before: &[Region], exact: bool, pieces: &List<System>) -> bool
    requires { AllSettled before.now }
    ensures { result ≡ true → AreSettled exact pieces.now }
{
    match before {
        [] => false,
        [.., last] => last_pieces(last, exact, pieces),
    }
}

/// Adds a region with its pieces trimmed, unless none is left.
#[tactic(auto, using(crate::proofs::SetSteps::trimmed_loop, crate::proofs::SettledLaws::settling))]
fn push_left(alloc: Global, out: &mut RegionSet, known: bool, r: &Region) -> Result<(), Memory>
    requires out { SetFits out.old }
    requires settled { AllSettled out.old }
    requires known { known ≡ true → IsSettled r.now }
    requires r { RegionFits r.now }
    ensures added { OnOk result (out.new ≡ out.old ++ all_trimmed_is (r.now ∷ [])) }
    ensures fits { OnOk result (SetFits out.new) }
    ensures settled { OnOk result (AllSettled out.new) }
{
    let known = known || last_has(out.as_slice(), r.exact, &r.pieces);
    let copy = copy_region(alloc, r)?;
    match if_left(alloc, known, &[], copy)? {
        None => Ok(()),
        Some(one) => push_region(out, one),
    }
}

/// The regions of a set with their pieces trimmed, without those of which none is left.
#[tactic(auto, using(crate::proofs::SetSteps::trimmed_loop))]
pub fn trimmed_regions(alloc: Global, known: bool, regions: &[Region]) -> Result<RegionSet, Memory>
    requires known { known ≡ true → AllSettled regions.now }
    requires fits { SetFits regions.now }
    ensures defined { IfOk result (λ qs. qs ≡ all_trimmed_is regions.now) }
    ensures fits { IfOk result SetFits }
{
    let mut out = List::from_vec(Vec::with_capacity(alloc, regions.len())?);
    let mut rest = regions;
    while let [r, more @ ..] = rest {
        push_left(alloc, &mut out, known, r)?;
        rest = more;
    }
    Ok(out)
}

/// A place where it is of use, else the first.
fn start_at(rises: bool, at: usize) -> usize
    ensures { result ≡ (if rises then at else 0) }
{
    if rises { at } else { 0 }
}

/// Puts regions into a set, the last of them first. Each is looked up among those before it, from the place of the one before it on where it comes after
/// that. `known`: each is trimmed; `fixed`: a set that may have some of them.
#[tactic(auto, using(crate::proofs::LiveSteps::gathering))]
fn put_all(
    alloc: Global,
    known: bool,
    fixed: &[Region],
    set: RegionSet,
    regions: Vec<Region>,
) -> Result<RegionSet, Memory>
    requires fixed { AllFixed fixed.now }
    requires known { known ≡ true → AllSettled regions.items }
    requires set { SetFits set }
    requires regions { SetFits regions.items }
    ensures defined { IfOk result (λ qs. qs ≡ with_regions set (reverse regions.items)) }
    ensures fits { IfOk result SetFits }
{
    let mut left = regions;
    let mut set = set;
    let mut start = 0;
    while let Some(r) = left.pop() {
        let rises = is_last_after(&r, left.as_slice());
        let placed = with_trimmed(alloc, set, start, known, fixed, r)?;
        set = placed.set;
        start = start_at(rises, placed.at);
    }
    Ok(set)
}

/// Regions that are united from left to right; here the last is the first.
#[tactic(auto, using(crate::proofs::SettledLaws::gathered))]
fn gathered(alloc: Global, left: Vec<Region>) -> Result<RegionSet, Memory>
    requires { SetFits left.items }
    ensures defined { IfOk result (λ qs. qs ≡ unite_all_is (reverse left.items)) }
    ensures fits { IfOk result SetFits }
{
    let none = List::from_vec(Vec::with_capacity(alloc, left.len())?);
    let set = put_all(alloc, false, &[], none, left)?;
    all_trimmed(alloc, &[], set)
}

/// Copies of regions, the last first.
#[tactic(auto, using(crate::proofs::LiveSteps::copying))]
fn copies_reversed(alloc: Global, regions: &[Region]) -> Result<Vec<Region>, Memory>
    requires { SetFits regions.now }
    ensures defined { IfOk result (λ v. v.items ≡ reverse regions.now) }
    ensures fits { IfOk result (λ v. SetFits v.items) }
{
    let mut out = Vec::with_capacity(alloc, regions.len())?;
    let mut left = regions.len();
    while left > 0 {
        left -= 1;
        out.push(copy_region(alloc, &regions[left])?)?;
    }
    Ok(out)
}

/// The set of regions that are handed on, as `unite_all` makes it.
#[tactic(auto, using(crate::proofs::LiveSteps::copying))]
pub fn unite_owned(alloc: Global, regions: RegionSet) -> Result<RegionSet, Memory>
    requires { SetFits regions }
    ensures defined { IfOk result (λ qs. qs ≡ unite_all_is regions) }
    ensures fits { IfOk result SetFits }
{
    let mut left = regions.into_vec();
    left.reverse();
    gathered(alloc, left)
}

/// Puts regions that are handed on into a set, from the first on.
#[tactic(auto, using(crate::proofs::LiveSteps::copying))]
fn put_owned(
    alloc: Global,
    known: bool,
    fixed: &[Region],
    set: RegionSet,
    regions: RegionSet,
) -> Result<RegionSet, Memory>
    requires fixed { AllFixed fixed.now }
    requires known { known ≡ true → AllSettled regions }
    requires set { SetFits set }
    requires regions { SetFits regions }
    ensures defined { IfOk result (λ qs. qs ≡ with_regions set regions) }
    ensures fits { IfOk result SetFits }
{
    let mut left = regions.into_vec();
    left.reverse();
    put_all(alloc, known, fixed, set, left)
}

/// The set of regions that are handed on, as `unite_all` makes it, of which the second ones are trimmed. `fixed`: a set that has those of them that came from it
/// as they were.
#[tactic(auto, using(crate::proofs::SettledLaws::gathered))]
pub fn unite_settled(
    alloc: Global,
    fixed: &[Region],
    first: RegionSet,
    second: RegionSet,
) -> Result<RegionSet, Memory>
    requires fixed { AllFixed fixed.now }
    requires settled { AllSettled second }
    requires first { SetFits first }
    requires second { SetFits second }
    ensures defined { IfOk result (λ qs. qs ≡ unite_all_is (first ++ second)) }
    ensures fits { IfOk result SetFits }
{
    let none = List::from_vec(Vec::with_capacity(alloc, second.len())?);
    let one = put_owned(alloc, false, &[], none, first)?;
    let both = put_owned(alloc, true, fixed, one, second)?;
    all_trimmed(alloc, fixed, both)
}

#[tactic(auto, using(crate::proofs::LiveSteps::copying))]
fn all_gathered(alloc: Global, regions: &[Region]) -> Result<RegionSet, Memory>
    requires { SetFits regions.now }
    ensures defined { IfOk result (λ qs. qs ≡ unite_all_is regions.now) }
    ensures fits { IfOk result SetFits }
{
    let left = copies_reversed(alloc, regions)?;
    gathered(alloc, left)
}

/// The set of some regions, in the order of `RegionSet`: those of one variable and kind are united from left to right, and each region is trimmed before
/// and in the set, where one is left out that has no system left. Each region is compared with those before it, from the place of the last on where
/// it comes after that: linear in regions that are in order already.
pub fn unite_all(alloc: Global, regions: &[Region]) -> Result<RegionSet, Memory>
    requires { SetFits regions.now }
    ensures defined { IfOk result (λ qs. qs ≡ unite_all_is regions.now) }
    ensures fits { IfOk result SetFits }
    ensures sound { IfOk result (HasUnits regions.now) }
    ensures exact { IfOk result (IsAsSharp regions.now) }
{
    all_gathered(alloc, regions)
}
