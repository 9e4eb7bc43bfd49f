//! What of WRITE regions may be read later.
ghost use Rattle.std.specs.Prelude.{◌≡◌, ◌++◌, true, map, IfOk, IfSome, OnOk};
ghost use Rattle.hull_projection.specs.Minus.{AllFit};
ghost use Rattle.f77_ast.specs.Symbols.{symbol_tree};
ghost use Rattle.affine_systems.specs.Given.{Fits};
ghost use Rattle.affine_systems.specs.Calls.{meet as meet_is};
ghost use Rattle.in_out_regions.specs.region_sets.Regions.{RegionFits};
ghost use Rattle.in_out_regions.specs.region_sets.Sets.{SetFits};
ghost use Rattle.in_out_regions.specs.region_sets.Settled.{AllSettled};
ghost use Rattle.out_regions.specs.Used.{as_out as as_out_is, all_out, is_used_beside as is_used_beside_is, joined as joined_is, used_in as used_in_is, is_none as is_none_is, unless_empty, each_met as each_met_is, met_with, used_of, if_write, used as used_is};
ghost use Rattle.out_regions.specs.Settled.{IsSettledFrom};

use affine_systems::{System, meet};
use f77_ast::{Symbols, Variable, copy_variable, overlaps, same_variable};
use fx_lists::List;
use in_out_regions::is_write;
use in_out_regions::region_sets::{
    Access, Region, RegionSet, copy_region, push_region, push_system, trim_after, trimmed_regions,
    unite,
};
use std::alloc::{AllocError as Memory, Global};

/// A copy of a region, as one of OUT.
fn as_out(alloc: Global, r: &Region) -> Result<Region, Memory>
    requires { RegionFits r.now }
    ensures defined { IfOk result (λ q. q ≡ as_out_is r.now) }
    ensures fits { IfOk result RegionFits }
{
    let copy = copy_region(alloc, r)?;
    Ok(Region {
        variable: copy.variable,
        kind: Access::Out,
        exact: false,
        pieces: copy.pieces,
    })
}

/// Appends regions as such of OUT, each trimmed, without those of which nothing is left. `known`: they are trimmed.
#[tactic(auto, using(crate::proofs::Fitting::fitting))]
pub fn push_known(
    alloc: Global,
    out: &mut RegionSet,
    known: bool,
    set: &[Region],
) -> Result<(), Memory>
    requires known { known ≡ true → AllSettled set.now }
    requires out { SetFits out.old }
    requires set { SetFits set.now }
    ensures added { OnOk result (out.new ≡ out.old ++ all_out set.now) }
    ensures fits { OnOk result (SetFits out.new) }
{
    let trimmed = trimmed_regions(alloc, known, set)?;
    let mut rest = trimmed.as_slice();
    while let [r, more @ ..] = rest {
        push_region(out, as_out(alloc, r)?)?;
        rest = more;
    }
    Ok(())
}

/// Appends regions as such of OUT, each trimmed, without those of which nothing is left.
pub fn push_out(alloc: Global, out: &mut RegionSet, set: &[Region]) -> Result<(), Memory>
    requires out { SetFits out.old }
    requires set { SetFits set.now }
    ensures added { OnOk result (out.new ≡ out.old ++ all_out set.now) }
    ensures fits { OnOk result (SetFits out.new) }
{
    push_known(alloc, out, false, set)
}

/// Whether a variable is used that shares units with this one.
fn is_used_beside(symbols: &Symbols, later: &[Region], v: &Variable) -> bool
    ensures { result ≡ is_used_beside_is (map symbol_tree symbols.now) later.now v.now }
{
    let mut rest = later;
    while let [u, more @ ..] = rest {
        if overlaps(symbols, &u.variable, v) {
            return true;
        }
        rest = more;
    }
    false
}

/// What is used of a variable, with one region more.
fn joined(alloc: Global, before: Option<Region>, u: &Region) -> Result<Region, Memory>
    requires before { IfSome before RegionFits }
    requires region { RegionFits u.now }
    ensures defined { IfOk result (λ r. r ≡ joined_is before u.now) }
    ensures fits { IfOk result RegionFits }
{
    let next = as_out(alloc, u)?;
    match before {
        None => Ok(next),
        Some(r) => unite(alloc, &r, &next),
    }
}

/// What is used of a variable: its regions, united from left to right.
fn used_in(alloc: Global, v: &Variable, later: &[Region]) -> Result<Option<Region>, Memory>
    requires { SetFits later.now }
    ensures defined { IfOk result (λ o. o ≡ used_in_is v.now later.now) }
    ensures fits { IfOk result (λ o. IfSome o RegionFits) }
{
    let mut all = None;
    let mut rest = later;
    while let [u, more @ ..] = rest {
        if same_variable(v, &u.variable) {
            all = Some(joined(alloc, all, u)?);
        }
        rest = more;
    }
    Ok(all)
}

/// Adds a system with each of others.
#[tactic(auto, using(crate::proofs::Fitting::fitting))]
fn push_met(
    alloc: Global,
    out: &mut List<System>,
    s: &System,
    systems: &[System],
) -> Result<(), Memory>
    requires out { AllFit out.old }
    requires system { Fits s.now }
    requires systems { AllFit systems.now }
    ensures added { OnOk result (out.new ≡ out.old ++ map (meet_is s.now) systems.now) }
    ensures fits { OnOk result (AllFit out.new) }
{
    let mut rest = systems;
    while let [t, more @ ..] = rest {
        push_system(out, meet(alloc, s, t)?)?;
        rest = more;
    }
    Ok(())
}

/// Each system of the first with each of the second.
#[tactic(auto, using(crate::proofs::Fitting::fitting))]
fn each_met(alloc: Global, pieces: &[System], systems: &[System]) -> Result<List<System>, Memory>
    requires pieces { AllFit pieces.now }
    requires systems { AllFit systems.now }
    ensures defined { IfOk result (λ ss. ss ≡ each_met_is pieces.now systems.now) }
    ensures fits { IfOk result AllFit }
{
    let mut out = List::new(alloc);
    let mut rest = pieces;
    while let [s, more @ ..] = rest {
        push_met(alloc, &mut out, s, systems)?;
        rest = more;
    }
    Ok(out)
}

fn is_none(systems: &[System]) -> bool
    ensures { result ≡ is_none_is systems.now }
{
    match systems {
        [] => true,
        [_, ..] => false,
    }
}

/// Adds a region with the variable of another and these systems, where there are any.
fn push_pieces(out: &mut RegionSet, w: &Region, pieces: List<System>) -> Result<(), Memory>
    requires out { SetFits out.old }
    requires pieces { AllFit pieces }
    ensures added { OnOk result (out.new ≡ out.old ++ unless_empty w.now pieces) }
    ensures fits { OnOk result (SetFits out.new) }
{
    if is_none(pieces.as_slice()) {
        return Ok(());
    }
    push_region(
        out,
        Region {
            variable: copy_variable(&w.variable)?,
            kind: Access::Out,
            exact: false,
            pieces,
        },
    )
}

/// Adds what a WRITE region has in common with what is used of its variable, if anything. The regions from `since` on are trimmed.
fn push_within(
    alloc: Global,
    out: &mut RegionSet,
    since: usize,
    w: &Region,
    later: &Region,
) -> Result<(), Memory>
    requires out { SetFits out.old }
    requires settled { IsSettledFrom since out.old }
    requires region { RegionFits w.now }
    requires later { RegionFits later.now }
    ensures added { OnOk result (out.new ≡ out.old ++ met_with w.now (Some later.now)) }
    ensures fits { OnOk result (SetFits out.new) }
{
    let met = each_met(alloc, w.pieces.as_slice(), later.pieces.as_slice())?;
    let trimmed = trim_after(alloc, &out.as_slice()[since..], met)?;
    push_pieces(out, w, trimmed.pieces)
}

/// Adds what is used of a WRITE region. The regions from `since` on are trimmed; what it returns is such a place, too.
#[tactic(auto, using(crate::proofs::SettledSteps::settled_steps))]
fn push_used(
    alloc: Global,
    out: &mut RegionSet,
    since: usize,
    symbols: &Symbols,
    later: &[Region],
    w: &Region,
) -> Result<usize, Memory>
    requires out { SetFits out.old }
    requires settled { IsSettledFrom since out.old }
    requires later { SetFits later.now }
    requires region { RegionFits w.now }
    ensures added { OnOk result (out.new ≡ out.old ++ used_of (map symbol_tree symbols.now) later.now w.now) }
    ensures fits { OnOk result (SetFits out.new) }
    ensures settled { IfOk result (λ n. IsSettledFrom n out.new) }
{
    if is_used_beside(symbols, later, &w.variable) {
        push_region(out, as_out(alloc, w)?)?;
        return Ok(out.len());
    }
    match used_in(alloc, &w.variable, later)? {
        None => Ok(since),
        Some(all) => {
            push_within(alloc, out, since, w, &all)?;
            Ok(since)
        }
    }
}

/// The same, where it is a WRITE region.
fn push_if_write(
    alloc: Global,
    out: &mut RegionSet,
    since: usize,
    symbols: &Symbols,
    later: &[Region],
    w: &Region,
) -> Result<usize, Memory>
    requires out { SetFits out.old }
    requires settled { IsSettledFrom since out.old }
    requires later { SetFits later.now }
    requires region { RegionFits w.now }
    ensures added { OnOk result (out.new ≡ out.old ++ if_write (map symbol_tree symbols.now) later.now w.now) }
    ensures fits { OnOk result (SetFits out.new) }
    ensures settled { IfOk result (λ n. IsSettledFrom n out.new) }
{
    if is_write(w.kind) {
        push_used(alloc, out, since, symbols, later, w)
    } else {
        Ok(since)
    }
}

/// What of the WRITE regions of a set is used, where `later` has what may be read later: all of a variable where one is used that shares units with
/// it, else what it has in common with what is used of it. Each region is compared with all of `later`.
#[tactic(auto, using(crate::proofs::Fitting::fitting, crate::proofs::SettledSteps::settled_steps))]
pub fn used(
    alloc: Global,
    symbols: &Symbols,
    later: &[Region],
    writes: &[Region],
) -> Result<RegionSet, Memory>
    requires later { SetFits later.now }
    requires writes { SetFits writes.now }
    ensures defined { IfOk result (λ qs. qs ≡ used_is (map symbol_tree symbols.now) later.now writes.now) }
    ensures fits { IfOk result SetFits }
{
    let mut out = List::new(alloc);
    let mut since = 0;
    let mut rest = writes;
    while let [w, more @ ..] = rest {
        since = push_if_write(alloc, &mut out, since, symbols, later, w)?;
        rest = more;
    }
    Ok(out)
}
