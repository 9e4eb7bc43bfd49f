//! Whether two iterations may access one unit.
ghost use Rattle.std.specs.Prelude.{◌≡◌, false, map, IfOk, IfSome};
ghost use Rattle.std.specs.Option.{option_copied, option_map};
ghost use Rattle.affine_systems.specs.Given.{Fits};
ghost use Rattle.hull_projection.specs.Minus.{AllFit};
ghost use Rattle.hull_projection.specs.Refute.{refuted as refuted_is};
ghost use Rattle.f77_ast.specs.PlainStmt.{stmt_trees, loop_tree};
ghost use Rattle.f77_ast.specs.Symbols.{symbol_tree};
ghost use Rattle.region_sets.specs.Regions.{RegionFits};
ghost use Rattle.region_sets.specs.Sets.{SetFits};
ghost use Rattle.dependence_test.specs.Finding.{loop_in as loop_in_is};
ghost use Rattle.dependence_test.specs.Given.{AnalysisFits, BodyFits, known_body};
ghost use Rattle.dependence_test.specs.Conflicts.{unless_refuted as unless_refuted_is, kept_piece as kept_piece_is, kept_pieces as kept_pieces_is, kept_pair as kept_pair_is, kept_if_pair as kept_if_pair_is, kept_beside as kept_beside_is, kept_among as kept_among_is, kept_system as kept_system_is, conflict_of as conflict_of_is, conflict_in};
ghost use Rattle.dependence_test.specs.Claims.{DoNotMeet, DoNotMeetIn, IfNoConflict, IfKept};

use crate::kinds::is_pair;
use crate::pairs::pair_system;
use crate::{Analysis, Conflict, LoopBody, body_of, loop_in};
use affine_systems::System;
use f77_ast::{Kinds, StmtId, Symbols, Variable, same_variable};
use hull_projection::refuted;
use region_sets::Region;
use std::alloc::{AllocError as Memory, Global};

fn unless_refuted(alloc: Global, s: System) -> Result<Option<System>, Memory>
    requires { Fits s }
    ensures defined { IfOk result (λ o. o ≡ unless_refuted_is s) }
    ensures fits { IfOk result (λ o. IfSome o Fits) }
{
    if refuted(alloc, &s)? {
        Ok(None)
    } else {
        Ok(Some(s))
    }
}

/// A piece of a region of the earlier iteration with each of the later.
#[tactic(auto, using(crate::proofs::Steps::pairs))]
fn kept_piece(
    alloc: Global,
    b: &LoopBody,
    alike: bool,
    s: &System,
    pieces: &[System],
) -> Result<Option<System>, Memory>
    requires body { BodyFits b.now }
    requires earlier { Fits s.now }
    requires later { AllFit pieces.now }
    ensures defined { IfOk result (λ o. o ≡ kept_piece_is b.now alike s.now pieces.now) }
    ensures fits { IfOk result (λ o. IfSome o Fits) }
{
    let mut rest = pieces;
    while let [r, more @ ..] = rest {
        let system = pair_system(alloc, b, alike, s, r)?;
        if let Some(kept) = unless_refuted(alloc, system)? {
            return Ok(Some(kept));
        }
        rest = more;
    }
    Ok(None)
}

#[tactic(auto, using(crate::proofs::Steps::pairs))]
fn kept_pieces(
    alloc: Global,
    b: &LoopBody,
    alike: bool,
    earlier: &[System],
    later: &[System],
) -> Result<Option<System>, Memory>
    requires body { BodyFits b.now }
    requires earlier { AllFit earlier.now }
    requires later { AllFit later.now }
    ensures defined { IfOk result (λ o. o ≡ kept_pieces_is b.now alike earlier.now later.now) }
    ensures fits { IfOk result (λ o. IfSome o Fits) }
{
    let mut rest = earlier;
    while let [s, more @ ..] = rest {
        if let Some(kept) = kept_piece(alloc, b, alike, s, later)? {
            return Ok(Some(kept));
        }
        rest = more;
    }
    Ok(None)
}

fn kept_pair(alloc: Global, b: &LoopBody, x: &Region, y: &Region) -> Result<Option<System>, Memory>
    requires body { BodyFits b.now }
    requires earlier { RegionFits x.now }
    requires later { RegionFits y.now }
    ensures defined { IfOk result (λ o. o ≡ kept_pair_is b.now x.now y.now) }
    ensures fits { IfOk result (λ o. IfSome o Fits) }
{
    let alike = same_variable(&x.variable, &y.variable);
    kept_pieces(alloc, b, alike, x.pieces.as_slice(), y.pieces.as_slice())
}

/// Where the two are a pair.
fn kept_if_pair(
    alloc: Global,
    symbols: &Symbols,
    b: &LoopBody,
    v: &Variable,
    kinds: Kinds,
    x: &Region,
    y: &Region,
) -> Result<Option<System>, Memory>
    requires body { BodyFits b.now }
    requires earlier { RegionFits x.now }
    requires later { RegionFits y.now }
    ensures defined { IfOk result (λ o. o ≡ kept_if_pair_is (map symbol_tree symbols.now) b.now v.now kinds x.now y.now) }
    ensures fits { IfOk result (λ o. IfSome o Fits) }
{
    if is_pair(symbols, v, kinds, x, y) {
        kept_pair(alloc, b, x, y)
    } else {
        Ok(None)
    }
}

/// A region of the earlier iteration with each of the later.
#[tactic(auto, using(crate::proofs::Steps::pairs))]
fn kept_beside(
    alloc: Global,
    symbols: &Symbols,
    b: &LoopBody,
    v: &Variable,
    kinds: Kinds,
    x: &Region,
    regions: &[Region],
) -> Result<Option<System>, Memory>
    requires body { BodyFits b.now }
    requires earlier { RegionFits x.now }
    requires later { SetFits regions.now }
    ensures defined { IfOk result (λ o. o ≡ kept_beside_is (map symbol_tree symbols.now) b.now v.now kinds x.now regions.now) }
    ensures fits { IfOk result (λ o. IfSome o Fits) }
{
    let mut rest = regions;
    while let [y, more @ ..] = rest {
        if let Some(kept) = kept_if_pair(alloc, symbols, b, v, kinds, x, y)? {
            return Ok(Some(kept));
        }
        rest = more;
    }
    Ok(None)
}

/// The first system that is not refuted, of the pairs of regions of the body in their order.
#[tactic(auto, using(crate::proofs::Steps::pairs))]
fn kept_system(
    alloc: Global,
    symbols: &Symbols,
    b: &LoopBody,
    v: &Variable,
    kinds: Kinds,
) -> Result<Option<System>, Memory>
    requires { BodyFits b.now }
    ensures defined { IfOk result (λ o. o ≡ kept_system_is (map symbol_tree symbols.now) b.now v.now kinds) }
    ensures fits { IfOk result (λ o. IfSome o Fits) }
{
    let mut rest = b.regions.as_slice();
    while let [x, more @ ..] = rest {
        if let Some(kept) = kept_beside(alloc, symbols, b, v, kinds, x, b.regions.as_slice())? {
            return Ok(Some(kept));
        }
        rest = more;
    }
    Ok(None)
}

fn answer_of(
    alloc: Global,
    symbols: &Symbols,
    b: &LoopBody,
    v: &Variable,
    kinds: Kinds,
) -> Result<Conflict, Memory>
    requires { BodyFits b.now }
    ensures defined { IfOk result (λ c. c ≡ conflict_of_is (kept_system_is (map symbol_tree symbols.now) b.now v.now kinds)) }
    ensures fits { IfOk result (λ c. IfKept c Fits) }
{
    match kept_system(alloc, symbols, b, v, kinds)? {
        None => Ok(Conflict::None),
        Some(s) => Ok(Conflict::Kept(s)),
    }
}

/// Whether two iterations of a DO with this body may access one unit of `v`, or of a variable that shares storage with it, the earlier and the later
/// iteration as `kinds` says: the first system of a pair of regions that is not refuted. `symbols` are those of the module.
pub fn conflict_of(
    alloc: Global,
    symbols: &Symbols,
    b: &LoopBody,
    v: &Variable,
    kinds: Kinds,
) -> Result<Conflict, Memory>
    requires { BodyFits b.now }
    ensures defined { IfOk result (λ c. c ≡ conflict_of_is (kept_system_is (map symbol_tree symbols.now) b.now v.now kinds)) }
    ensures fits { IfOk result (λ c. IfKept c Fits) }
    ensures not_refuted { IfOk result (λ c. IfKept c (λ s. refuted_is s.rows ≡ false)) }
    ensures sound { IfOk result (λ c. IfNoConflict c (DoNotMeet (map symbol_tree symbols.now) b.now v.now kinds)) }
{
    answer_of(alloc, symbols, b, v, kinds)
}

/// Of the DO with a number.
fn answer_at(
    alloc: Global,
    a: &Analysis<'_>,
    at: StmtId,
    v: &Variable,
    kinds: Kinds,
) -> Result<Conflict, Memory>
    requires { AnalysisFits a.now }
    ensures defined { IfOk result (λ c. c ≡ conflict_in (map symbol_tree a.now.view.now.symbols.now) v.now kinds (known_body a.now) (loop_in_is at (stmt_trees a.now.view.now.«module».now.body))) }
    ensures fits { IfOk result (λ c. IfKept c Fits) }
{
    match loop_in(at, &a.view.module.body) {
        None => Ok(Conflict::None),
        Some(l) => {
            let b = body_of(alloc, a, l)?;
            answer_of(alloc, a.view.symbols, &b, v, kinds)
        }
    }
}

/// Whether two iterations of the DO with the number `at` may access one unit of `v`, or of a variable that shares storage with it, the earlier and the
/// later iteration as `kinds` says. None also where there is no such DO.
pub fn conflict(
    alloc: Global,
    a: &Analysis<'_>,
    at: StmtId,
    v: &Variable,
    kinds: Kinds,
) -> Result<Conflict, Memory>
    requires { AnalysisFits a.now }
    ensures defined { IfOk result (λ c. c ≡ conflict_in (map symbol_tree a.now.view.now.symbols.now) v.now kinds (known_body a.now) (loop_in_is at (stmt_trees a.now.view.now.«module».now.body))) }
    ensures fits { IfOk result (λ c. IfKept c Fits) }
    ensures not_refuted { IfOk result (λ c. IfKept c (λ s. refuted_is s.rows ≡ false)) }
    ensures sound { IfOk result (λ c. IfNoConflict c (DoNotMeetIn (map symbol_tree a.now.view.now.symbols.now) v.now kinds (known_body a.now) (loop_in_is at (stmt_trees a.now.view.now.«module».now.body)))) }
{
    answer_at(alloc, a, at, v, kinds)
}
