//! Whether each iteration may have its own copy of a variable, by the regions of the body and of the DO.
ghost use Rattle.std.specs.Prelude.{◌≡◌, map, IfOk};
ghost use Rattle.affine_systems.specs.Given.{Fits};
ghost use Rattle.hull_projection.specs.Minus.{AllFit};
ghost use Rattle.f77_ast.specs.PlainDecl.{module_tree};
ghost use Rattle.f77_ast.specs.PlainStmt.{stmt_trees, loop_tree};
ghost use Rattle.f77_ast.specs.Symbols.{symbol_tree};
ghost use Rattle.in_out_regions.specs.region_sets.Regions.{RegionFits};
ghost use Rattle.in_out_regions.specs.region_sets.Sets.{SetFits};
ghost use Rattle.dependence_test.specs.Finding.{loop_in as loop_in_is};
ghost use Rattle.dependence_test.specs.Given.{AnalysisFits};
ghost use Rattle.privatizer.specs.Uses.{known_uses};
ghost use Rattle.privatizer.specs.Views.{uses_tree, UsesFit};
ghost use Rattle.privatizer.specs.Private.{may_hold as may_hold_is, some_may_hold as some_may_hold_is, region_may as region_may_is, may_lie as may_lie_is, is_carried as is_carried_is, is_live as is_live_is, private_in as private_in_is, private_at};
ghost use Rattle.privatizer.specs.Claims.{IfPrivate};

use crate::names::may_copy;
use crate::uses::{Uses, uses_of};
use affine_systems::{System, meet};
use call_graph::View;
use dependence_test::{Analysis, loop_in};
use f77_ast::{Private, StmtId, Variable, same_variable};
use hull_projection::refuted;
use in_out_regions::region_sets::Region;
use std::alloc::{AllocError as Memory, Global};

/// Whether a system is not refuted together with what holds.
fn may_hold(alloc: Global, p: &System, s: &System) -> Result<bool, Memory>
    requires holds { Fits p.now }
    requires system { Fits s.now }
    ensures { IfOk result (λ b. b ≡ may_hold_is p.now s.now) }
{
    let both = meet(alloc, s, p)?;
    Ok(!refuted(alloc, &both)?)
}

#[tactic(auto, using(crate::proofs::Steps::parts))]
fn some_may_hold(alloc: Global, p: &System, pieces: &[System]) -> Result<bool, Memory>
    requires holds { Fits p.now }
    requires pieces { AllFit pieces.now }
    ensures { IfOk result (λ b. b ≡ some_may_hold_is p.now pieces.now) }
{
    let mut rest = pieces;
    while let [s, more @ ..] = rest {
        if may_hold(alloc, p, s)? {
            return Ok(true);
        }
        rest = more;
    }
    Ok(false)
}

/// Whether a region is of this variable, and one of its pieces is not refuted together with what holds.
fn region_may(alloc: Global, p: &System, v: &Variable, r: &Region) -> Result<bool, Memory>
    requires holds { Fits p.now }
    requires region { RegionFits r.now }
    ensures { IfOk result (λ b. b ≡ region_may_is p.now v.now r.now) }
{
    if same_variable(&r.variable, v) {
        some_may_hold(alloc, p, r.pieces.as_slice())
    } else {
        Ok(false)
    }
}

#[tactic(auto, using(crate::proofs::Steps::parts))]
fn may_lie(alloc: Global, p: &System, v: &Variable, regions: &[Region]) -> Result<bool, Memory>
    requires holds { Fits p.now }
    requires regions { SetFits regions.now }
    ensures { IfOk result (λ b. b ≡ may_lie_is p.now v.now regions.now) }
{
    let mut rest = regions;
    while let [r, more @ ..] = rest {
        if region_may(alloc, p, v, r)? {
            return Ok(true);
        }
        rest = more;
    }
    Ok(false)
}

/// Whether an iteration may read a unit of the variable before it writes it.
fn is_carried(alloc: Global, u: &Uses<'_>, v: &Variable) -> Result<bool, Memory>
    requires { UsesFit u.now }
    ensures { IfOk result (λ b. b ≡ is_carried_is (uses_tree u.now) v.now) }
{
    may_lie(alloc, &u.head, v, u.ins.as_slice())
}

/// Whether the rest of the run may read what the DO writes of the variable.
fn is_live(alloc: Global, u: &Uses<'_>, v: &Variable) -> Result<bool, Memory>
    requires { UsesFit u.now }
    ensures { IfOk result (λ b. b ≡ is_live_is (uses_tree u.now) v.now) }
{
    may_lie(alloc, &u.before, v, u.outs)
}

/// Whether each iteration of a DO of which this is known may have its own copy of a variable: the first reason that there is against it.
pub fn private_of(
    alloc: Global,
    view: &View<'_>,
    u: &Uses<'_>,
    v: &Variable,
) -> Result<Private, Memory>
    requires { UsesFit u.now }
    ensures { IfOk result (λ p. p ≡ private_in_is (module_tree view.now.«module».now) (map symbol_tree view.now.symbols.now) (uses_tree u.now) v.now) }
{
    if !may_copy(view, v) {
        return Ok(Private::Name);
    }
    if is_carried(alloc, u, v)? {
        return Ok(Private::Carried);
    }
    if is_live(alloc, u, v)? {
        return Ok(Private::Live);
    }
    Ok(Private::Yes)
}

/// Of the DO with a number.
fn answer_at(alloc: Global, a: &Analysis<'_>, at: StmtId, v: &Variable) -> Result<Private, Memory>
    requires { AnalysisFits a.now }
    ensures { IfOk result (λ p. p ≡ private_at (module_tree a.now.view.now.«module».now) (map symbol_tree a.now.view.now.symbols.now) v.now (known_uses a.now at) (loop_in_is at (stmt_trees a.now.view.now.«module».now.body))) }
{
    match loop_in(at, &a.view.module.body) {
        None => Ok(Private::Name),
        Some(l) => {
            let u = uses_of(alloc, a, at, l)?;
            private_of(alloc, a.view, &u, v)
        }
    }
}

/// Whether each iteration of the DO with the number `at` may have its own copy of a variable: `Name` where its name does not allow it, else `Carried`
/// where an IN region of the body has units of it, else `Live` where an OUT region of the DO has some. `Name` also where there is no such DO.
pub fn may_be_private(
    alloc: Global,
    a: &Analysis<'_>,
    at: StmtId,
    variable: &Variable,
) -> Result<Private, Memory>
    requires { AnalysisFits a.now }
    ensures defined { IfOk result (λ p. p ≡ private_at (module_tree a.now.view.now.«module».now) (map symbol_tree a.now.view.now.symbols.now) variable.now (known_uses a.now at) (loop_in_is at (stmt_trees a.now.view.now.«module».now.body))) }
    ensures sound { IfOk result (λ p. IfPrivate p (known_uses a.now at) (loop_in_is at (stmt_trees a.now.view.now.«module».now.body)) variable.now) }
{
    answer_at(alloc, a, at, variable)
}
