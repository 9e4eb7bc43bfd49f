//! OUT of the statements of a list, from OUT of the list.
ghost use Rattle.std.specs.Prelude.{◌≡◌, ◌++◌, IfOk, OnOk};
ghost use Rattle.affine_systems.specs.Given.{Fits};
ghost use Rattle.f77_ast.specs.PlainStmt.{stmt_tree};
ghost use Rattle.in_out_regions.specs.region_sets.Regions.{RegionFits};
ghost use Rattle.in_out_regions.specs.region_sets.Sets.{SetFits};
ghost use Rattle.in_out_regions.specs.region_sets.Settled.{AllSettled};
ghost use Rattle.in_out_regions.specs.region_sets.Lists.{all_composed, all_accesses, all_forgetting, set_at as set_at_is};
ghost use Rattle.out_regions.specs.Used.{all_out};
ghost use Rattle.out_regions.specs.Contexts.{known_in, KnownFits, RestFits};
ghost use Rattle.out_regions.specs.Lists.{applied as applied_is, all_applied as all_applied_is, left_over as left_over_is, first_out as first_out_is, rest_out as rest_out_is, may_leave as may_leave_is, any_out as any_out_is};

use crate::beside::beside;
use crate::context::OutContext;
use crate::leaving::stmt_leaves;
use crate::rest::{Rest, writes_at};
use crate::used::{push_known, push_out, used};
use f77_ast::{Stmt, StmtId};
use fx_lists::List;
use in_out_regions::push_unwritten;
use in_out_regions::region_sets::{
    Region, RegionSet, all_sets, push_composed, push_forgetting, push_region, push_regions,
    push_system, remade, same_pieces, trimmed_regions,
};
use in_out_regions::transformer_algebra::{Transformer, apply};
use in_out_regions::transformers::transformer_at;
use std::alloc::{AllocError as Memory, Global};

/// A region after what a transformer describes, from one before it.
#[tactic(auto, using(crate::proofs::Fitting::fitting))]
fn applied(alloc: Global, t: &Transformer, r: &Region) -> Result<Region, Memory>
    requires transformer { Fits t.now.system }
    requires region { RegionFits r.now }
    ensures defined { IfOk result (λ q. q ≡ applied_is t.now r.now) }
    ensures fits { IfOk result RegionFits }
{
    let mut pieces = List::new(alloc);
    let mut rest = r.pieces.as_slice();
    while let [piece, more @ ..] = rest {
        push_system(&mut pieces, apply(alloc, t, piece)?)?;
        rest = more;
    }
    remade(r, r.exact, pieces)
}

/// The same, from what another region has become: its pieces serve where this region has the same as the other.
#[tactic(auto, using(crate::proofs::AppliedSteps::applied_same))]
fn applied_like(
    alloc: Global,
    t: &Transformer,
    other: &Region,
    made: &Region,
    r: &Region,
) -> Result<Region, Memory>
    requires transformer { Fits t.now.system }
    requires made { made.now ≡ applied_is t.now other.now }
    requires fits { RegionFits made.now }
    requires region { RegionFits r.now }
    ensures defined { IfOk result (λ q. q ≡ applied_is t.now r.now) }
    ensures fits { IfOk result RegionFits }
{
    if !same_pieces(&other.pieces, &r.pieces) {
        return applied(alloc, t, r);
    }
    let mut pieces = List::new(alloc);
    in_out_regions::region_sets::push_copies(&mut pieces, made.pieces.as_slice())?;
    remade(r, r.exact, pieces)
}

/// The same, where the regions before it have become these: as the last of them, where it has the same pieces.
#[tactic(auto, using(crate::proofs::AppliedSteps::last_steps, crate::proofs::Fitting::gather_fits))]
fn applied_after(
    alloc: Global,
    t: &Transformer,
    before: &[Region],
    done: &[Region],
    r: &Region,
) -> Result<Region, Memory>
    requires transformer { Fits t.now.system }
    requires done { done.now ≡ all_applied_is t.now before.now }
    requires fits { SetFits done.now }
    requires region { RegionFits r.now }
    ensures defined { IfOk result (λ q. q ≡ applied_is t.now r.now) }
    ensures fits { IfOk result RegionFits }
{
    match before {
        [] => applied(alloc, t, r),
        [.., last] => applied_like(alloc, t, last, &done[before.len() - 1], r),
    }
}

#[tactic(auto, using(crate::proofs::Fitting::fitting, crate::proofs::Fitting::gather_fits, crate::proofs::AppliedSteps::applied_more))]
fn all_applied(alloc: Global, t: &Transformer, set: &[Region]) -> Result<RegionSet, Memory>
    requires transformer { Fits t.now.system }
    requires set { SetFits set.now }
    ensures defined { IfOk result (λ qs. qs ≡ all_applied_is t.now set.now) }
    ensures fits { IfOk result SetFits }
{
    let mut out = List::new(alloc);
    for (i, r) in set.iter().enumerate() {
        let next = applied_after(alloc, t, &set[..i], out.as_slice(), r)?;
        push_region(&mut out, next)?;
    }
    Ok(out)
}

/// OUT of a list, less what these regions, which are trimmed, certainly write; all of it where the list may be left.
fn left_over(
    alloc: Global,
    leaving: bool,
    writes: &[Region],
    out: &[Region],
) -> Result<RegionSet, Memory>
    requires settled { AllSettled writes.now }
    requires writes { SetFits writes.now }
    requires out { SetFits out.now }
    ensures defined { IfOk result (λ rs. rs ≡ left_over_is leaving writes.now out.now) }
    ensures fits { IfOk result SetFits }
{
    let mut left = List::new(alloc);
    if leaving {
        push_regions(alloc, &mut left, out)?;
        return Ok(left);
    }
    let certain = trimmed_regions(alloc, true, writes)?;
    push_unwritten(alloc, &mut left, false, certain.as_slice(), out)?;
    Ok(left)
}

/// A set as seen from before what a transformer describes.
fn composed(alloc: Global, t: &Transformer, set: &[Region]) -> Result<RegionSet, Memory>
    requires transformer { Fits t.now.system }
    requires set { SetFits set.now }
    ensures defined { IfOk result (λ rs. rs ≡ all_composed t.now set.now) }
    ensures fits { IfOk result SetFits }
{
    let mut out = List::new(alloc);
    push_composed(alloc, &mut out, t, set)?;
    Ok(out)
}

/// OUT of a list behind a statement, less what the rest certainly writes; nothing of nothing.
#[tactic(auto, using(crate::proofs::BesideLaws::nothings, crate::proofs::SettledSteps::seen))]
fn left_behind(
    alloc: Global,
    leaving: bool,
    t: &Transformer,
    writes: &[Region],
    out: &[Region],
) -> Result<RegionSet, Memory>
    requires transformer { Fits t.now.system }
    requires writes { SetFits writes.now }
    requires out { SetFits out.now }
    ensures defined { IfOk result (λ rs. rs ≡ left_over_is leaving (all_composed t.now writes.now) out.now) }
    ensures fits { IfOk result SetFits }
{
    match out {
        [] => Ok(List::new(alloc)),
        [_, ..] => {
            let writes = composed(alloc, t, writes)?;
            left_over(alloc, leaving, writes.as_slice(), out)
        }
    }
}

/// What may be read behind a statement: by the rest, which has these IN and WRITE regions, or behind the list, which has this OUT. `leaving`: the
/// statement or the rest may leave the list.
#[tactic(auto, using(crate::proofs::SettledSteps::seen))]
fn used_behind(
    alloc: Global,
    t: &Transformer,
    leaving: bool,
    ins: &[Region],
    writes: &[Region],
    out: &[Region],
) -> Result<RegionSet, Memory>
    requires transformer { Fits t.now.system }
    requires ins { SetFits ins.now }
    requires writes { SetFits writes.now }
    requires out { SetFits out.now }
    ensures defined { IfOk result (λ rs. rs ≡ all_out (all_composed t.now ins.now) ++ all_out (left_over_is leaving (all_composed t.now writes.now) out.now)) }
    ensures fits { IfOk result SetFits }
{
    let read = composed(alloc, t, ins)?;
    let left = left_behind(alloc, leaving, t, writes, out)?;
    let mut later = List::new(alloc);
    push_known(alloc, &mut later, true, read.as_slice())?;
    push_out(alloc, &mut later, left.as_slice())?;
    Ok(later)
}

/// Whether a statement or the rest may leave the list.
pub fn may_leave(alloc: Global, whole: bool, s: &Stmt, rest: &Rest) -> Result<bool, Memory>
    ensures { IfOk result (λ b. b ≡ may_leave_is whole (stmt_tree s.now) rest.now) }
{
    Ok(stmt_leaves(alloc, whole, s)? || rest.leaves)
}

/// OUT of a statement, from the rest after it and OUT of the list. `leaving`: the statement or the rest may leave the list. Of both only the regions that
/// may matter to what the statement writes are looked at.
pub fn first_out(
    alloc: Global,
    known: &OutContext<'_>,
    leaving: bool,
    id: StmtId,
    rest: &Rest,
    out: &[Region],
) -> Result<RegionSet, Memory>
    requires known { KnownFits known.now }
    requires rest { RestFits rest.now }
    requires out { SetFits out.now }
    ensures defined { IfOk result (λ rs. rs ≡ first_out_is (known_in known.now) leaving id rest.now out.now) }
    ensures fits { IfOk result SetFits }
{
    let symbols = known.scope.symbols;
    let own = writes_at(alloc, known, id)?;
    let ins = beside(alloc, symbols, own.as_slice(), rest.ins.as_slice())?;
    let out = beside(alloc, symbols, own.as_slice(), out)?;
    let t = transformer_at(alloc, &known.own.at, id)?;
    let writes = rest.writes.as_slice();
    let later = used_behind(alloc, &t, leaving, ins.as_slice(), writes, out.as_slice())?;
    used(alloc, symbols, later.as_slice(), own.as_slice())
}

/// OUT of the rest after a statement, from OUT of the list.
pub fn rest_out(
    alloc: Global,
    known: &OutContext<'_>,
    id: StmtId,
    rest: &Rest,
    out: &[Region],
) -> Result<RegionSet, Memory>
    requires known { KnownFits known.now }
    requires rest { RestFits rest.now }
    requires out { SetFits out.now }
    ensures defined { IfOk result (λ rs. rs ≡ rest_out_is (known_in known.now) id rest.now out.now) }
    ensures fits { IfOk result SetFits }
{
    let t = transformer_at(alloc, &known.own.at, id)?;
    let after = all_applied(alloc, &t, out)?;
    let mut later = List::new(alloc);
    push_out(alloc, &mut later, after.as_slice())?;
    let symbols = known.scope.symbols;
    used(alloc, symbols, later.as_slice(), rest.writes.as_slice())
}

/// Adds a set as OUT, for any numbers of the cells.
pub fn push_forgotten(
    alloc: Global,
    later: &mut RegionSet,
    cells: &[u32],
    set: &[Region],
) -> Result<(), Memory>
    requires later { SetFits later.old }
    requires set { SetFits set.now }
    ensures added { OnOk result (later.new ≡ later.old ++ all_out (all_forgetting cells.now set.now)) }
    ensures fits { OnOk result (SetFits later.new) }
{
    let mut free = List::new(alloc);
    push_forgetting(alloc, &mut free, cells, set)?;
    push_out(alloc, later, free.as_slice())
}

/// What may be read behind any statement of a list that changes these cells and whose statements, with these numbers, come in any order.
pub fn used_around(
    alloc: Global,
    known: &OutContext<'_>,
    cells: &[u32],
    ids: &[StmtId],
    out: &[Region],
) -> Result<RegionSet, Memory>
    requires known { KnownFits known.now }
    requires out { SetFits out.now }
    ensures defined { IfOk result (λ rs. rs ≡ all_out (all_forgetting cells.now (all_accesses (set_at_is known.now.ins.now) ids.now)) ++ all_out (all_forgetting cells.now out.now)) }
    ensures fits { IfOk result SetFits }
{
    let ins = all_sets(alloc, ids, known.ins)?;
    let mut later = List::new(alloc);
    push_forgotten(alloc, &mut later, cells, ins.as_slice())?;
    push_forgotten(alloc, &mut later, cells, out)?;
    Ok(later)
}

/// OUT of a statement where this may be read behind it.
pub fn any_out(
    alloc: Global,
    known: &OutContext<'_>,
    later: &[Region],
    id: StmtId,
) -> Result<RegionSet, Memory>
    requires known { KnownFits known.now }
    requires later { SetFits later.now }
    ensures defined { IfOk result (λ rs. rs ≡ any_out_is (known_in known.now) later.now id) }
    ensures fits { IfOk result SetFits }
{
    let writes = writes_at(alloc, known, id)?;
    used(alloc, known.scope.symbols, later, writes.as_slice())
}
