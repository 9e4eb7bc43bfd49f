//! Sets of statements, and of statements that come in any order.
ghost use Rattle.std.specs.Prelude.{◌≡◌, ◌++◌, IfOk, OnOk};
ghost use Rattle.hull_projection.specs.Minus.{AllFit};
ghost use Rattle.f77_ast.specs.PlainStmt.{stmt_trees};
ghost use Rattle.region_sets.specs.Regions.{RegionFits};
ghost use Rattle.region_sets.specs.Sets.{SetFits, unite_all as unite_all_is};
ghost use Rattle.region_sets.specs.Lists.{SetsFit, set_at as set_at_is, numbers as numbers_is, forgetting as forgetting_is, all_forgetting, all_accesses as all_sets_is, all_inexact as all_inexact_is};

use crate::region::{push_system, remade, with_flag};
use crate::sets::{push_region, push_regions, unite_owned};
use crate::{Region, RegionSet};
use f77_ast::{At, Stmt, StmtId};
use fx_lists::List;
use std::alloc::{AllocError as Memory, Global};
use transformers::transformer_algebra::without;
use transformers::value_at;

/// The regions of the statement with a number; none where there is no result.
pub fn set_at(at: &List<At<RegionSet>>, id: StmtId) -> &[Region]
    ensures { result.now ≡ set_at_is at.now id }
{
    match value_at(at, id) {
        None => &[],
        Some(set) => set.as_slice(),
    }
}

/// The numbers of the statements of a list, in its order.
#[tactic(auto, using(crate::proofs::Steps::fitting))]
pub fn numbers(alloc: Global, list: &[Stmt]) -> Result<Vec<StmtId>, Memory>
    ensures { IfOk result (λ ns. ns.items ≡ numbers_is (stmt_trees list.now)) }
{
    let mut out = Vec::new(alloc);
    let mut rest = list;
    while let [s, more @ ..] = rest {
        out.push(s.id)?;
        rest = more;
    }
    Ok(out)
}

/// The sets of these statements, one after another.
#[tactic(auto, using(crate::proofs::ListSteps::looked_up))]
pub fn all_sets(
    alloc: Global,
    ids: &[StmtId],
    at: &List<At<RegionSet>>,
) -> Result<RegionSet, Memory>
    requires { SetsFit at.now }
    ensures defined { IfOk result (λ qs. qs ≡ all_sets_is (set_at_is at.now) ids.now) }
    ensures fits { IfOk result SetFits }
{
    let mut out = List::new(alloc);
    let mut rest = ids;
    while let [id, more @ ..] = rest {
        push_regions(alloc, &mut out, set_at(at, *id))?;
        rest = more;
    }
    Ok(out)
}

/// A region for any numbers of the cells.
#[tactic(auto, using(crate::proofs::Steps::fitting))]
fn forgetting(alloc: Global, cells: &[u32], r: &Region) -> Result<Region, Memory>
    requires { RegionFits r.now }
    ensures defined { IfOk result (λ q. q ≡ forgetting_is cells.now r.now) }
    ensures fits { IfOk result RegionFits }
{
    let mut pieces = List::new(alloc);
    let mut rest = r.pieces.as_slice();
    while let [piece, more @ ..] = rest {
        push_system(&mut pieces, without(alloc, cells, piece)?)?;
        rest = more;
    }
    remade(r, false, pieces)
}

/// Appends regions for any numbers of the cells, in their order.
#[tactic(auto, using(crate::proofs::Steps::fitting))]
pub fn push_forgetting(
    alloc: Global,
    out: &mut RegionSet,
    cells: &[u32],
    set: &[Region],
) -> Result<(), Memory>
    requires out { SetFits out.old }
    requires set { SetFits set.now }
    ensures added { OnOk result (out.new ≡ out.old ++ all_forgetting cells.now set.now) }
    ensures fits { OnOk result (SetFits out.new) }
{
    let mut rest = set;
    while let [r, more @ ..] = rest {
        push_region(out, forgetting(alloc, cells, r)?)?;
        rest = more;
    }
    Ok(())
}

/// Regions that are not exact.
#[tactic(auto, using(crate::proofs::Steps::fitting))]
fn all_inexact(alloc: Global, set: &[Region]) -> Result<RegionSet, Memory>
    requires { SetFits set.now }
    ensures defined { IfOk result (λ qs. qs ≡ all_inexact_is set.now) }
    ensures fits { IfOk result SetFits }
{
    let mut out = List::new(alloc);
    let mut rest = set;
    while let [r, more @ ..] = rest {
        push_region(&mut out, with_flag(alloc, r, false)?)?;
        rest = more;
    }
    Ok(out)
}

/// Of statements that come in any order, each any number of times, from the sets of all of them, one after another: the regions for any numbers of the
/// cells that the statements change, none of them exact.
pub fn in_any_order(alloc: Global, cells: &[u32], all: &[Region]) -> Result<RegionSet, Memory>
    requires { SetFits all.now }
    ensures defined { IfOk result (λ qs. qs ≡ all_inexact_is (unite_all_is (all_forgetting cells.now all.now))) }
    ensures fits { IfOk result SetFits }
{
    let mut free = List::new(alloc);
    push_forgetting(alloc, &mut free, cells, all)?;
    let set = unite_owned(alloc, free)?;
    all_inexact(alloc, set.as_slice())
}
