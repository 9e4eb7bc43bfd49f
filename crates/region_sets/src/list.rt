//! READ and WRITE of a list, from those of its statements.
ghost use Rattle.std.specs.Prelude.{◌≡◌, ◌++◌, ◌∷◌, [], drop, IfOk, OnOk};
ghost use Rattle.affine_systems.specs.Given.{Fits};
ghost use Rattle.hull_projection.specs.Minus.{AllFit};
ghost use Rattle.f77_ast.specs.PlainStmt.{stmt_trees};
ghost use Rattle.transformers.specs.Given.{ResultsFit};
ghost use Rattle.transformers.specs.Lists.{transformer_at as transformer_at_is};
ghost use Rattle.region_sets.specs.Settled.{AllFixed};
ghost use Rattle.region_sets.specs.Laws.{HasList, HasListAlone};
ghost use Rattle.region_sets.specs.Sets.{SetFits, unite_all as unite_all_is};
ghost use Rattle.region_sets.specs.Lists.{SetsFit, is_access as is_access_is, accesses, accesses_at, all_composed, in_order as in_order_is, inexact as inexact_is, all_accesses as all_accesses_is, list_regions as list_regions_is};

use crate::any_order::{in_any_order, numbers};
use crate::moving::push_settled;
use crate::region::copy_region;
use crate::sets::{push_region, unite_settled};
use crate::{Access, Region, RegionSet, compose};
use call_graph::View;
use f77_ast::{At, Results, Stmt, StmtId};
use fx_lists::List;
use std::alloc::{AllocError as Memory, Global};
use transformers::transformer_algebra::Transformer;
use transformers::{is_unstructured, list_at, transformer_at, value_at};

fn is_access(kind: Access) -> bool
    ensures { result ≡ is_access_is kind }
{
    match kind {
        Access::Read | Access::Write => true,
        Access::In | Access::Out => false,
    }
}

/// Adds copies of the READ and WRITE regions of a set.
#[tactic(auto, using(crate::proofs::Steps::fitting))]
fn push_accesses(alloc: Global, out: &mut RegionSet, set: &[Region]) -> Result<(), Memory>
    requires out { SetFits out.old }
    requires set { SetFits set.now }
    ensures added { OnOk result (out.new ≡ out.old ++ accesses set.now) }
    ensures fits { OnOk result (SetFits out.new) }
{
    let mut rest = set;
    while let [r, more @ ..] = rest {
        if is_access(r.kind) {
            push_region(out, copy_region(alloc, r)?)?;
        }
        rest = more;
    }
    Ok(())
}

/// Adds READ and WRITE of a statement.
fn push_accesses_at(
    alloc: Global,
    out: &mut RegionSet,
    at: &List<At<RegionSet>>,
    id: StmtId,
) -> Result<(), Memory>
    requires out { SetFits out.old }
    requires at { SetsFit at.now }
    ensures added { OnOk result (out.new ≡ out.old ++ accesses_at at.now id) }
    ensures fits { OnOk result (SetFits out.new) }
{
    match value_at(at, id) {
        None => Ok(()),
        Some(set) => push_accesses(alloc, out, set.as_slice()),
    }
}

/// Appends regions as they are before what a transformer describes, from those after it, in their order (`compose`).
#[tactic(auto, using(crate::proofs::Steps::fitting))]
pub fn push_composed(
    alloc: Global,
    out: &mut RegionSet,
    t: &Transformer,
    set: &[Region],
) -> Result<(), Memory>
    requires out { SetFits out.old }
    requires transformer { Fits t.now.system }
    requires set { SetFits set.now }
    ensures added { OnOk result (out.new ≡ out.old ++ all_composed t.now set.now) }
    ensures fits { OnOk result (SetFits out.new) }
{
    let mut rest = set;
    while let [r, more @ ..] = rest {
        push_region(out, compose(alloc, r, t)?)?;
        rest = more;
    }
    Ok(())
}

/// What a statement accesses, and what the rest of its list does after it.
#[tactic(auto, using(crate::proofs::SettledLaws::handing))]
fn with_rest(
    alloc: Global,
    id: StmtId,
    own: &List<At<Transformer>>,
    at: &List<At<RegionSet>>,
    rest: &[Region],
) -> Result<RegionSet, Memory>
    requires own { ResultsFit own.now }
    requires at { SetsFit at.now }
    requires rest { SetFits rest.now }
    requires fixed { AllFixed rest.now }
    ensures defined { IfOk result (λ qs. qs ≡ unite_all_is (accesses_at at.now id ++ all_composed (transformer_at_is own.now id) rest.now)) }
    ensures fits { IfOk result SetFits }
    ensures fixed { IfOk result AllFixed }
{
    let mut first = List::new(alloc);
    push_accesses_at(alloc, &mut first, at, id)?;
    let t = transformer_at(alloc, own, id)?;
    let mut second = List::from_vec(Vec::with_capacity(alloc, rest.len())?);
    push_settled(alloc, &mut second, &t, rest)?;
    let set = unite_settled(alloc, rest, first, second)?;
    Ok(set)
}

/// Of statements that are executed from the first to the last; from the last on.
#[tactic(auto, using(crate::proofs::ListSteps::order_step))]
fn in_order(
    alloc: Global,
    ids: &[StmtId],
    own: &List<At<Transformer>>,
    at: &List<At<RegionSet>>,
) -> Result<RegionSet, Memory>
    requires own { ResultsFit own.now }
    requires at { SetsFit at.now }
    ensures defined { IfOk result (λ qs. qs ≡ in_order_is (transformer_at_is own.now) (accesses_at at.now) ids.now) }
    ensures fits { IfOk result SetFits }
{
    let mut set = List::new(alloc);
    let mut left = ids.len();
    while left > 0 {
        left -= 1;
        set = with_rest(alloc, ids[left], own, at, set.as_slice())?;
    }
    Ok(set)
}

#[tactic(auto, using(crate::proofs::Steps::fitting))]
fn all_accesses(
    alloc: Global,
    ids: &[StmtId],
    at: &List<At<RegionSet>>,
) -> Result<RegionSet, Memory>
    requires { SetsFit at.now }
    ensures defined { IfOk result (λ qs. qs ≡ all_accesses_is (accesses_at at.now) ids.now) }
    ensures fits { IfOk result SetFits }
{
    let mut out = List::new(alloc);
    let mut rest = ids;
    while let [id, more @ ..] = rest {
        push_accesses_at(alloc, &mut out, at, *id)?;
        rest = more;
    }
    Ok(out)
}

fn of_list(
    alloc: Global,
    list: &List<Stmt>,
    whole: bool,
    own: &Results<Transformer>,
    at: &List<At<RegionSet>>,
) -> Result<RegionSet, Memory>
    requires own { ResultsFit own.now.at }
    requires at { SetsFit at.now }
    ensures defined { IfOk result (λ qs. qs ≡ list_regions_is (transformer_at_is own.now.at) (accesses_at at.now) whole (stmt_trees list.now)) }
    ensures fits { IfOk result SetFits }
{
    let ids = numbers(alloc, list.as_slice())?;
    if is_unstructured(alloc, list, whole)? {
        let t = list_at(alloc, list, whole, &own.at)?;
        let all = all_accesses(alloc, ids.as_slice(), at)?;
        in_any_order(alloc, t.cells.as_slice(), all.as_slice())
    } else {
        in_order(alloc, ids.as_slice(), &own.at, at)
    }
}

/// The READ and WRITE regions of a list where it begins, from those in `at` of its direct statements and their transformers. `whole`: the
/// list is the body of the module. Where a GO TO in it leads to a statement of it, or a RETURN leaves the body early, the analysed scalars
/// that it changes may have any value at each statement, and nothing is exact. The view is not used.
pub fn list_regions(
    alloc: Global,
    _view: &View<'_>,
    list: &List<Stmt>,
    whole: bool,
    own: &Results<Transformer>,
    at: &List<At<RegionSet>>,
) -> Result<RegionSet, Memory>
    requires own { ResultsFit own.now.at }
    requires at { SetsFit at.now }
    ensures defined { IfOk result (λ qs. qs ≡ list_regions_is (transformer_at_is own.now.at) (accesses_at at.now) whole (stmt_trees list.now)) }
    ensures fits { IfOk result SetFits }
    ensures sound { IfOk result (HasList (transformer_at_is own.now.at) (accesses_at at.now) whole (stmt_trees list.now)) }
    ensures exact { IfOk result (HasListAlone (transformer_at_is own.now.at) (accesses_at at.now) whole (stmt_trees list.now)) }
{
    of_list(alloc, list, whole, own, at)
}
