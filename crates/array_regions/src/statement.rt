//! READ and WRITE of statements, one arm for each form.
ghost use Rattle.std.specs.Prelude.{◌≡◌, ◌++◌, ◌∷◌, [], IfOk, OnOk};
ghost use Rattle.f77_ast.specs.PlainStmt.{stmt_tree, stmt_trees, what_tree, loop_tree, arm_trees};
ghost use Rattle.transformers.specs.Statement.{at as at_is};
ghost use Rattle.region_translation.specs.region_sets.Lists.{SetsFit};
ghost use Rattle.region_translation.specs.region_sets.Sets.{SetFits};
ghost use Rattle.array_regions.specs.Arms.{ReachedFits, always as always_is, past_arms};
ghost use Rattle.array_regions.specs.Known.{scope_in, found_in, called_in, KnownFits};
ghost use Rattle.array_regions.specs.Statement.{what_set as what_set_is, arm_sets, body_set as body_set_is, list_set as list_set_is, at_stmt, at_parts, at_list, at_arms, at_loop};

use crate::arms::{Reached, always, if_false, if_set, if_true, push_met, push_tests};
use crate::calls::call_set;
use crate::context::RegionContext;
use crate::loops::do_set;
use crate::simple::{assignment, printing, reading};
use f77_ast::{Arm, At, Loop, Stmt, StmtId, What};
use fx_lists::List;
use region_translation::region_sets::{RegionList, RegionSet, list_regions, unite_all};
use std::alloc::{AllocError as Memory, Global};
use std::mem;

/// Adds the set of the statement of a number, and those of its parts after it.
#[tactic(auto, using(crate::proofs::Steps::sets))]
pub fn put(
    alloc: Global,
    at: &mut RegionList,
    id: StmtId,
    value: RegionSet,
    parts: RegionList,
) -> Result<(), Memory>
    requires at { SetsFit at.old }
    requires value { SetFits value }
    requires parts { SetsFit parts }
    ensures added { OnOk result (at.new ≡ at.old ++ at_is id value ∷ parts) }
    ensures fits { OnOk result (SetsFit at.new) }
{
    at.push(At { id, value })?;
    put_all(alloc, at, parts)
}

/// Adds sets at the end.
#[tactic(auto, using(crate::proofs::Steps::sets))]
pub fn put_all(alloc: Global, at: &mut RegionList, more: RegionList) -> Result<(), Memory>
    requires at { SetsFit at.old }
    requires more { SetsFit more }
    ensures added { OnOk result (at.new ≡ at.old ++ more) }
    ensures fits { OnOk result (SetsFit at.new) }
{
    let mut all = mem::replace(at, List::new(alloc)).into_vec();
    let mut rest = more.into_vec();
    all.append(&mut rest)?;
    *at = List::from_vec(all);
    Ok(())
}

/// Of what a statement does, with its parts, whose sets are added.
#[cycle(regions)]
#[tactic(auto, using(crate::proofs::StatementLaws::part_calls))]
fn what_set(
    alloc: Global,
    known: &RegionContext<'_>,
    what: &What,
    parts: &mut RegionList,
) -> Result<RegionSet, Memory>
    requires known { KnownFits known.now }
    requires parts { SetsFit parts.old }
    ensures defined { IfOk result (λ rs. rs ≡ what_set_is (what_tree what.now) (scope_in known.now) (found_in known.now) (called_in known.now)) }
    ensures fits { IfOk result SetFits }
    ensures added { IfOk result (λ _. parts.new ≡ parts.old ++ at_parts (what_tree what.now) (scope_in known.now) (found_in known.now) (called_in known.now)) }
    ensures results_fit { IfOk result (λ _. SetsFit parts.new) }
{
    match what {
        What::Assign(a, b) => assignment(alloc, known.scope, a, b),
        What::If(arms, other) => {
            let mut all = List::new(alloc);
            push_tests(alloc, &mut all, known.scope, arms)?;
            let way = push_arms(alloc, &mut all, known, arms, parts)?;
            match other {
                None => unite_all(alloc, all.as_slice()),
                Some(body) => {
                    let set = list_set(alloc, known, body, false, parts)?;
                    push_met(alloc, &mut all, &way, set.as_slice())?;
                    unite_all(alloc, all.as_slice())
                }
            }
        }
        What::LogicalIf(test, s) => {
            let mut inner = List::new(alloc);
            let set = what_set(alloc, known, &s.what, &mut inner)?;
            let all = if_set(alloc, known.scope, test, set.as_slice())?;
            put(alloc, parts, s.id, set, inner)?;
            Ok(all)
        }
        What::Do(l) => body_set(alloc, known, l, parts),
        What::Print(items) => printing(alloc, known.scope, items),
        What::Read(items) => reading(alloc, known.scope, items.as_slice()),
        What::Call(callee, actuals) => call_set(alloc, known, callee, actuals),
        What::Goto(_) | What::Continue | What::Return | What::Stop(_) => Ok(List::new(alloc)),
    }
}

/// Adds the set of a statement, and those of its parts after it.
#[cycle(regions)]
#[tactic(auto, using(crate::proofs::StatementLaws::part_calls))]
fn put_stmt(
    alloc: Global,
    known: &RegionContext<'_>,
    s: &Stmt,
    at: &mut RegionList,
) -> Result<(), Memory>
    requires known { KnownFits known.now }
    requires at { SetsFit at.old }
    ensures added { OnOk result (at.new ≡ at.old ++ at_stmt (stmt_tree s.now) (scope_in known.now) (found_in known.now) (called_in known.now)) }
    ensures fits { OnOk result (SetsFit at.new) }
{
    let mut parts = List::new(alloc);
    let set = what_set(alloc, known, &s.what, &mut parts)?;
    put(alloc, at, s.id, set, parts)
}

/// The sets of the statements of a list, and of their parts.
#[cycle(regions)]
#[tactic(auto, using(crate::proofs::StatementLaws::statement_calls))]
fn each_set(
    alloc: Global,
    known: &RegionContext<'_>,
    list: &List<Stmt>,
) -> Result<RegionList, Memory>
    requires { KnownFits known.now }
    ensures defined { IfOk result (λ as'. as' ≡ at_list (stmt_trees list.now) (scope_in known.now) (found_in known.now) (called_in known.now)) }
    ensures fits { IfOk result SetsFit }
{
    let mut found = List::new(alloc);
    for s in list.as_slice() {
        put_stmt(alloc, known, s, &mut found)?;
    }
    Ok(found)
}

/// The regions of a list where it begins; those of its statements and of their parts are appended to `at`. `whole`: the list is the body of
/// the module.
#[cycle(regions)]
#[tactic(auto, using(crate::proofs::StatementLaws::part_calls))]
pub fn list_set(
    alloc: Global,
    known: &RegionContext<'_>,
    list: &List<Stmt>,
    whole: bool,
    at: &mut RegionList,
) -> Result<RegionSet, Memory>
    requires known { KnownFits known.now }
    requires at { SetsFit at.old }
    ensures defined { IfOk result (λ rs. rs ≡ list_set_is whole (stmt_trees list.now) (scope_in known.now) (found_in known.now) (called_in known.now)) }
    ensures fits { IfOk result SetFits }
    ensures added { IfOk result (λ _. at.new ≡ at.old ++ at_list (stmt_trees list.now) (scope_in known.now) (found_in known.now) (called_in known.now)) }
    ensures results_fit { IfOk result (λ _. SetsFit at.new) }
{
    let found = each_set(alloc, known, list)?;
    let set = list_regions(alloc, known.view, list, whole, known.own, &found)?;
    put_all(alloc, at, found)?;
    Ok(set)
}

/// Adds the regions of arms, each where its test is true and those above it are false, and gives how it is where all are false.
#[cycle(regions)]
#[tactic(auto, using(crate::proofs::StatementLaws::arm_calls))]
fn push_arms(
    alloc: Global,
    out: &mut RegionSet,
    known: &RegionContext<'_>,
    arms: &List<Arm>,
    at: &mut RegionList,
) -> Result<Reached, Memory>
    requires out { SetFits out.old }
    requires known { KnownFits known.now }
    requires at { SetsFit at.old }
    ensures past { IfOk result (λ w. w ≡ past_arms (arm_trees arms.now) (scope_in known.now) always_is) }
    ensures past_fits { IfOk result ReachedFits }
    ensures regions { IfOk result (λ _. out.new ≡ out.old ++ arm_sets (arm_trees arms.now) (scope_in known.now) (found_in known.now) (called_in known.now) always_is) }
    ensures fits { IfOk result (λ _. SetFits out.new) }
    ensures added { IfOk result (λ _. at.new ≡ at.old ++ at_arms (arm_trees arms.now) (scope_in known.now) (found_in known.now) (called_in known.now)) }
    ensures results_fit { IfOk result (λ _. SetsFit at.new) }
{
    let mut way = always(alloc);
    for arm in arms.as_slice() {
        let set = list_set(alloc, known, &arm.body, false, at)?;
        let there = if_true(alloc, known.scope, &arm.test, &way)?;
        push_met(alloc, out, &there, set.as_slice())?;
        way = if_false(alloc, known.scope, &arm.test, &way)?;
    }
    Ok(way)
}

/// Of a DO.
#[cycle(regions)]
#[tactic(auto, using(crate::proofs::StatementLaws::body_calls))]
fn body_set(
    alloc: Global,
    known: &RegionContext<'_>,
    l: &Loop,
    at: &mut RegionList,
) -> Result<RegionSet, Memory>
    requires known { KnownFits known.now }
    requires at { SetsFit at.old }
    ensures defined { IfOk result (λ rs. rs ≡ body_set_is (loop_tree l.now) (scope_in known.now) (found_in known.now) (called_in known.now)) }
    ensures fits { IfOk result SetFits }
    ensures added { IfOk result (λ _. at.new ≡ at.old ++ at_loop (loop_tree l.now) (scope_in known.now) (found_in known.now) (called_in known.now)) }
    ensures results_fit { IfOk result (λ _. SetsFit at.new) }
{
    let body = list_set(alloc, known, &l.body, false, at)?;
    do_set(alloc, known.scope, l, &known.own.at, body.as_slice())
}
