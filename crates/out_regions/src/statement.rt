//! OUT at each statement, from OUT of what it is a part of.
ghost use Rattle.std.specs.Prelude.{◌≡◌, ◌++◌, false, IfOk, OnOk};
ghost use Rattle.f77_ast.specs.PlainStmt.{stmt_tree, stmt_trees, what_tree, loop_tree, arm_trees};
ghost use Rattle.in_out_regions.specs.region_sets.Lists.{SetsFit};
ghost use Rattle.in_out_regions.specs.region_sets.Loops.{RangeFits};
ghost use Rattle.in_out_regions.specs.region_sets.Sets.{SetFits};
ghost use Rattle.out_regions.specs.Contexts.{known_in, KnownFits, RestFits};
ghost use Rattle.out_regions.specs.Lists.{used_around as used_around_is};
ghost use Rattle.out_regions.specs.Statement.{body_writes as body_writes_is, body_out as body_out_is, body_in as body_in_is, used_after as used_after_is, loop_out as loop_out_is, only_out as only_out_is, at_stmt, at_parts, at_arms, at_only, at_loop, at_list, at_any, at_rest, at_first};

use crate::context::OutContext;
use crate::later::all_later;
use crate::lists::{any_out, first_out, may_leave, push_forgotten, rest_out, used_around};
use crate::rest::{Rest, all_rests, writes};
use crate::used::{push_out, used};
use affine_forms::is_cell;
use call_graph::View;
use f77_ast::{Arm, Loop, Stmt, StmtId, What};
use fx_lists::List;
use in_out_regions::array_regions::{put, range_of};
use in_out_regions::list_in;
use in_out_regions::region_sets::{
    Range, Region, RegionList, RegionSet, list_regions, numbers, push_regions,
};
use in_out_regions::transformers::{is_unstructured, list_at};
use std::alloc::{AllocError as Memory, Global};

/// The WRITE regions of a list.
fn body_writes(
    alloc: Global,
    known: &OutContext<'_>,
    whole: bool,
    body: &List<Stmt>,
) -> Result<RegionSet, Memory>
    requires { KnownFits known.now }
    ensures defined { IfOk result (λ rs. rs ≡ body_writes_is (known_in known.now) whole (stmt_trees body.now)) }
    ensures fits { IfOk result SetFits }
{
    let set = list_regions(alloc, known.view, body, whole, known.own, known.regions)?;
    writes(alloc, set.as_slice())
}

/// OUT of a list, where `later` may be read behind it.
pub fn body_out(
    alloc: Global,
    known: &OutContext<'_>,
    whole: bool,
    body: &List<Stmt>,
    later: &[Region],
) -> Result<RegionSet, Memory>
    requires known { KnownFits known.now }
    requires later { SetFits later.now }
    ensures defined { IfOk result (λ rs. rs ≡ body_out_is (known_in known.now) whole (stmt_trees body.now) later.now) }
    ensures fits { IfOk result SetFits }
{
    let own = body_writes(alloc, known, whole, body)?;
    used(alloc, known.scope.symbols, later, own.as_slice())
}

/// IN of the body of a DO.
fn body_in(alloc: Global, known: &OutContext<'_>, body: &List<Stmt>) -> Result<RegionSet, Memory>
    requires { KnownFits known.now }
    ensures defined { IfOk result (λ rs. rs ≡ body_in_is (known_in known.now) (stmt_trees body.now)) }
    ensures fits { IfOk result SetFits }
{
    let view = View {
        module: known.view.module,
        symbols: known.scope.symbols,
        graph: known.view.graph,
    };
    list_in(
        alloc,
        &view,
        body,
        false,
        known.own,
        known.regions,
        known.ins,
    )
}

/// What may be read behind an iteration of a DO.
fn used_after(
    alloc: Global,
    known: &OutContext<'_>,
    g: &Range,
    body: &List<Stmt>,
    out: &[Region],
) -> Result<RegionSet, Memory>
    requires known { KnownFits known.now }
    requires range { RangeFits g.now }
    requires out { SetFits out.now }
    ensures defined { IfOk result (λ rs. rs ≡ used_after_is (known_in known.now) g.now (stmt_trees body.now) out.now) }
    ensures fits { IfOk result SetFits }
{
    let mut later = List::new(alloc);
    push_forgotten(alloc, &mut later, g.turn.cells.as_slice(), out)?;
    let ins = body_in(alloc, known, body)?;
    let tracked = is_cell(known.scope.tracked, g.index);
    let read = all_later(alloc, tracked, g, ins.as_slice())?;
    push_out(alloc, &mut later, read.as_slice())?;
    Ok(later)
}

/// OUT of the body of a DO.
#[tactic(auto, using(crate::proofs::StatementLaws::loop_parts))]
fn loop_out(
    alloc: Global,
    known: &OutContext<'_>,
    l: &Loop,
    out: &[Region],
) -> Result<RegionSet, Memory>
    requires known { KnownFits known.now }
    requires out { SetFits out.now }
    ensures defined { IfOk result (λ rs. rs ≡ loop_out_is (known_in known.now) (loop_tree l.now) out.now) }
    ensures fits { IfOk result SetFits }
{
    let range = range_of(alloc, known.scope, l, &known.own.at)?;
    let later = used_after(alloc, known, &range, &l.body, out)?;
    body_out(alloc, known, false, &l.body, later.as_slice())
}

/// Adds OUT of a statement, and of its parts.
#[cycle(outs)]
#[tactic(auto, using(crate::proofs::Steps::part_calls))]
fn put_stmt(
    alloc: Global,
    known: &OutContext<'_>,
    s: &Stmt,
    out: RegionSet,
    at: &mut RegionList,
) -> Result<(), Memory>
    requires known { KnownFits known.now }
    requires out { SetFits out }
    requires at { SetsFit at.old }
    ensures added { OnOk result (at.new ≡ at.old ++ at_stmt (stmt_tree s.now) (known_in known.now) out) }
    ensures fits { OnOk result (SetsFit at.new) }
{
    let mut parts = List::new(alloc);
    put_parts(alloc, known, &s.what, out.as_slice(), &mut parts)?;
    put(alloc, at, s.id, out, parts)
}

/// Adds OUT of the parts of a statement, of which this is OUT.
#[cycle(outs)]
#[tactic(auto, using(crate::proofs::Steps::part_calls))]
fn put_parts(
    alloc: Global,
    known: &OutContext<'_>,
    what: &What,
    out: &[Region],
    at: &mut RegionList,
) -> Result<(), Memory>
    requires known { KnownFits known.now }
    requires out { SetFits out.now }
    requires at { SetsFit at.old }
    ensures added { OnOk result (at.new ≡ at.old ++ at_parts (what_tree what.now) (known_in known.now) out.now) }
    ensures fits { OnOk result (SetsFit at.new) }
{
    match what {
        What::If(arms, other) => {
            put_arms(alloc, known, arms, out, at)?;
            match other {
                None => Ok(()),
                Some(body) => put_body(alloc, known, body, out, at),
            }
        }
        What::LogicalIf(_, s) => put_only(alloc, known, s, out, at),
        What::Do(l) => put_loop(alloc, known, l, out, at),
        What::Assign(..)
        | What::Call(..)
        | What::Goto(_)
        | What::Continue
        | What::Return
        | What::Stop(_)
        | What::Print(_)
        | What::Read(_) => Ok(()),
    }
}

#[cycle(outs)]
#[tactic(auto, using(crate::proofs::Steps::arm_calls))]
fn put_arms(
    alloc: Global,
    known: &OutContext<'_>,
    arms: &List<Arm>,
    out: &[Region],
    at: &mut RegionList,
) -> Result<(), Memory>
    requires known { KnownFits known.now }
    requires out { SetFits out.now }
    requires at { SetsFit at.old }
    ensures added { OnOk result (at.new ≡ at.old ++ at_arms (arm_trees arms.now) (known_in known.now) out.now) }
    ensures fits { OnOk result (SetsFit at.new) }
{
    for arm in arms.as_slice() {
        put_body(alloc, known, &arm.body, out, at)?;
    }
    Ok(())
}

/// Of an arm of an IF.
#[cycle(outs)]
fn put_body(
    alloc: Global,
    known: &OutContext<'_>,
    body: &List<Stmt>,
    out: &[Region],
    at: &mut RegionList,
) -> Result<(), Memory>
    requires known { KnownFits known.now }
    requires out { SetFits out.now }
    requires at { SetsFit at.old }
    ensures added { OnOk result (at.new ≡ at.old ++ at_list false (stmt_trees body.now) (known_in known.now) (body_out_is (known_in known.now) false (stmt_trees body.now) out.now)) }
    ensures fits { OnOk result (SetsFit at.new) }
{
    let own = body_out(alloc, known, false, body, out)?;
    put_list(alloc, known, false, body, own.as_slice(), at)
}

/// Of the body of a DO.
#[cycle(outs)]
#[tactic(auto, using(crate::proofs::Steps::body_calls))]
fn put_loop(
    alloc: Global,
    known: &OutContext<'_>,
    l: &Loop,
    out: &[Region],
    at: &mut RegionList,
) -> Result<(), Memory>
    requires known { KnownFits known.now }
    requires out { SetFits out.now }
    requires at { SetsFit at.old }
    ensures added { OnOk result (at.new ≡ at.old ++ at_loop (loop_tree l.now) (known_in known.now) (loop_out_is (known_in known.now) (loop_tree l.now) out.now)) }
    ensures fits { OnOk result (SetsFit at.new) }
{
    let own = loop_out(alloc, known, l, out)?;
    put_list(alloc, known, false, &l.body, own.as_slice(), at)
}

/// OUT of the statement of a logical IF, as of a list of it alone.
fn only_out(
    alloc: Global,
    known: &OutContext<'_>,
    id: StmtId,
    out: &[Region],
) -> Result<RegionSet, Memory>
    requires known { KnownFits known.now }
    requires out { SetFits out.now }
    ensures defined { IfOk result (λ rs. rs ≡ only_out_is (known_in known.now) id out.now) }
    ensures fits { IfOk result SetFits }
{
    let list = any_out(alloc, known, out, id)?;
    let mut later = List::new(alloc);
    push_out(alloc, &mut later, list.as_slice())?;
    any_out(alloc, known, later.as_slice(), id)
}

/// Of the statement of a logical IF.
#[cycle(outs)]
fn put_only(
    alloc: Global,
    known: &OutContext<'_>,
    s: &Stmt,
    out: &[Region],
    at: &mut RegionList,
) -> Result<(), Memory>
    requires known { KnownFits known.now }
    requires out { SetFits out.now }
    requires at { SetsFit at.old }
    ensures added { OnOk result (at.new ≡ at.old ++ at_only (stmt_tree s.now) (known_in known.now) out.now) }
    ensures fits { OnOk result (SetsFit at.new) }
{
    let own = only_out(alloc, known, s.id, out)?;
    put_stmt(alloc, known, s, own, at)
}

/// Of a list, of which this is OUT.
#[cycle(outs)]
pub fn put_list(
    alloc: Global,
    known: &OutContext<'_>,
    whole: bool,
    list: &List<Stmt>,
    out: &[Region],
    at: &mut RegionList,
) -> Result<(), Memory>
    requires known { KnownFits known.now }
    requires out { SetFits out.now }
    requires at { SetsFit at.old }
    ensures added { OnOk result (at.new ≡ at.old ++ at_list whole (stmt_trees list.now) (known_in known.now) out.now) }
    ensures fits { OnOk result (SetsFit at.new) }
{
    if is_unstructured(alloc, list, whole)? {
        let later = around(alloc, known, whole, list, out)?;
        put_any(alloc, known, list, later.as_slice(), at)
    } else {
        put_rest(alloc, known, whole, list, out, at)
    }
}

/// What may be read behind each statement of a list whose statements come in any order.
fn around(
    alloc: Global,
    known: &OutContext<'_>,
    whole: bool,
    list: &List<Stmt>,
    out: &[Region],
) -> Result<RegionSet, Memory>
    requires known { KnownFits known.now }
    requires out { SetFits out.now }
    ensures defined { IfOk result (λ rs. rs ≡ used_around_is (known_in known.now) whole (stmt_trees list.now) out.now) }
    ensures fits { IfOk result SetFits }
{
    let t = list_at(alloc, list, whole, &known.own.at)?;
    let ids = numbers(alloc, list.as_slice())?;
    used_around(alloc, known, t.cells.as_slice(), ids.as_slice(), out)
}

/// Of a list whose statements come in any order, where this may be read behind each.
#[cycle(outs)]
#[tactic(auto, using(crate::proofs::Steps::statement_calls))]
fn put_any(
    alloc: Global,
    known: &OutContext<'_>,
    list: &List<Stmt>,
    later: &[Region],
    at: &mut RegionList,
) -> Result<(), Memory>
    requires known { KnownFits known.now }
    requires later { SetFits later.now }
    requires at { SetsFit at.old }
    ensures added { OnOk result (at.new ≡ at.old ++ at_any (stmt_trees list.now) (known_in known.now) later.now) }
    ensures fits { OnOk result (SetsFit at.new) }
{
    for s in list.as_slice() {
        let own = any_out(alloc, known, later, s.id)?;
        put_stmt(alloc, known, s, own, at)?;
    }
    Ok(())
}

/// Of the first statement of a list, with the rest after it.
#[cycle(outs)]
fn put_first(
    alloc: Global,
    known: &OutContext<'_>,
    whole: bool,
    s: &Stmt,
    rest: &Rest,
    out: &[Region],
    at: &mut RegionList,
) -> Result<(), Memory>
    requires known { KnownFits known.now }
    requires rest { RestFits rest.now }
    requires out { SetFits out.now }
    requires at { SetsFit at.old }
    ensures added { OnOk result (at.new ≡ at.old ++ at_first whole (stmt_tree s.now) (known_in known.now) rest.now out.now) }
    ensures fits { OnOk result (SetsFit at.new) }
{
    let leaving = may_leave(alloc, whole, s, rest)?;
    let own = first_out(alloc, known, leaving, s.id, rest, out)?;
    put_stmt(alloc, known, s, own, at)
}

/// Of a list that is executed in its order.
#[cycle(outs)]
#[tactic(auto, using(crate::proofs::RestLaws::rest_calls))]
fn put_rest(
    alloc: Global,
    known: &OutContext<'_>,
    whole: bool,
    list: &List<Stmt>,
    out: &[Region],
    at: &mut RegionList,
) -> Result<(), Memory>
    requires known { KnownFits known.now }
    requires out { SetFits out.now }
    requires at { SetsFit at.old }
    ensures added { OnOk result (at.new ≡ at.old ++ at_rest whole (stmt_trees list.now) (known_in known.now) out.now) }
    ensures fits { OnOk result (SetsFit at.new) }
{
    let mut rests = all_rests(alloc, known, whole, list.as_slice())?;
    let mut current = List::new(alloc);
    push_regions(alloc, &mut current, out)?;
    for s in list.as_slice() {
        match rests.pop() {
            None => return Err(Memory),
            Some(rest) => {
                put_first(alloc, known, whole, s, &rest, current.as_slice(), at)?;
                current = rest_out(alloc, known, s.id, &rest, current.as_slice())?;
            }
        }
    }
    Ok(())
}
