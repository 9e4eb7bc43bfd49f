//! IN of statements, one arm for each form.
ghost use Rattle.std.specs.Prelude.{◌≡◌, ◌++◌, ◌∷◌, [], IfOk, OnOk};
ghost use Rattle.f77_ast.specs.Plain.{expr_tree};
ghost use Rattle.f77_ast.specs.PlainStmt.{stmt_tree, stmt_trees, what_tree, loop_tree, arm_trees};
ghost use Rattle.array_regions.specs.call_translation.Scopes.{scope_tree};
ghost use Rattle.array_regions.specs.region_sets.Lists.{SetsFit};
ghost use Rattle.array_regions.specs.region_sets.Sets.{SetFits};
ghost use Rattle.array_regions.specs.Reads.{reads};
ghost use Rattle.array_regions.specs.Arms.{ReachedFits, always as always_is, past_arms, tests_reads};
ghost use Rattle.in_out_regions.specs.Kinds.{all_in};
ghost use Rattle.in_out_regions.specs.Contexts.{known_in, KnownFits};
ghost use Rattle.in_out_regions.specs.Statement.{list_of as list_of_is, alone as alone_is, if_in as if_in_is, do_of as do_of_is, what_in as what_in_is, arms_in, list_set as list_set_is, at_stmt, at_parts, at_list, at_arms, at_loop};

use crate::calls::call_in;
use crate::context::InContext;
use crate::kinds::{first_reads, push_in};
use crate::lists::{ListContext, all_unless_overlapped, of_list};
use crate::loops::do_set;
use crate::simple::reading;
use array_regions::call_translation::CellScope;
use array_regions::region_sets::{Region, RegionList, RegionSet, list_regions, set_at, unite_all};
use array_regions::{
    Reached, always, if_false, if_true, push_met, push_reads, push_tests, put, put_all,
};
use f77_ast::{Arm, Expr, Loop, Stmt, StmtId, What};
use fx_lists::List;
use std::alloc::{AllocError as Memory, Global};

/// Of a list with these sets at its statements.
fn list_of(
    alloc: Global,
    known: &InContext<'_>,
    list: &List<Stmt>,
    whole: bool,
    found: &RegionList,
) -> Result<RegionSet, Memory>
    requires known { KnownFits known.now }
    requires found { SetsFit found.now }
    ensures defined { IfOk result (λ rs. rs ≡ list_of_is whole (stmt_trees list.now) (known_in known.now) found.now) }
    ensures fits { IfOk result SetFits }
{
    let given = ListContext {
        symbols: known.around.scope.symbols,
        own: &known.around.own.at,
        regions: known.regions,
        ins: found,
    };
    of_list(alloc, list, whole, &given)
}

/// Adds what an expression reads.
fn push_reads_in(
    alloc: Global,
    out: &mut RegionSet,
    scope: &CellScope<'_>,
    e: &Expr,
) -> Result<(), Memory>
    requires { SetFits out.old }
    ensures added { OnOk result (out.new ≡ out.old ++ all_in (reads (expr_tree e.now) (scope_tree scope.now.symbols.now scope.now.tracked.now))) }
    ensures fits { OnOk result (SetFits out.new) }
{
    let mut read = List::new(alloc);
    push_reads(alloc, &mut read, scope, e)?;
    push_in(alloc, out, read.as_slice())
}

/// Of the statement of a logical IF, which has this number and set, as of a list of it alone: it reads nothing certainly that shares units with what it writes.
fn alone(
    alloc: Global,
    known: &InContext<'_>,
    id: StmtId,
    set: &[Region],
) -> Result<RegionSet, Memory>
    requires { SetFits set.now }
    ensures defined { IfOk result (λ rs. rs ≡ alone_is (known_in known.now) id set.now) }
    ensures fits { IfOk result SetFits }
{
    let united = unite_all(alloc, set)?;
    all_unless_overlapped(
        alloc,
        known.around.scope.symbols,
        set_at(known.regions, id),
        united.as_slice(),
    )
}

/// Of a logical IF whose statement has this set.
fn if_in(
    alloc: Global,
    scope: &CellScope<'_>,
    test: &Expr,
    inner: &[Region],
) -> Result<RegionSet, Memory>
    requires { SetFits inner.now }
    ensures defined { IfOk result (λ rs. rs ≡ if_in_is (scope_tree scope.now.symbols.now scope.now.tracked.now) (expr_tree test.now) inner.now) }
    ensures fits { IfOk result SetFits }
{
    let mut all = List::new(alloc);
    push_reads_in(alloc, &mut all, scope, test)?;
    let way = if_true(alloc, scope, test, &always(alloc))?;
    push_met(alloc, &mut all, &way, inner)?;
    unite_all(alloc, all.as_slice())
}

/// Adds what the tests of an IF read.
fn push_tests_in(
    alloc: Global,
    out: &mut RegionSet,
    scope: &CellScope<'_>,
    arms: &List<Arm>,
) -> Result<(), Memory>
    requires { SetFits out.old }
    ensures added { OnOk result (out.new ≡ out.old ++ all_in (tests_reads (arm_trees arms.now) (scope_tree scope.now.symbols.now scope.now.tracked.now) always_is)) }
    ensures fits { OnOk result (SetFits out.new) }
{
    let mut read = List::new(alloc);
    push_tests(alloc, &mut read, scope, arms)?;
    push_in(alloc, out, read.as_slice())
}

/// Of a DO whose body has these sets at its statements.
#[tactic(auto, using(crate::proofs::StatementLaws::loop_parts))]
fn do_of(
    alloc: Global,
    known: &InContext<'_>,
    l: &Loop,
    found: &RegionList,
) -> Result<RegionSet, Memory>
    requires known { KnownFits known.now }
    requires found { SetsFit found.now }
    ensures defined { IfOk result (λ rs. rs ≡ do_of_is (loop_tree l.now) (known_in known.now) found.now) }
    ensures fits { IfOk result SetFits }
{
    let accesses = list_regions(
        alloc,
        known.around.view,
        &l.body,
        false,
        known.around.own,
        known.regions,
    )?;
    let ins = list_of(alloc, known, &l.body, false, found)?;
    do_set(
        alloc,
        known.around.scope,
        l,
        &known.around.own.at,
        accesses.as_slice(),
        ins.as_slice(),
    )
}

/// Of the statement with a number, and what it does, with its parts, whose sets are added.
#[cycle(ins)]
#[tactic(auto, using(crate::proofs::StatementLaws::part_calls))]
fn what_in(
    alloc: Global,
    known: &InContext<'_>,
    id: StmtId,
    what: &What,
    parts: &mut RegionList,
) -> Result<RegionSet, Memory>
    requires known { KnownFits known.now }
    requires parts { SetsFit parts.old }
    ensures defined { IfOk result (λ rs. rs ≡ what_in_is id (what_tree what.now) (known_in known.now)) }
    ensures fits { IfOk result SetFits }
    ensures added { IfOk result (λ _. parts.new ≡ parts.old ++ at_parts (what_tree what.now) (known_in known.now)) }
    ensures results_fit { IfOk result (λ _. SetsFit parts.new) }
{
    match what {
        What::If(arms, other) => {
            let mut all = List::new(alloc);
            push_tests_in(alloc, &mut all, known.around.scope, arms)?;
            let way = push_arms(alloc, &mut all, known, arms, parts)?;
            match other {
                None => unite_all(alloc, all.as_slice()),
                Some(body) => {
                    let set = list_set(alloc, known, body, false, parts)?;
                    push_met(alloc, &mut all, &way, set.as_slice())?;
                    unite_all(alloc, all.as_slice())
                }
            }
        }
        What::LogicalIf(test, s) => {
            let mut inner = List::new(alloc);
            let set = what_in(alloc, known, s.id, &s.what, &mut inner)?;
            let only = alone(alloc, known, s.id, set.as_slice())?;
            let all = if_in(alloc, known.around.scope, test, only.as_slice())?;
            put(alloc, parts, s.id, set, inner)?;
            Ok(all)
        }
        What::Do(l) => body_set(alloc, known, l, parts),
        What::Call(name, actuals) => call_in(alloc, known, name, actuals),
        What::Read(items) => reading(alloc, known.around.scope, items.as_slice()),
        What::Assign(..)
        | What::Print(_)
        | What::Goto(_)
        | What::Continue
        | What::Return
        | What::Stop(_) => first_reads(alloc, set_at(known.regions, id)),
    }
}

/// Adds the set of a statement, and those of its parts after it.
#[cycle(ins)]
#[tactic(auto, using(crate::proofs::StatementLaws::part_calls))]
fn put_stmt(
    alloc: Global,
    known: &InContext<'_>,
    s: &Stmt,
    at: &mut RegionList,
) -> Result<(), Memory>
    requires known { KnownFits known.now }
    requires at { SetsFit at.old }
    ensures added { OnOk result (at.new ≡ at.old ++ at_stmt (stmt_tree s.now) (known_in known.now)) }
    ensures fits { OnOk result (SetsFit at.new) }
{
    let mut parts = List::new(alloc);
    let set = what_in(alloc, known, s.id, &s.what, &mut parts)?;
    put(alloc, at, s.id, set, parts)
}

/// The sets of the statements of a list, and of their parts.
#[cycle(ins)]
#[tactic(auto, using(crate::proofs::StatementLaws::statement_calls))]
fn each_set(alloc: Global, known: &InContext<'_>, list: &List<Stmt>) -> Result<RegionList, Memory>
    requires { KnownFits known.now }
    ensures defined { IfOk result (λ as'. as' ≡ at_list (stmt_trees list.now) (known_in known.now)) }
    ensures fits { IfOk result SetsFit }
{
    let mut found = List::new(alloc);
    for s in list.as_slice() {
        put_stmt(alloc, known, s, &mut found)?;
    }
    Ok(found)
}

/// The IN regions of a list where it begins; those of its statements and of their parts are appended to `at`. `whole`: the list is the body of the module.
#[cycle(ins)]
#[tactic(auto, using(crate::proofs::StatementLaws::part_calls))]
pub fn list_set(
    alloc: Global,
    known: &InContext<'_>,
    list: &List<Stmt>,
    whole: bool,
    at: &mut RegionList,
) -> Result<RegionSet, Memory>
    requires known { KnownFits known.now }
    requires at { SetsFit at.old }
    ensures defined { IfOk result (λ rs. rs ≡ list_set_is whole (stmt_trees list.now) (known_in known.now)) }
    ensures fits { IfOk result SetFits }
    ensures added { IfOk result (λ _. at.new ≡ at.old ++ at_list (stmt_trees list.now) (known_in known.now)) }
    ensures results_fit { IfOk result (λ _. SetsFit at.new) }
{
    let found = each_set(alloc, known, list)?;
    let set = list_of(alloc, known, list, whole, &found)?;
    put_all(alloc, at, found)?;
    Ok(set)
}

/// Adds the regions of arms, each where its test is true and those above it are false, and gives how it is where all are false.
#[cycle(ins)]
#[tactic(auto, using(crate::proofs::StatementLaws::arm_calls))]
fn push_arms(
    alloc: Global,
    out: &mut RegionSet,
    known: &InContext<'_>,
    arms: &List<Arm>,
    at: &mut RegionList,
) -> Result<Reached, Memory>
    requires out { SetFits out.old }
    requires known { KnownFits known.now }
    requires at { SetsFit at.old }
    ensures past { IfOk result (λ w. w ≡ past_arms (arm_trees arms.now) (known_in known.now).scope always_is) }
    ensures past_fits { IfOk result ReachedFits }
    ensures regions { IfOk result (λ _. out.new ≡ out.old ++ arms_in (arm_trees arms.now) (known_in known.now) always_is) }
    ensures fits { IfOk result (λ _. SetFits out.new) }
    ensures added { IfOk result (λ _. at.new ≡ at.old ++ at_arms (arm_trees arms.now) (known_in known.now)) }
    ensures results_fit { IfOk result (λ _. SetsFit at.new) }
{
    let mut way = always(alloc);
    for arm in arms.as_slice() {
        let set = list_set(alloc, known, &arm.body, false, at)?;
        let there = if_true(alloc, known.around.scope, &arm.test, &way)?;
        push_met(alloc, out, &there, set.as_slice())?;
        way = if_false(alloc, known.around.scope, &arm.test, &way)?;
    }
    Ok(way)
}

/// Of a DO.
#[cycle(ins)]
#[tactic(auto, using(crate::proofs::StatementLaws::body_calls))]
fn body_set(
    alloc: Global,
    known: &InContext<'_>,
    l: &Loop,
    at: &mut RegionList,
) -> Result<RegionSet, Memory>
    requires known { KnownFits known.now }
    requires at { SetsFit at.old }
    ensures defined { IfOk result (λ rs. rs ≡ do_of_is (loop_tree l.now) (known_in known.now) (at_loop (loop_tree l.now) (known_in known.now))) }
    ensures fits { IfOk result SetFits }
    ensures added { IfOk result (λ _. at.new ≡ at.old ++ at_loop (loop_tree l.now) (known_in known.now)) }
    ensures results_fit { IfOk result (λ _. SetsFit at.new) }
{
    let found = each_set(alloc, known, &l.body)?;
    let set = do_of(alloc, known, l, &found)?;
    put_all(alloc, at, found)?;
    Ok(set)
}
