//! What holds of the tracked cells where statements begin and after their normal ends.
ghost use Rattle.std.specs.Prelude.{◌≡◌, false, [], ◌∷◌, ◌++◌, if◌then◌else◌, IfOk, OnOk};
ghost use Rattle.affine_systems.specs.Given.{Fits};
ghost use Rattle.f77_ast.specs.Plain.{expr_tree};
ghost use Rattle.f77_ast.specs.PlainStmt.{stmt_tree, stmt_trees, what_tree, loop_tree, arm_tree, arm_trees};
ghost use Rattle.hull_projection.specs.Hull.{hull};
ghost use Rattle.transformers.specs.transformer_algebra.Transformers.{apply};
ghost use Rattle.transformers.specs.Statement.{at as at_is};
ghost use Rattle.transformers.specs.WhileParts.{arm_while};
ghost use Rattle.preconditions.specs.Statement.{after as after_is, after_what as after_what_is, after_each as after_each_is, after_list as after_list_is, after_arms as after_arms_is, after_arm_list as after_arm_list_is, goto_of_arm, before_last as before_last_is, after_loop_of, past_arms, if_true, if_false as if_false_is, each_while as each_while_is, while_done as while_done_is, hull_from, some_holds as some_holds_is, throughout as throughout_is, at_stmt, at_parts, at_each, at_all, at_list, at_arms, at_arm_list, at_loop, AllFit, EachFits};
ghost use Rattle.preconditions.specs.WhileParts.{last_begins as last_begins_is, at_while};
ghost use Rattle.preconditions.specs.Known.{scope_in, found_in, KnownFits};

use affine_forms::{condition_of, infeasible};
use affine_systems::{System, meet};
use f77_ast::{Arm, At, Expr, Loop, Stmt, StmtId, What};
use fx_lists::List;
use hull_projection::{clean, hull};
use std::alloc::{AllocError as Memory, Global};
use transformers::call_translation::CellScope;
use transformers::transformer_algebra::{
    Transformer, after_loop, apply, at_iteration, identity_transformer, iterate, iteration, without,
};
use transformers::{
    each_at, is_end, is_unstructured, list_at, loop_parts, value_at, while_in, while_iteration,
};

/// What is known around a statement: the scope of its module, and the transformers of the statements.
#[derive(Drop)]
pub struct PreconditionContext<'a> {
    pub scope: &'a CellScope<'a>,
    pub own: &'a List<At<Transformer>>,
}

/// What holds where statements begin, for the parts of a statement after its own, in the order of the text.
pub type PreconditionList = List<At<System>>;

/// A copy.
fn copy_system(s: &System) -> Result<System, Memory>
    requires { Fits s.now }
    ensures defined { IfOk result (λ t. t ≡ s.now) }
    ensures fits { IfOk result Fits }
{
    Ok(s.clone()?)
}

/// Adds what holds where the statement of a number begins.
fn push_found(at: &mut PreconditionList, id: StmtId, p: &System) -> Result<(), Memory>
    requires before { Fits p.now }
    requires found { EachFits at.old }
    ensures added { OnOk result (at.new ≡ at.old ++ at_is id p.now ∷ []) }
    ensures fits { OnOk result (EachFits at.new) }
{
    let value = copy_system(p)?;
    at.push(At { id, value })?;
    Ok(())
}

/// What holds where a test is true, and where it is false.
#[derive(Drop)]
struct Sides {
    yes: System,
    no: System,
}

fn both_sides(
    alloc: Global,
    known: &PreconditionContext<'_>,
    test: &Expr,
    p: &System,
) -> Result<Sides, Memory>
    requires { Fits p.now }
    ensures yes { IfOk result (λ r. r.yes ≡ if_true (scope_in known.now) (expr_tree test.now) p.now) }
    ensures no { IfOk result (λ r. r.no ≡ if_false_is (scope_in known.now) (expr_tree test.now) p.now) }
    ensures fits { IfOk result (λ r. Fits r.yes × Fits r.no) }
{
    let condition = condition_of(alloc, known.scope.symbols, known.scope.tracked, test)?;
    Ok(Sides {
        yes: meet(alloc, p, &condition.yes)?,
        no: meet(alloc, p, &condition.no)?,
    })
}

/// After a statement without parts.
#[tactic(auto, using(crate::proofs::StatementLaws::results_found))]
fn after_leaf(
    alloc: Global,
    known: &PreconditionContext<'_>,
    id: StmtId,
    p: &System,
) -> Result<System, Memory>
    requires known { KnownFits known.now }
    requires before { Fits p.now }
    ensures defined { IfOk result (λ q. q ≡ apply (found_in known.now id) p.now) }
    ensures fits { IfOk result Fits }
{
    match value_at(known.own, id) {
        None => apply(alloc, &identity_transformer(alloc), p),
        Some(t) => apply(alloc, t, p),
    }
}

/// The hulls of a system and more, from left to right.
#[tactic(auto, using(crate::proofs::Steps::hull_loop))]
fn hull_with(alloc: Global, first: System, more: &[System]) -> Result<System, Memory>
    requires first { Fits first }
    requires more { AllFit more.now }
    ensures defined { IfOk result (λ q. q ≡ hull_from first more.now) }
    ensures fits { IfOk result Fits }
{
    let mut hulls = first;
    for s in more {
        hulls = hull(alloc, &hulls, s)?;
    }
    Ok(hulls)
}

/// The hulls, from left to right.
fn some_holds(alloc: Global, all: &[System]) -> Result<System, Memory>
    requires { AllFit all.now }
    ensures defined { IfOk result (λ q. q ≡ some_holds_is all.now) }
    ensures fits { IfOk result Fits }
{
    match all {
        [] => infeasible(alloc),
        [first, more @ ..] => {
            let first = copy_system(first)?;
            hull_with(alloc, first, more)
        }
    }
}

/// After a block IF with these ends.
fn after_some(alloc: Global, mut ends: Vec<System>, last: System) -> Result<System, Memory>
    requires ends { AllFit ends.items }
    requires last { Fits last }
    ensures defined { IfOk result (λ q. q ≡ some_holds_is (ends.items ++ last ∷ [])) }
    ensures fits { IfOk result Fits }
{
    ends.push(last)?;
    some_holds(alloc, ends.as_slice())
}

/// In a list that does not run from the first statement to the last.
fn throughout(
    alloc: Global,
    known: &PreconditionContext<'_>,
    list: &List<Stmt>,
    whole: bool,
    p: &System,
) -> Result<System, Memory>
    requires known { KnownFits known.now }
    requires before { Fits p.now }
    ensures defined { IfOk result (λ q. q ≡ throughout_is whole (stmt_trees list.now) (found_in known.now) p.now) }
    ensures fits { IfOk result Fits }
{
    let t = list_at(alloc, list, whole, known.own)?;
    without(alloc, t.cells.as_slice(), p)
}

/// Where the test of a DO WHILE comes next, where `p` holds before the DO WHILE; `arm` has its test and its statements, with the GO TO.
#[tactic(auto, using(f77_ast::proofs::PlainlyStmt::read_structs))]
fn each_while(
    alloc: Global,
    known: &PreconditionContext<'_>,
    arm: &Arm,
    p: &System,
) -> Result<System, Memory>
    requires known { KnownFits known.now }
    requires before { Fits p.now }
    ensures defined { IfOk result (λ q. q ≡ each_while_is (arm_while (arm_tree arm.now)) (scope_in known.now) (found_in known.now) p.now) }
    ensures fits { IfOk result Fits }
{
    let all = each_at(alloc, &arm.body, known.own)?;
    let once = while_iteration(alloc, known.scope, arm, all.as_slice())?;
    let any = iterate(alloc, &once)?;
    let each = apply(alloc, &any, p)?;
    clean(alloc, &each)
}

/// Where a test is false.
fn if_false(
    alloc: Global,
    known: &PreconditionContext<'_>,
    test: &Expr,
    p: &System,
) -> Result<System, Memory>
    requires { Fits p.now }
    ensures defined { IfOk result (λ q. q ≡ if_false_is (scope_in known.now) (expr_tree test.now) p.now) }
    ensures fits { IfOk result Fits }
{
    let condition = condition_of(alloc, known.scope.symbols, known.scope.tracked, test)?;
    meet(alloc, p, &condition.no)
}

/// After a DO WHILE, where `p` holds before it and `q` at its GO TO.
#[tactic(auto, using(f77_ast::proofs::PlainlyStmt::read_structs))]
fn while_done(
    alloc: Global,
    known: &PreconditionContext<'_>,
    arm: &Arm,
    p: &System,
    q: &System,
) -> Result<System, Memory>
    requires before { Fits p.now }
    requires goto { Fits q.now }
    ensures defined { IfOk result (λ r. r ≡ while_done_is (arm_while (arm_tree arm.now)) (scope_in known.now) p.now q.now) }
    ensures fits { IfOk result Fits }
{
    let none = if_false(alloc, known, &arm.test, p)?;
    let some = if_false(alloc, known, &arm.test, q)?;
    hull(alloc, &none, &some)
}

/// The first of two systems where there is no statement more, else the second.
fn unless_last(last: bool, before: System, after: System) -> System
    requires before { Fits before }
    requires after { Fits after }
    ensures defined { result ≡ (if last then before else after) }
    ensures fits { Fits result }
{
    if last { before } else { after }
}

/// After a statement, where `p` holds before. What holds where it and its parts begin is added to what was found.
#[cycle(preconditions)]
#[tactic(auto, using(crate::proofs::StatementLaws::part_calls))]
fn after(
    alloc: Global,
    known: &PreconditionContext<'_>,
    s: &Stmt,
    p: System,
    at: &mut PreconditionList,
) -> Result<System, Memory>
    requires known { KnownFits known.now }
    requires before { Fits p }
    requires found { EachFits at.old }
    ensures defined { IfOk result (λ q. q ≡ after_is (stmt_tree s.now) (scope_in known.now) (found_in known.now) p) }
    ensures fits { IfOk result Fits }
    ensures added { IfOk result (λ _. at.new ≡ at.old ++ at_stmt (stmt_tree s.now) (scope_in known.now) (found_in known.now) p) }
    ensures results_fit { IfOk result (λ _. EachFits at.new) }
{
    push_found(at, s.id, &p)?;
    after_what(alloc, known, &s.what, s.id, p, at)
}

/// After what a statement of this number does.
#[cycle(preconditions)]
#[tactic(auto, using(crate::proofs::StatementLaws::part_calls))]
fn after_what(
    alloc: Global,
    known: &PreconditionContext<'_>,
    what: &What,
    id: StmtId,
    p: System,
    at: &mut PreconditionList,
) -> Result<System, Memory>
    requires known { KnownFits known.now }
    requires before { Fits p }
    requires found { EachFits at.old }
    ensures defined { IfOk result (λ q. q ≡ after_what_is (what_tree what.now) id (scope_in known.now) (found_in known.now) p) }
    ensures fits { IfOk result Fits }
    ensures added { IfOk result (λ _. at.new ≡ at.old ++ at_parts (what_tree what.now) (scope_in known.now) (found_in known.now) p) }
    ensures results_fit { IfOk result (λ _. EachFits at.new) }
{
    match what {
        What::If(arms, other) => {
            let mut ends = Vec::new(alloc);
            let before = after_arms(alloc, known, arms, p, &mut ends, at)?;
            match other {
                None => after_some(alloc, ends, before),
                Some(body) => {
                    let last = after_list(alloc, known, body, false, before, at)?;
                    after_some(alloc, ends, last)
                }
            }
        }
        What::LogicalIf(test, inner) => {
            let tests = both_sides(alloc, known, test, &p)?;
            let done = after(alloc, known, inner, tests.yes, at)?;
            hull(alloc, &done, &tests.no)
        }
        What::Do(l) => after_do(alloc, known, l, &p, at),
        What::Assign(..)
        | What::Call(..)
        | What::Goto(_)
        | What::Continue
        | What::Return
        | What::Stop(_)
        | What::Print(_)
        | What::Read(_) => after_leaf(alloc, known, id, &p),
    }
}

/// What holds after a list where `p` holds before it; what holds where its statements and their parts begin is appended to `at`. `whole`: the
/// list is the body of the module. Where it is unstructured, one system holds before each of its direct statements and after it, in which what the
/// list changes may have any value.
#[cycle(preconditions)]
#[tactic(auto, using(crate::proofs::StatementLaws::list_cases))]
pub fn after_list(
    alloc: Global,
    known: &PreconditionContext<'_>,
    list: &List<Stmt>,
    whole: bool,
    p: System,
    at: &mut PreconditionList,
) -> Result<System, Memory>
    requires known { KnownFits known.now }
    requires before { Fits p }
    requires found { EachFits at.old }
    ensures defined { IfOk result (λ q. q ≡ after_list_is whole (stmt_trees list.now) (scope_in known.now) (found_in known.now) p) }
    ensures fits { IfOk result Fits }
    ensures added { IfOk result (λ _. at.new ≡ at.old ++ at_list whole (stmt_trees list.now) (scope_in known.now) (found_in known.now) p) }
    ensures results_fit { IfOk result (λ _. EachFits at.new) }
{
    if is_unstructured(alloc, list, whole)? {
        let all = throughout(alloc, known, list, whole, &p)?;
        at_each_the_same(alloc, known, list, &all, at)?;
        Ok(all)
    } else {
        after_each(alloc, known, list, p, at)
    }
}

/// Adds what holds in the statements of a list where the same holds before each.
#[cycle(preconditions)]
#[tactic(auto, using(crate::proofs::StatementLaws::statement_calls))]
fn at_each_the_same(
    alloc: Global,
    known: &PreconditionContext<'_>,
    list: &List<Stmt>,
    p: &System,
    at: &mut PreconditionList,
) -> Result<(), Memory>
    requires known { KnownFits known.now }
    requires before { Fits p.now }
    requires found { EachFits at.old }
    ensures added { IfOk result (λ _. at.new ≡ at.old ++ at_all (stmt_trees list.now) (scope_in known.now) (found_in known.now) p.now) }
    ensures fits { IfOk result (λ _. EachFits at.new) }
{
    for s in list.as_slice() {
        let same = copy_system(p)?;
        let _ = after(alloc, known, s, same, at)?;
    }
    Ok(())
}

/// After statements one after another.
#[cycle(preconditions)]
#[tactic(auto, using(crate::proofs::StatementLaws::statement_calls))]
fn after_each(
    alloc: Global,
    known: &PreconditionContext<'_>,
    list: &List<Stmt>,
    p: System,
    at: &mut PreconditionList,
) -> Result<System, Memory>
    requires known { KnownFits known.now }
    requires before { Fits p }
    requires found { EachFits at.old }
    ensures defined { IfOk result (λ q. q ≡ after_each_is (stmt_trees list.now) (scope_in known.now) (found_in known.now) p) }
    ensures fits { IfOk result Fits }
    ensures added { IfOk result (λ _. at.new ≡ at.old ++ at_each (stmt_trees list.now) (scope_in known.now) (found_in known.now) p) }
    ensures results_fit { IfOk result (λ _. EachFits at.new) }
{
    let mut holds = p;
    for s in list.as_slice() {
        holds = after(alloc, known, s, holds, at)?;
    }
    Ok(holds)
}

/// What holds where the last of statements one after another begins. What holds in all of them is added to what was found.
#[cycle(preconditions)]
#[tactic(auto, using(crate::proofs::StatementLaws::statement_calls))]
fn before_last(
    alloc: Global,
    known: &PreconditionContext<'_>,
    list: &List<Stmt>,
    p: System,
    at: &mut PreconditionList,
) -> Result<System, Memory>
    requires known { KnownFits known.now }
    requires before { Fits p }
    requires found { EachFits at.old }
    ensures defined { IfOk result (λ q. q ≡ before_last_is (stmt_trees list.now) (scope_in known.now) (found_in known.now) p) }
    ensures fits { IfOk result Fits }
    ensures added { IfOk result (λ _. at.new ≡ at.old ++ at_each (stmt_trees list.now) (scope_in known.now) (found_in known.now) p) }
    ensures results_fit { IfOk result (λ _. EachFits at.new) }
{
    let mut holds = p;
    let statements = list.as_slice();
    for (place, s) in statements.iter().enumerate() {
        let before = copy_system(&holds)?;
        let end = after(alloc, known, s, before, at)?;
        holds = unless_last(is_end(&statements[place + 1..]), holds, end);
    }
    Ok(holds)
}

/// What holds where the last statement of a list begins, where `p` holds before the list.
#[cycle(preconditions)]
#[tactic(auto, using(crate::proofs::StatementLaws::last_cases))]
fn last_begins(
    alloc: Global,
    known: &PreconditionContext<'_>,
    list: &List<Stmt>,
    p: System,
    at: &mut PreconditionList,
) -> Result<System, Memory>
    requires known { KnownFits known.now }
    requires before { Fits p }
    requires found { EachFits at.old }
    ensures defined { IfOk result (λ q. q ≡ last_begins_is (stmt_trees list.now) (scope_in known.now) (found_in known.now) p) }
    ensures fits { IfOk result Fits }
    ensures added { IfOk result (λ _. at.new ≡ at.old ++ at_list false (stmt_trees list.now) (scope_in known.now) (found_in known.now) p) }
    ensures results_fit { IfOk result (λ _. EachFits at.new) }
{
    if is_unstructured(alloc, list, false)? {
        let all = throughout(alloc, known, list, false, &p)?;
        at_each_the_same(alloc, known, list, &all, at)?;
        Ok(all)
    } else {
        before_last(alloc, known, list, p, at)
    }
}

/// After the list of a DO WHILE, of which these are the number and the arm of the labelled block IF.
#[cycle(preconditions)]
#[tactic(auto, using(crate::proofs::StatementLaws::arm_calls))]
fn after_while(
    alloc: Global,
    known: &PreconditionContext<'_>,
    id: StmtId,
    arm: &Arm,
    p: &System,
    at: &mut PreconditionList,
) -> Result<System, Memory>
    requires known { KnownFits known.now }
    requires before { Fits p.now }
    requires found { EachFits at.old }
    ensures defined { IfOk result (λ q. q ≡ while_done_is (arm_while (arm_tree arm.now)) (scope_in known.now) p.now (goto_of_arm (arm_tree arm.now) (scope_in known.now) (found_in known.now) (each_while_is (arm_while (arm_tree arm.now)) (scope_in known.now) (found_in known.now) p.now))) }
    ensures fits { IfOk result Fits }
    ensures added { IfOk result (λ _. at.new ≡ at.old ++ at_while id (arm_tree arm.now) (scope_in known.now) (found_in known.now) (each_while_is (arm_while (arm_tree arm.now)) (scope_in known.now) (found_in known.now) p.now)) }
    ensures results_fit { IfOk result (λ _. EachFits at.new) }
{
    let each = each_while(alloc, known, arm, p)?;
    push_found(at, id, &each)?;
    let tests = both_sides(alloc, known, &arm.test, &each)?;
    let end = last_begins(alloc, known, &arm.body, tests.yes, at)?;
    while_done(alloc, known, arm, p, &end)
}

/// After the statements of an arm.
#[cycle(preconditions)]
#[tactic(auto, using(crate::proofs::StatementLaws::arm_calls))]
fn after_arm_list(
    alloc: Global,
    known: &PreconditionContext<'_>,
    list: &List<Stmt>,
    p: System,
    at: &mut PreconditionList,
) -> Result<System, Memory>
    requires known { KnownFits known.now }
    requires before { Fits p }
    requires found { EachFits at.old }
    ensures defined { IfOk result (λ q. q ≡ after_arm_list_is (stmt_trees list.now) (scope_in known.now) (found_in known.now) p) }
    ensures fits { IfOk result Fits }
    ensures added { IfOk result (λ _. at.new ≡ at.old ++ at_arm_list (stmt_trees list.now) (scope_in known.now) (found_in known.now) p) }
    ensures results_fit { IfOk result (λ _. EachFits at.new) }
{
    match while_in(list) {
        None => after_list(alloc, known, list, false, p, at),
        Some(w) => after_while(alloc, known, w.id, w.arm, &p, at),
    }
}

/// Adds to some ends what holds after each of the arms of a block IF, with the tests above it false, and gives what holds where the
/// tests of all are false.
#[cycle(preconditions)]
#[tactic(auto, using(crate::proofs::StatementLaws::arm_calls))]
fn after_arms(
    alloc: Global,
    known: &PreconditionContext<'_>,
    arms: &List<Arm>,
    p: System,
    ends: &mut Vec<System>,
    at: &mut PreconditionList,
) -> Result<System, Memory>
    requires known { KnownFits known.now }
    requires before { Fits p }
    requires ends { AllFit ends.old.items }
    requires found { EachFits at.old }
    ensures defined { IfOk result (λ q. q ≡ past_arms (arm_trees arms.now) (scope_in known.now) p) }
    ensures fits { IfOk result Fits }
    ensures ends { IfOk result (λ _. ends.new.items ≡ ends.old.items ++ after_arms_is (arm_trees arms.now) (scope_in known.now) (found_in known.now) p) }
    ensures ends_fit { IfOk result (λ _. AllFit ends.new.items) }
    ensures added { IfOk result (λ _. at.new ≡ at.old ++ at_arms (arm_trees arms.now) (scope_in known.now) (found_in known.now) p) }
    ensures results_fit { IfOk result (λ _. EachFits at.new) }
{
    let mut before = p;
    for arm in arms.as_slice() {
        let tests = both_sides(alloc, known, &arm.test, &before)?;
        let end = after_arm_list(alloc, known, &arm.body, tests.yes, at)?;
        ends.push(end)?;
        before = tests.no;
    }
    Ok(before)
}

/// After a DO.
#[cycle(preconditions)]
#[tactic(auto, using(crate::proofs::StatementLaws::body_calls))]
fn after_do(
    alloc: Global,
    known: &PreconditionContext<'_>,
    l: &Loop,
    p: &System,
    at: &mut PreconditionList,
) -> Result<System, Memory>
    requires known { KnownFits known.now }
    requires before { Fits p.now }
    requires found { EachFits at.old }
    ensures defined { IfOk result (λ q. q ≡ after_loop_of (loop_tree l.now) (scope_in known.now) (found_in known.now) p.now) }
    ensures fits { IfOk result Fits }
    ensures added { IfOk result (λ _. at.new ≡ at.old ++ at_loop (loop_tree l.now) (scope_in known.now) (found_in known.now) p.now) }
    ensures results_fit { IfOk result (λ _. EachFits at.new) }
{
    let body = list_at(alloc, &l.body, false, known.own)?;
    let parts = loop_parts(alloc, known.scope, l, body)?;
    let once = iteration(alloc, &parts)?;
    let each = at_iteration(alloc, &parts, &once, p)?;
    let end = after_list(alloc, known, &l.body, false, each, at)?;
    after_loop(alloc, &parts, &once, p, &end)
}
