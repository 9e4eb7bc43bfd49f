//! What statements do to the tracked cells.
ghost use Rattle.std.specs.Prelude.{◌≡◌, ◌+◌, ◌<◌, ◌&&◌, false, [], ◌∷◌, ◌++◌, length, drop, IfOk, OnOk};
ghost use Rattle.affine_systems.specs.Given.{Fits};
ghost use Rattle.f77_ast.specs.Plain.{expr_tree};
ghost use Rattle.f77_ast.specs.PlainStmt.{stmt_tree, stmt_trees, what_tree, loop_tree, arm_tree, arm_trees};
ghost use Rattle.affine_forms.specs.Conditions.{no_rows as no_rows_is};
ghost use Rattle.call_translation.specs.transformer_algebra.Loops.{LoopFits};
ghost use Rattle.call_translation.specs.transformer_algebra.Transformers.{AllFit};
ghost use Rattle.call_translation.specs.Scopes.{scope_tree};
ghost use Rattle.transformers.specs.Given.{CalleesFit, ResultsFit};
ghost use Rattle.transformers.specs.Jumps.{is_end};
ghost use Rattle.transformers.specs.Loops.{loop_parts as loop_parts_is};
ghost use Rattle.transformers.specs.Statement.{scope_in, callees_in, where_holds, choice, parts_do, stmt_transformer as stmt_transformer_is, what_transformer as what_transformer_is, each_transformer as each_transformer_is, arm_transformers as arm_transformers_is, arm_list_transformer as arm_list_transformer_is, inner_of_arm, without_arms, body_transformer, if_does, list_transformer as list_transformer_is, at, at_stmt, at_parts, at_list, at_arms, at_loop};
ghost use Rattle.transformers.specs.WhileParts.{arm_while, labelled_does, at_while};
ghost use Rattle.transformers.specs.Whiles.{while_does as while_does_is};

use crate::jumps::is_end;
use crate::lists::{copy_transformer, list_of, push_transformer};
use crate::loops::loop_parts;
use crate::simple::{assignment, reading};
use crate::whiles::{while_does, while_in};
use affine_forms::{condition_of, no_rows};
use affine_systems::{System, meet};
use call_translation::transformer_algebra::{
    LoopParts, Transformer, identity_transformer, iteration, loop_transformer, nowhere, one_of,
    test, then,
};
use call_translation::{CellScope, call_transformer};
use f77_ast::{Arm, At, Expr, Loop, Stmt, StmtId, Summaries, What};
use fx_lists::List;
use std::alloc::{AllocError as Memory, Global};

/// What is known around a statement: the scope of its module, and the summaries of the modules that it calls.
#[derive(Drop)]
pub struct TransformerContext<'a> {
    pub scope: &'a CellScope<'a>,
    pub callees: &'a Summaries<Transformer>,
}

/// Transformers of statements, those of the parts of a statement after its own, in the order of the text.
pub type TransformerList = List<At<Transformer>>;

/// Adds the transformer of the statement of a number.
#[tactic(auto, using(crate::proofs::Steps::fitting))]
fn push_result(found: &mut TransformerList, id: StmtId, value: Transformer) -> Result<(), Memory>
    requires results { ResultsFit found.old }
    requires value { Fits value.system }
    ensures added { OnOk result (found.new ≡ found.old ++ at id value ∷ []) }
    ensures results_fit { OnOk result (ResultsFit found.new) }
{
    found.push(At { id, value })?;
    Ok(())
}

/// The transformer of a statement, which is appended to `at`, and those of its parts after it; `last`: it is the last statement of its
/// module's body.
#[cycle(transformers)]
#[tactic(auto, using(crate::proofs::StatementLaws::part_calls))]
fn stmt_transformer(
    alloc: Global,
    known: &TransformerContext<'_>,
    s: &Stmt,
    last: bool,
    at: &mut TransformerList,
) -> Result<Transformer, Memory>
    requires callees { CalleesFit (callees_in known.now) }
    requires results { ResultsFit at.old }
    ensures defined { IfOk result (λ t. t ≡ stmt_transformer_is (stmt_tree s.now) (scope_in known.now) (callees_in known.now) last) }
    ensures fits { IfOk result (λ t. Fits t.system) }
    ensures added { IfOk result (λ _. at.new ≡ at.old ++ at_stmt (stmt_tree s.now) (scope_in known.now) (callees_in known.now) last) }
    ensures results_fit { IfOk result (λ _. ResultsFit at.new) }
{
    let place = at.len();
    push_result(at, s.id, identity_transformer(alloc))?;
    let whole = what_transformer(alloc, known, &s.what, last, at)?;
    let value = copy_transformer(alloc, &whole)?;
    at.set(place, At { id: s.id, value });
    Ok(whole)
}

#[cycle(transformers)]
#[tactic(auto, using(crate::proofs::StatementLaws::part_calls))]
fn what_transformer(
    alloc: Global,
    known: &TransformerContext<'_>,
    what: &What,
    last: bool,
    at: &mut TransformerList,
) -> Result<Transformer, Memory>
    requires callees { CalleesFit (callees_in known.now) }
    requires results { ResultsFit at.old }
    ensures defined { IfOk result (λ t. t ≡ what_transformer_is (what_tree what.now) (scope_in known.now) (callees_in known.now) last) }
    ensures fits { IfOk result (λ t. Fits t.system) }
    ensures added { IfOk result (λ _. at.new ≡ at.old ++ at_parts (what_tree what.now) (scope_in known.now) (callees_in known.now)) }
    ensures results_fit { IfOk result (λ _. ResultsFit at.new) }
{
    match what {
        What::Assign(a, b) => assignment(alloc, known.scope, a, b),
        What::If(arms, other) => {
            let tried = arm_transformers(alloc, known, arms, at)?;
            match other {
                None => choice(alloc, tried, &identity_transformer(alloc)),
                Some(body) => {
                    let does = with_list(alloc, known, body, false, at)?;
                    choice(alloc, tried, &does)
                }
            }
        }
        What::LogicalIf(e, s) => {
            let does = stmt_transformer(alloc, known, s, false, at)?;
            if_transformer(alloc, known.scope, e, &does)
        }
        What::Do(l) => loop_does(alloc, known, l, at),
        What::Call(callee, actuals) => {
            call_transformer(alloc, known.scope, known.callees.get(callee), actuals)
        }
        What::Goto(_) | What::Stop(_) => nowhere(alloc),
        What::Return => {
            if last {
                Ok(identity_transformer(alloc))
            } else {
                nowhere(alloc)
            }
        }
        What::Continue | What::Print(_) => Ok(identity_transformer(alloc)),
        What::Read(items) => reading(alloc, known.scope, items),
    }
}

/// Where a system holds, as such a transformer does.
fn where_holds(alloc: Global, system: System, does: &Transformer) -> Result<Transformer, Memory>
    requires system { Fits system }
    requires does { Fits does.now.system }
    ensures defined { IfOk result (λ t. t ≡ where_holds system does.now) }
    ensures fits { IfOk result (λ t. Fits t.system) }
{
    then(alloc, &test(alloc, system), does)
}

/// Of a logical IF whose statement has this transformer.
fn if_transformer(
    alloc: Global,
    scope: &CellScope<'_>,
    e: &Expr,
    does: &Transformer,
) -> Result<Transformer, Memory>
    requires { Fits does.now.system }
    ensures defined { IfOk result (λ t. t ≡ if_does (scope_tree scope.now.symbols.now scope.now.tracked.now) (expr_tree e.now) does.now) }
    ensures fits { IfOk result (λ t. Fits t.system) }
{
    let condition = condition_of(alloc, scope.symbols, scope.tracked, e)?;
    let before = no_rows(alloc);
    let yes = meet(alloc, &before, &condition.yes)?;
    let no = meet(alloc, &before, &condition.no)?;
    let done = where_holds(alloc, yes, does)?;
    let passed = where_holds(alloc, no, &identity_transformer(alloc))?;
    one_of(alloc, &[done, passed])
}

/// Whether the statement at a place of a list is the last one of a module's body.
fn is_last(whole: bool, list: &[Stmt], place: usize) -> bool
    requires { place < length list.now }
    ensures { result ≡ (whole && is_end (stmt_trees (drop (place + 1) list.now))) }
{
    whole && is_end(&list[place + 1..])
}

/// The transformers of the statements of a list; those and those of their parts are appended to `at`. `whole`: the list is the body of the
/// module.
#[cycle(transformers)]
#[tactic(auto, using(crate::proofs::StatementLaws::statement_calls))]
fn each_transformer(
    alloc: Global,
    known: &TransformerContext<'_>,
    list: &List<Stmt>,
    whole: bool,
    at: &mut TransformerList,
) -> Result<Vec<Transformer>, Memory>
    requires callees { CalleesFit (callees_in known.now) }
    requires results { ResultsFit at.old }
    ensures defined { IfOk result (λ ts. ts.items ≡ each_transformer_is (stmt_trees list.now) (scope_in known.now) (callees_in known.now) whole) }
    ensures fits { IfOk result (λ ts. AllFit ts.items) }
    ensures added { IfOk result (λ _. at.new ≡ at.old ++ at_list (stmt_trees list.now) (scope_in known.now) (callees_in known.now) whole) }
    ensures results_fit { IfOk result (λ _. ResultsFit at.new) }
{
    let mut all = Vec::new(alloc);
    let statements = list.as_slice();
    for (place, s) in statements.iter().enumerate() {
        let last = is_last(whole, statements, place);
        let t = stmt_transformer(alloc, known, s, last, at)?;
        push_transformer(&mut all, t)?;
    }
    Ok(all)
}

/// The transformer of a list; those of its statements and of their parts are appended to `at`. `whole`: the list is the body of the module.
/// Each list is searched for GO TOs, so a statement is visited once for each list that it is in, at any depth.
#[cycle(transformers)]
#[tactic(auto, using(crate::proofs::StatementLaws::statement_calls))]
pub fn with_list(
    alloc: Global,
    known: &TransformerContext<'_>,
    list: &List<Stmt>,
    whole: bool,
    at: &mut TransformerList,
) -> Result<Transformer, Memory>
    requires callees { CalleesFit (callees_in known.now) }
    requires results { ResultsFit at.old }
    ensures defined { IfOk result (λ t. t ≡ list_transformer_is (stmt_trees list.now) (scope_in known.now) (callees_in known.now) whole) }
    ensures fits { IfOk result (λ t. Fits t.system) }
    ensures added { IfOk result (λ _. at.new ≡ at.old ++ at_list (stmt_trees list.now) (scope_in known.now) (callees_in known.now) whole) }
    ensures results_fit { IfOk result (λ _. ResultsFit at.new) }
{
    let all = each_transformer(alloc, known, list, whole, at)?;
    list_of(alloc, list, whole, all.as_slice())
}

/// Of the labelled block IF of a DO WHILE, from the transformers of its statements, with the GO TO.
fn labelled_transformer(
    alloc: Global,
    scope: &CellScope<'_>,
    arm: &Arm,
    all: &[Transformer],
) -> Result<Transformer, Memory>
    requires { AllFit all.now }
    ensures defined { IfOk result (λ t. t ≡ labelled_does (scope_tree scope.now.symbols.now scope.now.tracked.now) (arm_while (arm_tree arm.now)) all.now) }
    ensures fits { IfOk result (λ t. Fits t.system) }
{
    let does = list_of(alloc, &arm.body, false, all)?;
    if_transformer(alloc, scope, &arm.test, &does)
}

/// The transformer of the list of a DO WHILE, of which these are the number and the arm of the labelled block IF.
#[cycle(transformers)]
#[tactic(auto, using(crate::proofs::StatementLaws::part_calls))]
fn while_transformer(
    alloc: Global,
    known: &TransformerContext<'_>,
    id: StmtId,
    arm: &Arm,
    at: &mut TransformerList,
) -> Result<Transformer, Memory>
    requires callees { CalleesFit (callees_in known.now) }
    requires results { ResultsFit at.old }
    ensures defined { IfOk result (λ t. t ≡ while_does_is (scope_in known.now) (arm_while (arm_tree arm.now)) (inner_of_arm (arm_tree arm.now) (scope_in known.now) (callees_in known.now))) }
    ensures fits { IfOk result (λ t. Fits t.system) }
    ensures added { IfOk result (λ _. at.new ≡ at.old ++ at_while id (arm_tree arm.now) (scope_in known.now) (callees_in known.now)) }
    ensures results_fit { IfOk result (λ _. ResultsFit at.new) }
{
    let place = at.len();
    push_result(at, id, identity_transformer(alloc))?;
    let all = each_transformer(alloc, known, &arm.body, false, at)?;
    let value = labelled_transformer(alloc, known.scope, arm, all.as_slice())?;
    let whole = while_does(alloc, known.scope, arm, all.as_slice())?;
    at.set(place, At { id, value });
    Ok(whole)
}

/// The transformer of the statements of an arm; those of the statements and of their parts are appended to `at`.
#[cycle(transformers)]
#[tactic(auto, using(crate::proofs::StatementLaws::part_calls))]
fn arm_list_transformer(
    alloc: Global,
    known: &TransformerContext<'_>,
    list: &List<Stmt>,
    at: &mut TransformerList,
) -> Result<Transformer, Memory>
    requires callees { CalleesFit (callees_in known.now) }
    requires results { ResultsFit at.old }
    ensures defined { IfOk result (λ t. t ≡ arm_list_transformer_is (stmt_trees list.now) (scope_in known.now) (callees_in known.now)) }
    ensures fits { IfOk result (λ t. Fits t.system) }
    ensures added { IfOk result (λ _. at.new ≡ at.old ++ at_list (stmt_trees list.now) (scope_in known.now) (callees_in known.now) false) }
    ensures results_fit { IfOk result (λ _. ResultsFit at.new) }
{
    match while_in(list) {
        None => with_list(alloc, known, list, false, at),
        Some(w) => while_transformer(alloc, known, w.id, w.arm, at),
    }
}

/// Transformers of arms, and what holds where their tests are false.
#[derive(Drop)]
struct Tried {
    all: Vec<Transformer>,
    before: System,
}

/// Of the arms of a block IF, each with the tests above it false.
#[cycle(transformers)]
#[tactic(auto, using(crate::proofs::StatementLaws::arm_calls))]
fn arm_transformers(
    alloc: Global,
    known: &TransformerContext<'_>,
    arms: &List<Arm>,
    at: &mut TransformerList,
) -> Result<Tried, Memory>
    requires callees { CalleesFit (callees_in known.now) }
    requires results { ResultsFit at.old }
    ensures defined { IfOk result (λ r. r.all.items ≡ arm_transformers_is (arm_trees arms.now) (scope_in known.now) (callees_in known.now) no_rows_is) }
    ensures before { IfOk result (λ r. r.before ≡ without_arms (arm_trees arms.now) (scope_in known.now) no_rows_is) }
    ensures fits { IfOk result (λ r. AllFit r.all.items × Fits r.before) }
    ensures added { IfOk result (λ _. at.new ≡ at.old ++ at_arms (arm_trees arms.now) (scope_in known.now) (callees_in known.now)) }
    ensures results_fit { IfOk result (λ _. ResultsFit at.new) }
{
    let scope = known.scope;
    let mut all = Vec::new(alloc);
    let mut before = no_rows(alloc);
    for arm in arms.as_slice() {
        let condition = condition_of(alloc, scope.symbols, scope.tracked, &arm.test)?;
        let body = arm_list_transformer(alloc, known, &arm.body, at)?;
        let yes = meet(alloc, &before, &condition.yes)?;
        let t = where_holds(alloc, yes, &body)?;
        push_transformer(&mut all, t)?;
        before = meet(alloc, &before, &condition.no)?;
    }
    Ok(Tried { all, before })
}

/// Of a block IF whose arms have these, and under whose ELSE, or without one, this is done.
fn choice(alloc: Global, tried: Tried, other: &Transformer) -> Result<Transformer, Memory>
    requires arms { AllFit tried.all.items × Fits tried.before }
    requires other { Fits other.now.system }
    ensures defined { IfOk result (λ t. t ≡ choice tried.all.items tried.before other.now) }
    ensures fits { IfOk result (λ t. Fits t.system) }
{
    let Tried { mut all, before } = tried;
    let t = where_holds(alloc, before, other)?;
    push_transformer(&mut all, t)?;
    one_of(alloc, all.as_slice())
}

/// Of a DO with these parts.
fn parts_do(alloc: Global, l: &LoopParts) -> Result<Transformer, Memory>
    requires { LoopFits l.now }
    ensures defined { IfOk result (λ t. t ≡ parts_do l.now) }
    ensures fits { IfOk result (λ t. Fits t.system) }
{
    let once = iteration(alloc, l)?;
    loop_transformer(alloc, l, &once)
}

/// Of a DO.
#[cycle(transformers)]
#[tactic(auto, using(crate::proofs::StatementLaws::body_calls))]
fn loop_does(
    alloc: Global,
    known: &TransformerContext<'_>,
    l: &Loop,
    at: &mut TransformerList,
) -> Result<Transformer, Memory>
    requires callees { CalleesFit (callees_in known.now) }
    requires results { ResultsFit at.old }
    ensures defined { IfOk result (λ t. t ≡ parts_do (loop_parts_is (scope_in known.now) (loop_tree l.now) (body_transformer (loop_tree l.now) (scope_in known.now) (callees_in known.now)))) }
    ensures fits { IfOk result (λ t. Fits t.system) }
    ensures added { IfOk result (λ _. at.new ≡ at.old ++ at_loop (loop_tree l.now) (scope_in known.now) (callees_in known.now)) }
    ensures results_fit { IfOk result (λ _. ResultsFit at.new) }
{
    let body = with_list(alloc, known, &l.body, false, at)?;
    let parts = loop_parts(alloc, known.scope, l, body)?;
    parts_do(alloc, &parts)
}
