//! The effects of statements with their parts and with what they call.
ghost use Rattle.std.specs.Prelude.{◌≡◌, ◌++◌, map, IfOk};
ghost use Rattle.f77_ast.specs.PlainStmt.{stmt_tree, stmt_trees, what_tree, loop_tree, arm_trees};
ghost use Rattle.f77_ast.specs.Symbols.{symbol_tree};
ghost use Rattle.f77_ast.specs.Summaries.{summary_in};
ghost use Rattle.effects.specs.List.{stmt_effect, with_parts, with_list, with_arms, with_loop, at_stmt, at_parts, at_list, at_arms, at_loop};

use crate::callee::call_effect;
use crate::statement::proper_of;
use f77_ast::{Arm, At, EffectSet, Loop, Stmt, Summaries, Symbols, What, copy_effect, unite};
use fx_lists::List;
use std::alloc::{AllocError as Memory, Global};

/// The effects of a statement. They are added to those at each statement, and those of its parts after them.
#[cycle(effects)]
#[tactic(auto, using(crate::proofs::ListLaws::part_calls))]
fn stmt_effect(
    alloc: Global,
    symbols: &Symbols,
    callees: &Summaries<EffectSet>,
    s: &Stmt,
    at: &mut List<At<EffectSet>>,
) -> Result<EffectSet, Memory>
    ensures defined { IfOk result (λ e. e ≡ stmt_effect (stmt_tree s.now) (summary_in callees.now) (map symbol_tree symbols.now)) }
    ensures added { IfOk result (λ _. at.new ≡ at.old ++ at_stmt (stmt_tree s.now) (summary_in callees.now) (map symbol_tree symbols.now)) }
{
    let place = at.len();
    let own = proper_of(alloc, symbols, &s.what)?;
    at.push(At {
        id: s.id,
        value: EffectSet::none(alloc),
    })?;
    let all = with_parts(alloc, symbols, callees, &s.what, own, at)?;
    let value = copy_effect(alloc, &all)?;
    at.set(place, At { id: s.id, value });
    Ok(all)
}

/// Those so far, and those of the parts of a statement or of what it calls.
#[cycle(effects)]
#[tactic(auto, using(crate::proofs::ListLaws::part_calls))]
fn with_parts(
    alloc: Global,
    symbols: &Symbols,
    callees: &Summaries<EffectSet>,
    what: &What,
    so_far: EffectSet,
    at: &mut List<At<EffectSet>>,
) -> Result<EffectSet, Memory>
    ensures defined { IfOk result (λ e. e ≡ with_parts (what_tree what.now) (summary_in callees.now) (map symbol_tree symbols.now) so_far) }
    ensures added { IfOk result (λ _. at.new ≡ at.old ++ at_parts (what_tree what.now) (summary_in callees.now) (map symbol_tree symbols.now)) }
{
    match what {
        What::If(arms, other) => {
            let all = with_arms(alloc, symbols, callees, arms, so_far, at)?;
            match other {
                None => Ok(all),
                Some(body) => with_list(alloc, symbols, callees, body, all, at),
            }
        }
        What::LogicalIf(_, s) => {
            let inner = stmt_effect(alloc, symbols, callees, s, at)?;
            unite(alloc, &so_far, &inner)
        }
        What::Do(l) => with_loop(alloc, symbols, callees, l, so_far, at),
        What::Call(callee, actuals) => {
            let called = call_effect(alloc, symbols, callees, callee, actuals)?;
            unite(alloc, &so_far, &called)
        }
        What::Assign(..)
        | What::Goto(_)
        | What::Continue
        | What::Return
        | What::Stop(_)
        | What::Print(_)
        | What::Read(_) => Ok(so_far),
    }
}

/// The effects so far, united with those of statements, of the statements in them, and of what they call. Adds the effects of
/// each of all these statements to `at`, in the order of the text.
#[cycle(effects)]
#[tactic(auto, using(crate::proofs::ListLaws::statement_calls))]
pub fn with_list(
    alloc: Global,
    symbols: &Symbols,
    callees: &Summaries<EffectSet>,
    list: &List<Stmt>,
    so_far: EffectSet,
    at: &mut List<At<EffectSet>>,
) -> Result<EffectSet, Memory>
    ensures defined { IfOk result (λ e. e ≡ with_list (stmt_trees list.now) (summary_in callees.now) (map symbol_tree symbols.now) so_far) }
    ensures added { IfOk result (λ _. at.new ≡ at.old ++ at_list (stmt_trees list.now) (summary_in callees.now) (map symbol_tree symbols.now)) }
{
    let mut all = so_far;
    for s in list.as_slice() {
        let one = stmt_effect(alloc, symbols, callees, s, at)?;
        all = unite(alloc, &all, &one)?;
    }
    Ok(all)
}

/// Those so far, and those of the body of a DO.
#[cycle(effects)]
#[tactic(auto, using(crate::proofs::ListLaws::body_calls))]
fn with_loop(
    alloc: Global,
    symbols: &Symbols,
    callees: &Summaries<EffectSet>,
    l: &Loop,
    so_far: EffectSet,
    at: &mut List<At<EffectSet>>,
) -> Result<EffectSet, Memory>
    ensures defined { IfOk result (λ e. e ≡ with_loop (loop_tree l.now) (summary_in callees.now) (map symbol_tree symbols.now) so_far) }
    ensures added { IfOk result (λ _. at.new ≡ at.old ++ at_loop (loop_tree l.now) (summary_in callees.now) (map symbol_tree symbols.now)) }
{
    with_list(alloc, symbols, callees, &l.body, so_far, at)
}

/// Those so far, and those of the parts of a block IF.
#[cycle(effects)]
#[tactic(auto, using(crate::proofs::ListLaws::arm_calls))]
fn with_arms(
    alloc: Global,
    symbols: &Symbols,
    callees: &Summaries<EffectSet>,
    arms: &List<Arm>,
    so_far: EffectSet,
    at: &mut List<At<EffectSet>>,
) -> Result<EffectSet, Memory>
    ensures defined { IfOk result (λ e. e ≡ with_arms (arm_trees arms.now) (summary_in callees.now) (map symbol_tree symbols.now) so_far) }
    ensures added { IfOk result (λ _. at.new ≡ at.old ++ at_arms (arm_trees arms.now) (summary_in callees.now) (map symbol_tree symbols.now)) }
{
    let mut all = so_far;
    for arm in arms.as_slice() {
        all = with_list(alloc, symbols, callees, &arm.body, all, at)?;
    }
    Ok(all)
}
