//! Control that leaves the body of a DO, and input and output.
ghost use Rattle.std.specs.Prelude.{◌≡◌, IfOk};
ghost use Rattle.f77_ast.specs.PlainStmt.{stmt_trees, loop_tree};
ghost use Rattle.transformers.specs.Lists.{value_at as value_at_is};
ghost use Rattle.loop_marker.specs.Jumps.{is_jumped_to as is_jumped_to_is, stops as stops_is, has_io as has_io_is, may_stop as may_stop_is, may_have_io as may_have_io_is, may_jump as may_jump_is, body_of};

use f77_ast::{At, EffectSet, Loop, Stmt, StmtId};
use fx_lists::List;
use out_regions::leaves;
use std::alloc::{AllocError as Memory, Global};
use transformers::{Sought, any_has, value_at};

fn is_jumped_to(whole: &List<Stmt>, label: Option<u32>) -> bool
    ensures { result ≡ is_jumped_to_is (stmt_trees whole.now) label }
{
    match label {
        None => false,
        Some(label) => any_has(&Sought::Jump(&[label]), whole.as_slice()),
    }
}

fn stops(effects: &List<At<EffectSet>>, id: StmtId) -> bool
    ensures { result ≡ stops_is (value_at_is effects.now id) }
{
    match value_at(effects, id) {
        None => false,
        Some(effect) => effect.stops,
    }
}

fn has_io(effects: &List<At<EffectSet>>, id: StmtId) -> bool
    ensures { result ≡ has_io_is (value_at_is effects.now id) }
{
    match value_at(effects, id) {
        None => false,
        Some(effect) => effect.io,
    }
}

/// Whether a statement of a list may end the run by STOP, by what it calls too (ANSI X3.9-1978, §11.12).
#[tactic(auto, using(crate::proofs::Steps::lists))]
fn may_stop(effects: &List<At<EffectSet>>, list: &[Stmt]) -> bool
    ensures { result ≡ may_stop_is effects.now (stmt_trees list.now) }
{
    let mut rest = list;
    while let [s, more @ ..] = rest {
        if stops(effects, s.id) {
            return true;
        }
        rest = more;
    }
    false
}

/// Whether a statement of a list may read input or print, by what it calls too (§12).
#[tactic(auto, using(crate::proofs::Steps::lists))]
fn any_has_io(effects: &List<At<EffectSet>>, list: &[Stmt]) -> bool
    ensures { result ≡ may_have_io_is effects.now (stmt_trees list.now) }
{
    let mut rest = list;
    while let [s, more @ ..] = rest {
        if has_io(effects, s.id) {
            return true;
        }
        rest = more;
    }
    false
}

/// Whether the body of a DO may read input or print.
#[tactic(auto, using(crate::proofs::Steps::loops))]
pub fn may_have_io(effects: &List<At<EffectSet>>, l: &Loop) -> bool
    ensures { result ≡ may_have_io_is effects.now (body_of (loop_tree l.now)) }
{
    any_has_io(effects, l.body.as_slice())
}

/// Whether a GO TO of the module with this body leads to the DO, or control may leave the body of the DO by GO TO, RETURN or STOP.
#[tactic(auto, using(crate::proofs::Steps::loops))]
pub fn may_jump(
    alloc: Global,
    whole: &List<Stmt>,
    effects: &List<At<EffectSet>>,
    label: Option<u32>,
    l: &Loop,
) -> Result<bool, Memory>
    ensures { IfOk result (λ b. b ≡ may_jump_is (stmt_trees whole.now) effects.now label (loop_tree l.now)) }
{
    if is_jumped_to(whole, label) {
        return Ok(true);
    }
    Ok(leaves(alloc, false, l.body.as_slice())? || may_stop(effects, l.body.as_slice()))
}
