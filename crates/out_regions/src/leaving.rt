//! Lists that may be left before their end.
ghost use Rattle.std.specs.Prelude.{◌≡◌, ◌++◌, true, if◌then◌else◌, IfOk, OnOk};
ghost use Rattle.f77_ast.specs.PlainStmt.{stmt_tree, stmt_trees, what_tree, arm_trees, loop_tree};
ghost use Rattle.in_out_regions.specs.transformers.Jumps.{stmt_has as stmt_has_is, returns_early as returns_early_is};
ghost use Rattle.out_regions.specs.Leaving.{stmt_labels, what_labels, list_labels, arms_labels, loop_labels, returns as returns_is, leaves as leaves_is, stmt_leaves as stmt_leaves_is};
ghost use Rattle.f77_ast.specs.Shapes.{is_return as is_return_is};

use f77_ast::{Arm, Loop, Stmt, What};
use fx_lists::List;
use in_out_regions::transformers::{Sought, any_has, early_return, returns_early, stmt_has};
use std::alloc::{AllocError as Memory, Global};

/// Whether a RETURN may end the list.
fn returns(whole: bool, list: &[Stmt]) -> bool
    ensures { result ≡ returns_is whole (stmt_trees list.now) }
{
    if whole {
        early_return(list)
    } else {
        any_has(&Sought::Return, list)
    }
}

/// Adds the labels of a statement and its parts.
#[cycle(labels)]
#[tactic(auto, using(crate::proofs::Steps::part_calls))]
fn push_stmt_labels(out: &mut Vec<u32>, s: &Stmt) -> Result<(), Memory>
    ensures { OnOk result (out.new.items ≡ out.old.items ++ stmt_labels (stmt_tree s.now)) }
{
    match s.label {
        None => push_what_labels(out, &s.what),
        Some(label) => {
            out.push(label)?;
            push_what_labels(out, &s.what)
        }
    }
}

#[cycle(labels)]
#[tactic(auto, using(crate::proofs::Steps::part_calls))]
fn push_what_labels(out: &mut Vec<u32>, what: &What) -> Result<(), Memory>
    ensures { OnOk result (out.new.items ≡ out.old.items ++ what_labels (what_tree what.now)) }
{
    match what {
        What::If(arms, other) => {
            push_arm_labels(out, arms)?;
            match other {
                None => Ok(()),
                Some(body) => push_labels(out, body),
            }
        }
        What::LogicalIf(_, s) => push_stmt_labels(out, s),
        What::Do(l) => push_loop_labels(out, l),
        What::Assign(..)
        | What::Call(..)
        | What::Goto(_)
        | What::Continue
        | What::Return
        | What::Stop(_)
        | What::Print(_)
        | What::Read(_) => Ok(()),
    }
}

#[cycle(labels)]
#[tactic(auto, using(crate::proofs::Steps::body_calls))]
fn push_loop_labels(out: &mut Vec<u32>, l: &Loop) -> Result<(), Memory>
    ensures { OnOk result (out.new.items ≡ out.old.items ++ loop_labels (loop_tree l.now)) }
{
    push_labels(out, &l.body)
}

/// Adds the labels of the statements of a list and of their parts.
#[cycle(labels)]
#[tactic(auto, using(crate::proofs::Steps::statement_calls))]
fn push_labels(out: &mut Vec<u32>, list: &List<Stmt>) -> Result<(), Memory>
    ensures { OnOk result (out.new.items ≡ out.old.items ++ list_labels (stmt_trees list.now)) }
{
    for s in list.as_slice() {
        push_stmt_labels(out, s)?;
    }
    Ok(())
}

#[cycle(labels)]
#[tactic(auto, using(crate::proofs::Steps::arm_calls))]
fn push_arm_labels(out: &mut Vec<u32>, arms: &List<Arm>) -> Result<(), Memory>
    ensures { OnOk result (out.new.items ≡ out.old.items ++ arms_labels (arm_trees arms.now)) }
{
    for arm in arms.as_slice() {
        push_labels(out, &arm.body)?;
    }
    Ok(())
}

/// The labels of these statements and of their parts.
#[tactic(auto, using(crate::proofs::Fitting::fitting))]
fn labels_in(alloc: Global, list: &[Stmt]) -> Result<Vec<u32>, Memory>
    ensures { IfOk result (λ ls. ls.items ≡ list_labels (stmt_trees list.now)) }
{
    let mut labels = Vec::new(alloc);
    let mut rest = list;
    while let [s, more @ ..] = rest {
        push_stmt_labels(&mut labels, s)?;
        rest = more;
    }
    Ok(labels)
}

/// Whether a GO TO leads out of a list, or a RETURN ends it that is not the last statement of the body of its module; `whole`: the list is the end of
/// that body. Each statement and each part is looked at twice, and for each GO TO the labels.
pub fn leaves(alloc: Global, whole: bool, list: &[Stmt]) -> Result<bool, Memory>
    ensures { IfOk result (λ b. b ≡ leaves_is whole (stmt_trees list.now)) }
{
    let labels = labels_in(alloc, list)?;
    let beyond = Sought::Beyond(labels.as_slice());
    Ok(any_has(&beyond, list) || returns(whole, list))
}

/// Whether a RETURN may end a list of one statement.
fn stmt_returns(whole: bool, s: &Stmt) -> bool
    ensures { result ≡ (if whole then returns_early_is true (stmt_tree s.now) else stmt_has_is is_return_is (stmt_tree s.now)) }
{
    if whole {
        returns_early(true, s)
    } else {
        stmt_has(&Sought::Return, s)
    }
}

/// The same of a list of one statement.
pub fn stmt_leaves(alloc: Global, whole: bool, s: &Stmt) -> Result<bool, Memory>
    ensures { IfOk result (λ b. b ≡ stmt_leaves_is whole (stmt_tree s.now)) }
{
    let mut labels = Vec::new(alloc);
    push_stmt_labels(&mut labels, s)?;
    let beyond = Sought::Beyond(labels.as_slice());
    Ok(stmt_has(&beyond, s) || stmt_returns(whole, s))
}
