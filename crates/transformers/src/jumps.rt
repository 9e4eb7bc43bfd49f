//! Lists of statements that do not run from the first to the last.
ghost use Rattle.std.specs.Prelude.{◌≡◌, IfOk};
ghost use Rattle.f77_ast.specs.PlainStmt.{stmt_tree, stmt_trees, what_tree, arm_trees};
ghost use Rattle.transformers.specs.Jumps.{such_of, goes_to, goes_beyond, is_end, stmt_has, parts_have, list_has, arms_have, labels as labels_is, returns_early, early_return, unstructured};
ghost use Rattle.f77_ast.specs.Shapes.{is_return};

use call_translation::transformer_algebra::has;
use f77_ast::{Arm, Shape, Stmt, What, is_return, shape_of};
use fx_lists::List;
use std::alloc::{AllocError as Memory, Global};

/// The statements that are looked for.
#[derive(Drop)]
pub enum Sought<'a> {
    /// A GO TO one of these labels (ANSI X3.9-1978 §11.1).
    Jump(&'a [u32]),
    /// A GO TO none of these labels.
    Beyond(&'a [u32]),
    /// A RETURN (§15.8).
    Return,
}

#[tactic(auto, using(f77_ast::proofs::PlainlyStmt::what_cases))]
fn goes(labels: &[u32], what: &What) -> bool
    ensures { result ≡ goes_to labels.now (what_tree what.now) }
{
    match what {
        What::Goto(label) => has(labels, *label),
        What::Assign(..)
        | What::If(..)
        | What::LogicalIf(..)
        | What::Do(_)
        | What::Call(..)
        | What::Continue
        | What::Return
        | What::Stop(_)
        | What::Print(_)
        | What::Read(_) => false,
    }
}

#[tactic(auto, using(f77_ast::proofs::PlainlyStmt::what_cases))]
fn goes_beyond(labels: &[u32], what: &What) -> bool
    ensures { result ≡ goes_beyond labels.now (what_tree what.now) }
{
    match what {
        What::Goto(label) => !has(labels, *label),
        What::Assign(..)
        | What::If(..)
        | What::LogicalIf(..)
        | What::Do(_)
        | What::Call(..)
        | What::Continue
        | What::Return
        | What::Stop(_)
        | What::Print(_)
        | What::Read(_) => false,
    }
}

/// Whether a statement is what is looked for.
pub fn is_sought(sought: &Sought<'_>, what: &What) -> bool
    ensures { result ≡ such_of sought.now (what_tree what.now) }
{
    match sought {
        Sought::Jump(labels) => goes(labels, what),
        Sought::Beyond(labels) => goes_beyond(labels, what),
        Sought::Return => is_return(what),
    }
}

/// Whether a part of a statement is what is looked for.
#[cycle(parts)]
#[tactic(auto, using(crate::proofs::PartLaws::part_calls))]
fn parts_have(sought: &Sought<'_>, what: &What) -> bool
    ensures { result ≡ parts_have (such_of sought.now) (what_tree what.now) }
{
    match shape_of(what) {
        Shape::Leaf => false,
        Shape::Inner(_, s) => stmt_has(sought, s),
        Shape::Body(l) => list_has(sought, &l.body),
        Shape::Arms(arms, other) => match other {
            None => arms_have(sought, arms),
            Some(body) => arms_have(sought, arms) || list_has(sought, body),
        },
    }
}

/// Whether a statement, or one that is a part of it, is what is looked for.
#[cycle(parts)]
#[tactic(auto, using(crate::proofs::PartLaws::part_calls))]
pub fn stmt_has(sought: &Sought<'_>, s: &Stmt) -> bool
    ensures { result ≡ stmt_has (such_of sought.now) (stmt_tree s.now) }
{
    is_sought(sought, &s.what) || parts_have(sought, &s.what)
}

#[cycle(parts)]
#[tactic(auto, using(f77_ast::proofs::PlainlyStmt::list_calls))]
fn list_has(sought: &Sought<'_>, list: &List<Stmt>) -> bool
    ensures { result ≡ list_has (such_of sought.now) (stmt_trees list.now) }
{
    for s in list.as_slice() {
        if stmt_has(sought, s) {
            return true;
        }
    }
    false
}

#[cycle(parts)]
#[tactic(auto, using(f77_ast::proofs::PlainlyStmt::arm_calls))]
fn arms_have(sought: &Sought<'_>, arms: &List<Arm>) -> bool
    ensures { result ≡ arms_have (such_of sought.now) (arm_trees arms.now) }
{
    for arm in arms.as_slice() {
        if list_has(sought, &arm.body) {
            return true;
        }
    }
    false
}

/// Whether a statement among these, or a part of one, is what is looked for. Looks at each statement once.
pub fn any_has(sought: &Sought<'_>, list: &[Stmt]) -> bool
    ensures { result ≡ list_has (such_of sought.now) (stmt_trees list.now) }
{
    let mut rest = list;
    while let [s, more @ ..] = rest {
        if stmt_has(sought, s) {
            return true;
        }
        rest = more;
    }
    false
}

/// Whether a list has no statements.
pub fn is_end(list: &[Stmt]) -> bool
    ensures { result ≡ is_end (stmt_trees list.now) }
{
    match list {
        [] => true,
        [_, ..] => false,
    }
}

/// Whether a RETURN is a part of a statement, or the statement is one and not the last of its list (`last`).
pub fn returns_early(last: bool, s: &Stmt) -> bool
    ensures { result ≡ returns_early last (stmt_tree s.now) }
{
    parts_have(&Sought::Return, &s.what) || (is_return(&s.what) && !last)
}

/// Whether there is a RETURN that is not the last of these statements.
pub fn early_return(list: &[Stmt]) -> bool
    ensures { result ≡ early_return (stmt_trees list.now) }
{
    let mut rest = list;
    while let [s, more @ ..] = rest {
        if returns_early(is_end(more), s) {
            return true;
        }
        rest = more;
    }
    false
}

/// The labels of the statements directly in a list.
#[tactic(auto, using(crate::proofs::Steps::lists))]
fn labels_in(alloc: Global, list: &[Stmt]) -> Result<Vec<u32>, Memory>
    ensures { IfOk result (λ ls. ls.items ≡ labels_is (stmt_trees list.now)) }
{
    let mut labels = Vec::new(alloc);
    let mut rest = list;
    while let [s, more @ ..] = rest {
        if let Some(label) = s.label {
            labels.push(label)?;
        }
        rest = more;
    }
    Ok(labels)
}

/// Whether the control flow of a list is unstructured: a GO TO in it, at any depth, leads to a statement directly in it (ANSI X3.9-1978,
/// §11.1), or `whole` (the list is the body of a module) and a RETURN in it, at any depth, is not its last statement. Linear in the
/// statements, and for each GO TO in the labels.
pub fn is_unstructured(alloc: Global, list: &List<Stmt>, whole: bool) -> Result<bool, Memory>
    ensures { IfOk result (λ b. b ≡ unstructured whole (stmt_trees list.now)) }
{
    let labels = labels_in(alloc, list.as_slice())?;
    let jump = Sought::Jump(labels.as_slice());
    Ok(list_has(&jump, list) || (whole && early_return(list.as_slice())))
}
