//! The list of a DO WHILE, and what it does.
ghost use Rattle.std.specs.Prelude.{◌≡◌, ◌&&◌, [], ◌∷◌, option_map, IfOk, IfSome};
ghost use Rattle.affine_systems.specs.Given.{Fits};
ghost use Rattle.f77_ast.specs.PlainStmt.{arm_tree, arm_trees, else_tree, stmt_tree, stmt_trees, what_tree};
ghost use Rattle.f77_ast.specs.declared.stmt.What.TheVariants.{If};
ghost use Rattle.f77_ast.specs.Hidden.{is_hidden as is_hidden_is};
ghost use Rattle.call_translation.specs.transformer_algebra.Transformers.{AllFit};
ghost use Rattle.call_translation.specs.Scopes.{scope_tree};
ghost use Rattle.transformers.specs.Jumps.{such_of};
ghost use Rattle.transformers.specs.Whiles.{only_last as only_last_is, goes_back as goes_back_is, only_arm as only_arm_is, only_arm_in as only_arm_in_is, while_at as while_at_is, while_in as while_in_is, all_before_last as all_before_last_is, while_body as while_body_is, while_iteration as while_iteration_is, while_does as while_does_is};
ghost use Rattle.transformers.specs.WhileParts.{while_tree, arm_while, IsStatement, IsOnly};

use crate::jumps::{Sought, is_end, is_sought, is_unstructured, stmt_has};
use crate::lists::{in_any_order, in_order};
use affine_forms::condition_of;
use call_translation::CellScope;
use call_translation::transformer_algebra::{Transformer, iterate, test, then};
use f77_ast::{Arm, Stmt, StmtId, What};
use fx_lists::List;
use std::alloc::{AllocError as Memory, Global};

/// The highest number of a statement of the text (f77_ast, specs/Hidden).
const LAST_VISIBLE: StmtId = 4096;

/// The labelled block IF of a DO WHILE: its number, and its only arm, which has the test and the statements of the DO WHILE, with the
/// GO TO.
#[derive(Clone, Copy)]
pub struct While<'a> {
    pub id: StmtId,
    pub arm: &'a Arm,
}

fn is_hidden(id: StmtId) -> bool
    ensures { result ≡ is_hidden_is id }
{
    id > LAST_VISIBLE
}

/// Whether the last statement of a list, and no other one or part of it, is what is looked for. Looks at each statement once.
fn only_last(sought: &Sought<'_>, list: &[Stmt]) -> bool
    ensures { result ≡ only_last_is (such_of sought.now) (stmt_trees list.now) }
{
    let mut rest = list;
    while let [s, more @ ..] = rest {
        if is_end(more) {
            return is_sought(sought, &s.what);
        }
        if stmt_has(sought, s) {
            return false;
        }
        rest = more;
    }
    false
}

/// Whether a list ends with a GO TO a label and has no other GO TO it, at any depth.
fn goes_back(label: u32, list: &[Stmt]) -> bool
    ensures { result ≡ goes_back_is label (stmt_trees list.now) }
{
    let labels = [label];
    only_last(&Sought::Jump(&labels), list)
}

/// The only arm of a block IF without ELSE.
fn only_arm<'a>(arms: &'a List<Arm>, other: &Option<List<Stmt>>) -> Option<&'a Arm>
    ensures defined { option_map (λ a. arm_tree a.now) result ≡ only_arm_is (arm_trees arms.now) (else_tree other.now) }
    ensures within { IfSome result (λ a. (arms.now ≡ a.now ∷ []) × (other.now ≡ None)) }
{
    if other.is_some() {
        return None;
    }
    let list = arms.as_slice();
    if list.len() != 1 {
        return None;
    }
    Some(&list[0])
}

#[tactic(auto, using(f77_ast::proofs::PlainlyStmt::what_cases))]
fn only_arm_in(what: &What) -> Option<&Arm>
    ensures defined { option_map (λ a. arm_tree a.now) result ≡ only_arm_in_is (what_tree what.now) }
    ensures within { IfSome result (λ a. what.now ≡ If (a.now ∷ []) None) }
{
    match what {
        What::If(arms, other) => only_arm(arms, other),
        What::Assign(..)
        | What::LogicalIf(..)
        | What::Do(_)
        | What::Call(..)
        | What::Goto(_)
        | What::Continue
        | What::Return
        | What::Stop(_)
        | What::Print(_)
        | What::Read(_) => None,
    }
}

/// Whether a block IF with this number, label and only arm is the labelled one of a DO WHILE.
#[tactic(auto, using(f77_ast::proofs::PlainlyStmt::read_structs))]
fn is_labelled(id: StmtId, label: u32, arm: &Arm) -> bool
    ensures { result ≡ (is_hidden_is id && goes_back_is label (arm_while (arm_tree arm.now)).body) }
{
    is_hidden(id) && goes_back(label, arm.body.as_slice())
}

/// The labelled block IF of a DO WHILE, where a statement is one.
fn while_at(s: &Stmt) -> Option<While<'_>>
    ensures defined { option_map while_tree result ≡ while_at_is (stmt_tree s.now) }
    ensures within { IfSome result (λ w. IsStatement w s.now) }
{
    let label = match s.label {
        None => return None,
        Some(label) => label,
    };
    match only_arm_in(&s.what) {
        None => None,
        Some(arm) => {
            if is_labelled(s.id, label, arm) {
                Some(While { id: s.id, arm })
            } else {
                None
            }
        }
    }
}

/// The labelled block IF of a DO WHILE, where it is the only statement of a list.
pub fn while_in(list: &List<Stmt>) -> Option<While<'_>>
    ensures defined { option_map while_tree result ≡ while_in_is (stmt_trees list.now) }
    ensures within { IfSome result (λ w. IsOnly w list.now) }
{
    let list = list.as_slice();
    if list.len() != 1 {
        return None;
    }
    while_at(&list[0])
}

/// All but the last.
#[tactic(auto, using(crate::proofs::WhileSteps::all_before_last_taken))]
fn all_before_last(all: &[Transformer]) -> &[Transformer]
    ensures { result.now ≡ all_before_last_is all.now }
{
    match all {
        [] => all,
        [front @ .., _] => front,
    }
}

#[tactic(auto, using(crate::proofs::WhileSteps::fits_before_last))]
/// What the statements of a DO WHILE do, from the transformers of those and of the GO TO after them.
fn while_body(alloc: Global, body: &List<Stmt>, all: &[Transformer]) -> Result<Transformer, Memory>
    requires { AllFit all.now }
    ensures defined { IfOk result (λ t. t ≡ while_body_is (stmt_trees body.now) all.now) }
    ensures fits { IfOk result (λ t. Fits t.system) }
{
    if is_unstructured(alloc, body, false)? {
        in_any_order(alloc, all)
    } else {
        in_order(alloc, all_before_last(all))
    }
}

/// One iteration of a DO WHILE: its test is true, and its statements are executed; `all`: the transformers of those and of the GO TO
/// after them.
pub fn while_iteration(
    alloc: Global,
    scope: &CellScope<'_>,
    arm: &Arm,
    all: &[Transformer],
) -> Result<Transformer, Memory>
    requires { AllFit all.now }
    ensures defined { IfOk result (λ t. t ≡ while_iteration_is (scope_tree scope.now.symbols.now scope.now.tracked.now) (arm_while (arm_tree arm.now)) all.now) }
    ensures fits { IfOk result (λ t. Fits t.system) }
{
    let condition = condition_of(alloc, scope.symbols, scope.tracked, &arm.test)?;
    let body = while_body(alloc, &arm.body, all)?;
    then(alloc, &test(alloc, condition.yes), &body)
}

/// What a DO WHILE does: any number of iterations, after which its test is false.
pub fn while_does(
    alloc: Global,
    scope: &CellScope<'_>,
    arm: &Arm,
    all: &[Transformer],
) -> Result<Transformer, Memory>
    requires { AllFit all.now }
    ensures defined { IfOk result (λ t. t ≡ while_does_is (scope_tree scope.now.symbols.now scope.now.tracked.now) (arm_while (arm_tree arm.now)) all.now) }
    ensures fits { IfOk result (λ t. Fits t.system) }
{
    let once = while_iteration(alloc, scope, arm, all)?;
    let any = iterate(alloc, &once)?;
    let condition = condition_of(alloc, scope.symbols, scope.tracked, &arm.test)?;
    then(alloc, &any, &test(alloc, condition.no))
}
