//! An assignment of the value of a function, `V = F(A)`, which the tree has as a block IF.
ghost use Rattle.std.specs.Prelude.{◌≡◌, option_copied, option_map};
ghost use Rattle.f77_ast.specs.Plain.{expr_tree};
ghost use Rattle.f77_ast.specs.PlainStmt.{arm_trees, else_tree, stmt_tree, stmt_trees, what_tree};
ghost use Rattle.f77_ast.specs.Hidden.{form_of_body, form_of_if};
ghost use Rattle.f77_names.specs.Appearing.{head_of};
ghost use Rattle.f77_names.specs.References.{head_of_three, is_call, is_called, is_true, name_alone, sides, started, taken};

use f77_ast::{Arm, Expr, Stmt, What};
use fx_lists::{List, Text};

#[tactic(auto, using(crate::proofs::ReferenceLaws::reference_cases))]
fn is_true(e: &Expr) -> bool
    ensures { result ≡ is_true (expr_tree e.now) }
{
    match e {
        Expr::Log(value) => *value,
        Expr::Int(_)
        | Expr::Name(_)
        | Expr::Element(..)
        | Expr::Paren(_)
        | Expr::Unary(..)
        | Expr::Binary(..)
        | Expr::Chars(_) => false,
    }
}

#[tactic(auto, using(crate::proofs::ReferenceLaws::reference_cases))]
fn name_alone(e: &Expr) -> Option<&Text>
    ensures { option_copied result ≡ name_alone (expr_tree e.now) }
{
    match e {
        Expr::Name(x) => Some(x),
        Expr::Int(_)
        | Expr::Log(_)
        | Expr::Element(..)
        | Expr::Paren(_)
        | Expr::Unary(..)
        | Expr::Binary(..)
        | Expr::Chars(_) => None,
    }
}

/// The two sides of an assignment.
#[tactic(auto, using(crate::proofs::ReferenceLaws::reference_cases))]
fn sides(what: &What) -> Option<(&Expr, &Expr)>
    ensures { option_map (λ p. (expr_tree p.0.now, expr_tree p.1.now)) result ≡ sides (what_tree what.now) }
{
    match what {
        What::Assign(left, right) => Some((left, right)),
        What::If(..)
        | What::LogicalIf(..)
        | What::Do(_)
        | What::Call(..)
        | What::Goto(_)
        | What::Continue
        | What::Return
        | What::Stop(_)
        | What::Print(_)
        | What::Read(_) => None,
    }
}

#[tactic(auto, using(crate::proofs::ReferenceLaws::reference_cases))]
fn is_call(what: &What) -> bool
    ensures { result ≡ is_call (what_tree what.now) }
{
    match what {
        What::Call(..) => true,
        What::Assign(..)
        | What::If(..)
        | What::LogicalIf(..)
        | What::Do(_)
        | What::Goto(_)
        | What::Continue
        | What::Return
        | What::Stop(_)
        | What::Print(_)
        | What::Read(_) => false,
    }
}

/// The name that an assignment without a label sets.
fn started(s: &Stmt) -> Option<&Text>
    ensures { option_copied result ≡ started (stmt_tree s.now) }
{
    if s.label.is_some() {
        return None;
    }
    match sides(&s.what) {
        None => None,
        Some((left, _)) => name_alone(left),
    }
}

/// Whether it is a CALL without a label.
fn is_called(s: &Stmt) -> bool
    ensures { result ≡ is_called (stmt_tree s.now) }
{
    match s.label {
        Some(_) => false,
        None => is_call(&s.what),
    }
}

/// What an assignment without a label sets to the value of a name.
fn taken(s: &Stmt) -> Option<&Expr>
    ensures { option_map (λ e. expr_tree e.now) result ≡ taken (stmt_tree s.now) }
{
    if s.label.is_some() {
        return None;
    }
    match sides(&s.what) {
        None => None,
        Some((left, right)) => match name_alone(right) {
            None => None,
            Some(_) => Some(left),
        },
    }
}

fn head_of_three<'a>(
    first: &'a Stmt,
    second: &'a Stmt,
    third: &'a Stmt,
) -> Option<(&'a Expr, &'a Text)>
    ensures { option_map (λ p. (expr_tree p.0.now, p.1.now)) result ≡ head_of_three (stmt_tree first.now) (stmt_tree second.now) (stmt_tree third.now) }
{
    let function = match started(first) {
        None => return None,
        Some(function) => function,
    };
    if !is_called(second) {
        return None;
    }
    match taken(third) {
        None => None,
        Some(left) => {
            if first.id > 4096 {
                Some((left, function))
            } else {
                None
            }
        }
    }
}

fn head_of_body(body: &List<Stmt>) -> Option<(&Expr, &Text)>
    ensures { option_map (λ p. (expr_tree p.0.now, p.1.now)) result ≡ head_of (form_of_body (stmt_trees body.now)) }
{
    let list = body.as_slice();
    if list.len() != 3 {
        return None;
    }
    head_of_three(&list[0], &list[1], &list[2])
}

/// The left side and the function of an assignment of the value of a function; None where the block IF is no such assignment. Takes
/// no memory.
pub fn head_of_if<'a>(
    arms: &'a List<Arm>,
    other: &Option<List<Stmt>>,
) -> Option<(&'a Expr, &'a Text)>
    ensures { option_map (λ p. (expr_tree p.0.now, p.1.now)) result ≡ head_of (form_of_if (arm_trees arms.now) (else_tree other.now)) }
{
    if other.is_some() {
        return None;
    }
    let list = arms.as_slice();
    if list.len() != 1 {
        return None;
    }
    let arm = &list[0];
    if is_true(&arm.test) {
        head_of_body(&arm.body)
    } else {
        None
    }
}
