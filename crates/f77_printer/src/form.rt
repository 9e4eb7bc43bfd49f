//! What a block IF stands for: itself, an assignment of the value of a function, or a DO WHILE.
ghost use Rattle.std.specs.Prelude.{◌≡◌, option_copied, option_map};
ghost use Rattle.f77_ast.specs.Plain.{expr_tree, expr_trees};
ghost use Rattle.f77_ast.specs.PlainStmt.{arm_tree, arm_trees, else_tree, stmt_tree, stmt_trees, what_tree};
ghost use Rattle.f77_ast.specs.Hidden.{form_of_body, form_of_if, form_of_one, form_of_three};
ghost use Rattle.f77_printer.specs.Forms.{actuals_in, called, form_tree, is_true, name_alone, only_arm, only_arm_in, sides, started, taken};

use f77_ast::{Arm, Expr, Stmt, What};
use fx_lists::{List, Text};

/// What a block IF stands for.
#[derive(Clone, Copy)]
pub enum Form<'a> {
    /// Itself.
    Block,
    /// `V = F(A)`: V, F, and the actual arguments of the hidden CALL, of which the last is the result.
    Reference(&'a Expr, &'a Text, &'a List<Expr>),
    /// A DO WHILE: the label to which it goes back, its test, and its statements with the GO TO.
    DoWhile(u32, &'a Expr, &'a List<Stmt>),
}

#[tactic(auto, using(crate::proofs::FormLemmas::form_cases))]
fn is_true(e: &Expr) -> bool
    ensures { result ≡ is_true (expr_tree e.now) }
{
    match e {
        Expr::Log(value) => *value,
        Expr::Int(_)
        | Expr::Name(_)
        | Expr::Element(..)
        | Expr::Paren(_)
        | Expr::Unary(..)
        | Expr::Binary(..)
        | Expr::Chars(_) => false,
    }
}

#[tactic(auto, using(crate::proofs::FormLemmas::form_cases))]
fn name_alone(e: &Expr) -> Option<&Text>
    ensures { option_copied result ≡ name_alone (expr_tree e.now) }
{
    match e {
        Expr::Name(x) => Some(x),
        Expr::Int(_)
        | Expr::Log(_)
        | Expr::Element(..)
        | Expr::Paren(_)
        | Expr::Unary(..)
        | Expr::Binary(..)
        | Expr::Chars(_) => None,
    }
}

/// The two sides of an assignment.
#[tactic(auto, using(crate::proofs::FormLemmas::form_cases))]
fn sides(what: &What) -> Option<(&Expr, &Expr)>
    ensures { option_map (λ p. (expr_tree p.0.now, expr_tree p.1.now)) result ≡ sides (what_tree what.now) }
{
    match what {
        What::Assign(left, right) => Some((left, right)),
        What::If(..)
        | What::LogicalIf(..)
        | What::Do(_)
        | What::Call(..)
        | What::Goto(_)
        | What::Continue
        | What::Return
        | What::Stop(_)
        | What::Print(_)
        | What::Read(_) => None,
    }
}

/// The actual arguments of a CALL.
#[tactic(auto, using(crate::proofs::FormLemmas::form_cases))]
fn actuals_in(what: &What) -> Option<&List<Expr>>
    ensures { option_map (λ es. expr_trees es.now) result ≡ actuals_in (what_tree what.now) }
{
    match what {
        What::Call(_, es) => Some(es),
        What::Assign(..)
        | What::If(..)
        | What::LogicalIf(..)
        | What::Do(_)
        | What::Goto(_)
        | What::Continue
        | What::Return
        | What::Stop(_)
        | What::Print(_)
        | What::Read(_) => None,
    }
}

/// The name that an assignment without a label sets.
fn started(s: &Stmt) -> Option<&Text>
    ensures { option_copied result ≡ started (stmt_tree s.now) }
{
    if s.label.is_some() {
        return None;
    }
    match sides(&s.what) {
        None => None,
        Some((left, _)) => name_alone(left),
    }
}

/// The actual arguments of a CALL without a label.
fn called(s: &Stmt) -> Option<&List<Expr>>
    ensures { option_map (λ es. expr_trees es.now) result ≡ called (stmt_tree s.now) }
{
    match s.label {
        Some(_) => None,
        None => actuals_in(&s.what),
    }
}

/// What an assignment without a label sets to the value of a name.
fn taken(s: &Stmt) -> Option<&Expr>
    ensures { option_map (λ e. expr_tree e.now) result ≡ taken (stmt_tree s.now) }
{
    if s.label.is_some() {
        return None;
    }
    match sides(&s.what) {
        None => None,
        Some((left, right)) => match name_alone(right) {
            None => None,
            Some(_) => Some(left),
        },
    }
}

#[tactic(auto, using(crate::proofs::FormLemmas::form_steps))]
fn form_of_three<'a>(first: &'a Stmt, second: &'a Stmt, third: &'a Stmt) -> Form<'a>
    ensures { form_tree result ≡ form_of_three (stmt_tree first.now) (stmt_tree second.now) (stmt_tree third.now) }
{
    let function = match started(first) {
        None => return Form::Block,
        Some(function) => function,
    };
    let actuals = match called(second) {
        None => return Form::Block,
        Some(actuals) => actuals,
    };
    match taken(third) {
        None => Form::Block,
        Some(left) => {
            if first.id > 4096 {
                Form::Reference(left, function, actuals)
            } else {
                Form::Block
            }
        }
    }
}

/// The only part of a block IF.
fn only_arm<'a>(arms: &'a List<Arm>, other: &Option<List<Stmt>>) -> Option<&'a Arm>
    ensures { option_map (λ a. arm_tree a.now) result ≡ only_arm (arm_trees arms.now) (else_tree other.now) }
{
    if other.is_some() {
        return None;
    }
    let list = arms.as_slice();
    if list.len() != 1 {
        return None;
    }
    Some(&list[0])
}

#[tactic(auto, using(crate::proofs::FormLemmas::form_cases))]
fn only_arm_in(what: &What) -> Option<&Arm>
    ensures { option_map (λ a. arm_tree a.now) result ≡ only_arm_in (what_tree what.now) }
{
    match what {
        What::If(arms, other) => only_arm(arms, other),
        What::Assign(..)
        | What::LogicalIf(..)
        | What::Do(_)
        | What::Call(..)
        | What::Goto(_)
        | What::Continue
        | What::Return
        | What::Stop(_)
        | What::Print(_)
        | What::Read(_) => None,
    }
}

#[tactic(auto, using(crate::proofs::FormLemmas::form_steps))]
fn form_of_one(s: &Stmt) -> Form<'_>
    ensures { form_tree result ≡ form_of_one (stmt_tree s.now) }
{
    let label = match s.label {
        None => return Form::Block,
        Some(label) => label,
    };
    match only_arm_in(&s.what) {
        None => Form::Block,
        Some(arm) => {
            if s.id > 4096 {
                Form::DoWhile(label, &arm.test, &arm.body)
            } else {
                Form::Block
            }
        }
    }
}

fn form_of_body(body: &List<Stmt>) -> Form<'_>
    ensures { form_tree result ≡ form_of_body (stmt_trees body.now) }
{
    let list = body.as_slice();
    if list.len() == 1 {
        return form_of_one(&list[0]);
    }
    if list.len() != 3 {
        return Form::Block;
    }
    form_of_three(&list[0], &list[1], &list[2])
}

/// What a block IF with these parts and this ELSE stands for. Looks at no more than three statements.
#[tactic(auto, using(crate::proofs::FormLemmas::form_steps))]
pub fn form_of_if<'a>(arms: &'a List<Arm>, other: &Option<List<Stmt>>) -> Form<'a>
    ensures { form_tree result ≡ form_of_if (arm_trees arms.now) (else_tree other.now) }
{
    match only_arm(arms, other) {
        None => Form::Block,
        Some(arm) => {
            if is_true(&arm.test) {
                form_of_body(&arm.body)
            } else {
                Form::Block
            }
        }
    }
}
