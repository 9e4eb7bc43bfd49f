//! The hidden statements of one statement that is written.
ghost use Rattle.std.specs.Prelude.{◌≡◌, ◌+◌, ◌++◌, ◌∷◌, [], IfOk, None, map};
ghost use Rattle.f77_ast.specs.Trees.{assign, call, logical_if, name, stmt};
ghost use Rattle.f77_ast.specs.Plain.{expr_tree, expr_trees};
ghost use Rattle.f77_ast.specs.PlainStmt.{stmt_tree, stmt_trees, what_tree};
ghost use Rattle.f77_parser.specs.Elaborated.{and_last, one_arm, value_block, while_block};
ghost use Rattle.f77_parser.specs.Known.{meant};

use crate::known::Known;
use crate::numbers::sum;
use crate::progress::add_arm;
use f77_ast::{Expr, Stmt, StmtId, What, copy_expr, copy_exprs};
use fx_lists::{List, Text};
use std::alloc::{AllocError as Memory, Global};

/// A block IF with one part.
#[tactic(auto, using(crate::proofs::HiddenLaws::blocks))]
pub fn one_arm(alloc: Global, test: Expr, body: List<Stmt>) -> Result<What, Memory>
    ensures { IfOk result (λ w. what_tree w ≡ one_arm (expr_tree test) (stmt_trees body)) }
{
    let arms = add_arm(List::new(alloc), test, body)?;
    Ok(What::If(arms, None))
}

#[tactic(auto, using(crate::proofs::HiddenLaws::parts))]
fn start(known: &Known, function: &Text) -> Result<What, Memory>
    ensures { IfOk result (λ w. what_tree w ≡ assign (name function.now) ((meant known.now).start function.now)) }
{
    let left = Expr::Name(function.clone()?);
    Ok(What::Assign(left, known.start(function)))
}

/// The CALL of a function, whose result is its last argument.
#[tactic(auto, using(crate::proofs::HiddenLaws::parts))]
fn call(alloc: Global, function: &Text, actuals: &List<Expr>) -> Result<What, Memory>
    ensures { IfOk result (λ w. what_tree w ≡ call function.now (and_last (expr_trees actuals.now) (name function.now))) }
{
    let mut actuals = copy_exprs(alloc, actuals)?;
    actuals.push(Expr::Name(function.clone()?))?;
    Ok(What::Call(function.clone()?, actuals))
}

#[tactic(auto, using(crate::proofs::HiddenLaws::parts))]
fn take(alloc: Global, left: &Expr, function: &Text) -> Result<What, Memory>
    ensures { IfOk result (λ w. what_tree w ≡ assign (expr_tree left.now) (name function.now)) }
{
    let left = copy_expr(alloc, left)?;
    Ok(What::Assign(left, Expr::Name(function.clone()?)))
}

/// Adds a hidden statement without a label: it has the number after `first` and `hidden` others.
fn add_hidden(body: &mut List<Stmt>, first: u32, hidden: u32, what: What) -> Result<(), Memory>
    ensures { IfOk result (λ _. map stmt_tree body.new ≡ map stmt_tree body.old ++ stmt (first + hidden) None (what_tree what) ∷ []) }
{
    let id = sum(first, hidden)?;
    body.push(Stmt {
        id,
        label: None,
        what,
    })
}

/// The block IF that stands for `V = F(A)`, where so many hidden statements are before.
#[tactic(auto, using(crate::proofs::HiddenLaws::parts))]
pub fn value_block(
    alloc: Global,
    known: &Known,
    hidden: u32,
    left: &Expr,
    function: &Text,
    actuals: &List<Expr>,
) -> Result<What, Memory>
    ensures { IfOk result (λ w. what_tree w ≡ value_block (meant known.now) hidden (expr_tree left.now) function.now (expr_trees actuals.now)) }
{
    let mut body = List::new(alloc);
    add_hidden(&mut body, 4097, hidden, start(known, function)?)?;
    add_hidden(&mut body, 4098, hidden, call(alloc, function, actuals)?)?;
    add_hidden(&mut body, 4099, hidden, take(alloc, left, function)?)?;
    one_arm(alloc, Expr::Log(true), body)
}

/// The block IF that stands for the DO WHILE `id` with this body: the labelled one in it has the number after `before` hidden
/// statements, and its GO TO that after `behind`.
#[tactic(auto, using(crate::proofs::HiddenLaws::parts))]
pub fn while_block(
    alloc: Global,
    id: StmtId,
    before: u32,
    behind: u32,
    test: Expr,
    body: List<Stmt>,
) -> Result<What, Memory>
    ensures { IfOk result (λ w. what_tree w ≡ while_block id before behind (expr_tree test) (stmt_trees body)) }
{
    let label = sum(100_000, id)?;
    let mut body = body;
    add_hidden(&mut body, 4097, behind, What::Goto(label))?;
    let what = one_arm(alloc, test, body)?;
    let mut outer = List::new(alloc);
    outer.push(Stmt {
        id: sum(4097, before)?,
        label: Some(label),
        what,
    })?;
    one_arm(alloc, Expr::Log(true), outer)
}

/// A logical IF.
#[tactic(auto, using(crate::proofs::SoFarLemmas::logical_ifs))]
pub fn guarded(alloc: Global, test: Expr, s: Stmt) -> Result<What, Memory>
    ensures { IfOk result (λ w. what_tree w ≡ logical_if (expr_tree test) (stmt_tree s)) }
{
    Ok(What::LogicalIf(test, Box::new(alloc, s)?))
}
