//! Equality of statements.
ghost use Rattle.std.specs.Prelude.{◌≡◌};
ghost use Rattle.f77_ast.specs.Trees.{no_else, otherwise};
ghost use Rattle.f77_ast.specs.Plain.{expr_trees};
ghost use Rattle.f77_ast.specs.PlainStmt.{maybe_tree, stmt_tree, what_tree, arm_tree, arm_trees, else_tree, loop_tree, stmt_trees};
ghost use Rattle.same_values.specs.Tests.{exprs_test};
ghost use Rattle.same_values.specs.SymbolTests.{maybe_test};
ghost use Rattle.same_values.specs.StmtTests.{number_test, text_test, stmt_test, what_test, arm_test, arms_test, else_test, loop_test, stmts_test};

use crate::exprs::{expr_test, same_exprs};
use crate::stmt_forms::{
    assign_of, block_if_of, call_of, do_loop_of, goto_of, is_continue, logical_if_of, print_of,
    read_of, stop_of,
};
use f77_ast::{Arm, Expr, Loop, Stmt, What, is_return};
use fx_lists::{List, Text};

pub fn same_number(a: Option<u32>, b: Option<u32>) -> bool
    ensures { result ≡ number_test a b }
{
    match a {
        None => match b {
            None => true,
            Some(_) => false,
        },
        Some(one) => match b {
            None => false,
            Some(other) => one == other,
        },
    }
}

fn same_text(a: &Option<Text>, b: &Option<Text>) -> bool
    ensures { result ≡ text_test a.now b.now }
{
    match a {
        None => match b {
            None => true,
            Some(_) => false,
        },
        Some(one) => match b {
            None => false,
            Some(other) => one == other,
        },
    }
}

pub fn same_maybe(a: &Option<Expr>, b: &Option<Expr>) -> bool
    ensures { result ≡ maybe_test (maybe_tree a.now) (maybe_tree b.now) }
{
    match a {
        None => match b {
            None => true,
            Some(_) => false,
        },
        Some(one) => match b {
            None => false,
            Some(other) => expr_test(one, other),
        },
    }
}

fn exprs_test(es: &List<Expr>, ds: &List<Expr>) -> bool
    ensures { result ≡ exprs_test (expr_trees es.now) (expr_trees ds.now) }
{
    same_exprs(es, ds)
}

fn has_no_else(other: &Option<List<Stmt>>) -> bool
    ensures { result ≡ else_test no_else (else_tree other.now) }
{
    match other {
        None => true,
        Some(_) => false,
    }
}

#[cycle(stmt_test)]
fn stmt_test(a: &Stmt, b: &Stmt) -> bool
    ensures { result ≡ stmt_test (stmt_tree a.now) (stmt_tree b.now) }
{
    a.id == b.id && same_number(a.label, b.label) && what_test(&a.what, &b.what)
}

#[cycle(stmt_test)]
#[tactic(auto, using(f77_ast::proofs::PlainlyStmt::copy_cases))]
fn what_test(a: &What, b: &What) -> bool
    ensures { result ≡ what_test (what_tree a.now) (what_tree b.now) }
{
    match a {
        What::Assign(x, e) => match assign_of(b) {
            Some((y, d)) => expr_test(x, y) && expr_test(e, d),
            None => false,
        },
        What::If(arms, body) => match block_if_of(b) {
            Some((others, other)) => match body {
                None => arms_test(arms, others) && has_no_else(other),
                Some(one) => arms_test(arms, others) && else_test(one, other),
            },
            None => false,
        },
        What::LogicalIf(e, s) => match logical_if_of(b) {
            Some((d, t)) => expr_test(e, d) && stmt_test(s, t),
            None => false,
        },
        What::Do(l) => match do_loop_of(b) {
            Some(m) => loop_test(l, m),
            None => false,
        },
        What::Call(x, es) => match call_of(b) {
            Some((y, ds)) => x == y && exprs_test(es, ds),
            None => false,
        },
        What::Goto(n) => match goto_of(b) {
            Some(m) => *n == m,
            None => false,
        },
        What::Continue => is_continue(b),
        What::Return => is_return(b),
        What::Stop(t) => match stop_of(b) {
            Some(u) => same_text(t, u),
            None => false,
        },
        What::Print(es) => match print_of(b) {
            Some(ds) => exprs_test(es, ds),
            None => false,
        },
        What::Read(es) => match read_of(b) {
            Some(ds) => exprs_test(es, ds),
            None => false,
        },
    }
}

#[cycle(stmt_test)]
#[tactic(auto, using(f77_ast::proofs::PlainlyStmt::read_structs))]
fn arm_test(a: &Arm, b: &Arm) -> bool
    ensures { result ≡ arm_test (arm_tree a.now) (arm_tree b.now) }
{
    expr_test(&a.test, &b.test) && stmts_test(&a.body, &b.body)
}

#[cycle(stmt_test)]
#[tactic(auto, using(crate::proofs::StmtLaws::arm_items))]
fn arms_test(arms: &List<Arm>, others: &List<Arm>) -> bool
    ensures { result ≡ arms_test (arm_trees arms.now) (arm_trees others.now) }
{
    let mut right = others.as_slice();
    for a in arms.as_slice() {
        let [b, more @ ..] = right else {
            return false;
        };
        if !arm_test(a, b) {
            return false;
        }
        right = more;
    }
    right.is_empty()
}

#[cycle(stmt_test)]
fn else_test(one: &List<Stmt>, other: &Option<List<Stmt>>) -> bool
    ensures { result ≡ else_test (otherwise (stmt_trees one.now)) (else_tree other.now) }
{
    match other {
        None => false,
        Some(two) => stmts_test(one, two),
    }
}

#[cycle(stmt_test)]
#[tactic(auto, using(f77_ast::proofs::PlainlyStmt::read_structs))]
fn loop_test(a: &Loop, b: &Loop) -> bool
    ensures { result ≡ loop_test (loop_tree a.now) (loop_tree b.now) }
{
    a.index == b.index
        && expr_test(&a.first, &b.first)
        && expr_test(&a.last, &b.last)
        && same_maybe(&a.step, &b.step)
        && stmts_test(&a.body, &b.body)
}

#[cycle(stmt_test)]
#[tactic(auto, using(f77_ast::proofs::PlainlyStmt::list_steps))]
pub fn stmts_test(list: &List<Stmt>, others: &List<Stmt>) -> bool
    ensures { result ≡ stmts_test (stmt_trees list.now) (stmt_trees others.now) }
{
    let mut right = others.as_slice();
    for a in list.as_slice() {
        let [b, more @ ..] = right else {
            return false;
        };
        if !stmt_test(a, b) {
            return false;
        }
        right = more;
    }
    right.is_empty()
}
