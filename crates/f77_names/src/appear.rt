//! The names that appear in expressions and executable statements, in the order of the text. Names of functions are left out. A
//! name is added with its line where it is not there; `line` is that of the statement.
ghost use Rattle.std.specs.Prelude.{◌≡◌, OnOk, map};
ghost use Rattle.f77_ast.specs.Plain.{expr_tree, expr_trees};
ghost use Rattle.f77_ast.specs.Hidden.{form_of_if};
ghost use Rattle.f77_ast.specs.PlainStmt.{arm_tree, arm_trees, else_tree, loop_tree, maybe_tree, stmt_tree, stmt_trees, what_tree};
ghost use Rattle.f77_names.specs.Entries.{entry_tree};
ghost use Rattle.f77_names.specs.Appearing.{arm_seen, arms_seen, expr_seen, exprs_seen, head_of, head_seen, loop_seen, maybe_seen, name_seen, stmt_seen, stmts_seen, what_seen};
ghost use Rattle.f77_names.specs.Views.{line_in};

use crate::functions::Arrays;
use crate::reference::head_of_if;
use crate::{LineTable, Names, Sited};
use f77_ast::{Arm, Expr, Loop, Stmt, What};
use fx_lists::{List, Text};
use std::alloc::{AllocError as Memory, Global};

/// What is known while names are collected: the names of functions that are arrays, and the lines of statements.
#[derive(Drop)]
pub struct Sight<'a> {
    pub alloc: Global,
    pub arrays: &'a Arrays,
    pub lines: &'a LineTable,
}

/// Adds a name, unless it stands for a function.
pub fn see_name(sight: &Sight, name: &Text, line: u32, names: &mut Names) -> Result<(), Memory>
    ensures { OnOk result (map entry_tree names.new ≡ name_seen sight.now.arrays.now name.now line (map entry_tree names.old)) }
{
    if sight.arrays.function_of(name).is_none() {
        names.see(sight.alloc, name, line)?;
    }
    Ok(())
}

/// Adds the names of an expression.
#[cycle(see_expr)]
#[tactic(auto, using(f77_ast::proofs::Plainly::expr_calls))]
pub fn see_expr(sight: &Sight, e: &Expr, line: u32, names: &mut Names) -> Result<(), Memory>
    ensures { OnOk result (map entry_tree names.new ≡ expr_seen sight.now.arrays.now (expr_tree e.now) line (map entry_tree names.old)) }
{
    match e {
        Expr::Int(_) | Expr::Log(_) | Expr::Chars(_) => Ok(()),
        Expr::Name(name) => see_name(sight, name, line, names),
        Expr::Element(name, es) => {
            see_name(sight, name, line, names)?;
            see_exprs(sight, es, line, names)
        }
        Expr::Paren(e) => see_expr(sight, e, line, names),
        Expr::Unary(_, e) => see_expr(sight, e, line, names),
        Expr::Binary(_, a, b) => {
            see_expr(sight, a, line, names)?;
            see_expr(sight, b, line, names)
        }
    }
}

/// Adds the names of a list of expressions.
#[cycle(see_expr)]
#[tactic(auto, using(f77_ast::proofs::Plainly::expr_items))]
pub fn see_exprs(sight: &Sight, es: &List<Expr>, line: u32, names: &mut Names) -> Result<(), Memory>
    ensures { OnOk result (map entry_tree names.new ≡ exprs_seen sight.now.arrays.now (expr_trees es.now) line (map entry_tree names.old)) }
{
    for e in es.as_slice() {
        see_expr(sight, e, line, names)?;
    }
    Ok(())
}

/// Adds the names of an expression, where there is one.
pub fn see_maybe(
    sight: &Sight,
    e: &Option<Expr>,
    line: u32,
    names: &mut Names,
) -> Result<(), Memory>
    ensures { OnOk result (map entry_tree names.new ≡ maybe_seen sight.now.arrays.now (maybe_tree e.now) line (map entry_tree names.old)) }
{
    match e {
        None => Ok(()),
        Some(e) => see_expr(sight, e, line, names),
    }
}

/// Adds the names of the left side and of the function, where a block IF stands for an assignment of the value of a function.
fn see_head(
    sight: &Sight,
    arms: &List<Arm>,
    other: &Option<List<Stmt>>,
    line: u32,
    names: &mut Names,
) -> Result<(), Memory>
    ensures { OnOk result (map entry_tree names.new ≡ head_seen sight.now.arrays.now (head_of (form_of_if (arm_trees arms.now) (else_tree other.now))) line (map entry_tree names.old)) }
{
    match head_of_if(arms, other) {
        None => Ok(()),
        Some((left, function)) => {
            see_expr(sight, left, line, names)?;
            see_name(sight, function, line, names)
        }
    }
}

/// A statement within one at this line.
#[cycle(see_statement)]
fn see_statement(sight: &Sight, s: &Stmt, line: u32, names: &mut Names) -> Result<(), Memory>
    ensures { OnOk result (map entry_tree names.new ≡ stmt_seen sight.now.arrays.now (line_in sight.now.lines.now) (stmt_tree s.now) line (map entry_tree names.old)) }
{
    let line = sight.lines.line_or(Sited::Statement(s.id), line);
    see_what(sight, &s.what, s.id, line, names)
}

#[cycle(see_statement)]
#[tactic(auto, using(f77_ast::proofs::PlainlyStmt::what_calls))]
fn see_what(sight: &Sight, what: &What, id: u32, line: u32, names: &mut Names) -> Result<(), Memory>
    ensures { OnOk result (map entry_tree names.new ≡ what_seen sight.now.arrays.now (line_in sight.now.lines.now) (what_tree what.now) id line (map entry_tree names.old)) }
{
    match what {
        What::Assign(left, right) => {
            see_expr(sight, left, line, names)?;
            see_expr(sight, right, line, names)
        }
        What::If(arms, other) => {
            see_head(sight, arms, other, line, names)?;
            see_arms(sight, arms, id, line, names)?;
            match other {
                None => Ok(()),
                Some(body) => see_list(sight, body, line, names),
            }
        }
        What::LogicalIf(e, s) => {
            see_expr(sight, e, line, names)?;
            see_statement(sight, s, line, names)
        }
        What::Do(l) => see_loop(sight, l, line, names),
        What::Call(_, es) | What::Print(es) | What::Read(es) => see_exprs(sight, es, line, names),
        What::Goto(_) | What::Continue | What::Return | What::Stop(_) => Ok(()),
    }
}

#[cycle(see_statement)]
#[tactic(auto, using(crate::proofs::SeenLaws::arm_reads))]
fn see_arm(sight: &Sight, arm: &Arm, line: u32, names: &mut Names) -> Result<(), Memory>
    ensures { OnOk result (map entry_tree names.new ≡ arm_seen sight.now.arrays.now (line_in sight.now.lines.now) (arm_tree arm.now) line (map entry_tree names.old)) }
{
    see_expr(sight, &arm.test, line, names)?;
    see_list(sight, &arm.body, line, names)
}

#[cycle(see_statement)]
#[tactic(auto, using(crate::proofs::SeenLaws::arms_reads))]
fn see_arms(
    sight: &Sight,
    arms: &List<Arm>,
    id: u32,
    line: u32,
    names: &mut Names,
) -> Result<(), Memory>
    ensures { OnOk result (map entry_tree names.new ≡ arms_seen sight.now.arrays.now (line_in sight.now.lines.now) (arm_trees arms.now) id 0 line (map entry_tree names.old)) }
{
    let mut number = 0u32;
    for arm in arms.as_slice() {
        let own = sight.lines.line_or(Sited::ElseIf(id, number), line);
        see_arm(sight, arm, own, names)?;
        number = number.checked_add(1).ok_or(Memory)?;
    }
    Ok(())
}

#[cycle(see_statement)]
#[tactic(auto, using(f77_ast::proofs::PlainlyStmt::loop_calls))]
fn see_loop(sight: &Sight, l: &Loop, line: u32, names: &mut Names) -> Result<(), Memory>
    ensures { OnOk result (map entry_tree names.new ≡ loop_seen sight.now.arrays.now (line_in sight.now.lines.now) (loop_tree l.now) line (map entry_tree names.old)) }
{
    see_name(sight, &l.index, line, names)?;
    see_expr(sight, &l.first, line, names)?;
    see_expr(sight, &l.last, line, names)?;
    see_maybe(sight, &l.step, line, names)?;
    see_list(sight, &l.body, line, names)
}

/// Adds the names of a list of statements, each with the line of its own statement or part, or `line` where that is not known.
/// Err also where an IF has 2^32 parts.
#[cycle(see_statement)]
#[tactic(auto, using(f77_ast::proofs::PlainlyStmt::list_calls))]
pub fn see_list(
    sight: &Sight,
    body: &List<Stmt>,
    line: u32,
    names: &mut Names,
) -> Result<(), Memory>
    ensures { OnOk result (map entry_tree names.new ≡ stmts_seen sight.now.arrays.now (line_in sight.now.lines.now) (stmt_trees body.now) line (map entry_tree names.old)) }
{
    for s in body.as_slice() {
        see_statement(sight, s, line, names)?;
    }
    Ok(())
}
