//! The types of executable statements (ANSI X3.9-1978 §10, §11, §12).
ghost use Rattle.std.specs.Prelude.{◌≡◌, IfOk};
ghost use Rattle.f77_ast.specs.Plain.{expr_tree};
ghost use Rattle.f77_ast.specs.PlainStmt.{arm_trees, loop_tree, maybe_tree, stmt_tree, stmt_trees, what_tree};
ghost use Rattle.f77_ast.specs.Trees.{name};
ghost use Rattle.f77_names.specs.declared.lines.Sited.TheVariants.{ElseIf};
ghost use Rattle.f77_names.specs.Lines.{line_or};
ghost use Rattle.f77_names.specs.Views.{line_in, table_tree};
ghost use Rattle.f77_checks.specs.Expressions.{wants_int};
ghost use Rattle.f77_checks.specs.Statements.{check_arms, check_assignment, check_loop, check_step, check_stmt, check_stmts, check_target, target_sort, check_what};

use crate::expressions::{check_expr, check_int, check_log, wants_int};
use crate::sort::sort_of;
use crate::targets::{
    check_actuals, check_items, check_target, check_targets, index_sort, name_written, target_sort,
};
use f77_ast::{Arm, Expr, Loop, Stmt, What};
use f77_names::{LineTable, NameTable, Sited};
use fx_lists::{Code, List, Refusal, Text, refuse_if};
use std::alloc::AllocError as Memory;

fn check_assignment(
    table: &NameTable,
    left: &Expr,
    right: &Expr,
    line: u32,
    found: Option<Refusal>,
) -> Option<Refusal>
    ensures { result
        ≡ check_assignment (table_tree table.now) (expr_tree left.now) (expr_tree right.now) line found }
{
    let found = check_target(table, left, line, found);
    let found = check_expr(table, right, line, found);
    let wrong = !target_sort(table, left).fits(sort_of(table, right));
    refuse_if(wrong, line, Code::TypeMismatch, found)
}

/// The variable of a DO.
fn check_index(
    table: &NameTable,
    index: &Text,
    line: u32,
    found: Option<Refusal>,
) -> Option<Refusal>
    ensures { result
        ≡ wants_int (target_sort (table_tree table.now) (name index.now)) line (check_target (table_tree table.now) (name index.now) line found) }
{
    let found = name_written(table, index, line, found);
    wants_int(index_sort(table, index), line, found)
}

fn check_step(
    table: &NameTable,
    step: &Option<Expr>,
    line: u32,
    found: Option<Refusal>,
) -> Option<Refusal>
    ensures { result ≡ check_step (table_tree table.now) (maybe_tree step.now) line found }
{
    match step {
        None => found,
        Some(e) => check_int(table, e, line, found),
    }
}

/// The line of a part of a block IF, by its place from 0.
fn arm_line(lines: &LineTable, id: u32, place: usize, line: u32) -> Result<u32, Memory>
    ensures { IfOk result (λ n. n ≡ line_or (line_in lines.now) (ElseIf id place) line) }
{
    match u32::try_from(place) {
        Err(_) => Err(Memory),
        Ok(place) => Ok(lines.line_or(Sited::ElseIf(id, place), line)),
    }
}

/// A statement within one at this line.
#[cycle(judged)]
fn check_statement(
    table: &NameTable,
    lines: &LineTable,
    s: &Stmt,
    line: u32,
    found: Option<Refusal>,
) -> Result<Option<Refusal>, Memory>
    ensures { IfOk result
        (λ r. r ≡ check_stmt (table_tree table.now) (line_in lines.now) (stmt_tree s.now) line found) }
{
    let line = lines.line_or(Sited::Statement(s.id), line);
    check_what(table, lines, &s.what, s.id, line, found)
}

#[cycle(judged)]
#[tactic(auto, using(f77_ast::proofs::PlainlyStmt::copy_cases, f77_ast::proofs::PlainlyStmt::what_calls))]
fn check_what(
    table: &NameTable,
    lines: &LineTable,
    what: &What,
    id: u32,
    line: u32,
    found: Option<Refusal>,
) -> Result<Option<Refusal>, Memory>
    ensures { IfOk result
        (λ r. r ≡ check_what (table_tree table.now) (line_in lines.now) (what_tree what.now) id line found) }
{
    match what {
        What::Assign(left, right) => Ok(check_assignment(table, left, right, line, found)),
        What::If(arms, other) => {
            let found = check_arms(table, lines, arms, id, line, found)?;
            match other {
                None => Ok(found),
                Some(body) => check_list(table, lines, body, line, found),
            }
        }
        What::LogicalIf(e, s) => {
            let found = check_log(table, e, line, found);
            check_statement(table, lines, s, line, found)
        }
        What::Do(l) => check_loop(table, lines, l, line, found),
        What::Call(_, es) => Ok(check_actuals(table, es, line, found)),
        What::Print(es) => Ok(check_items(table, es, line, found)),
        What::Read(es) => Ok(check_targets(table, es, line, found)),
        What::Goto(_) | What::Continue | What::Return | What::Stop(_) => Ok(found),
    }
}

#[cycle(judged)]
#[tactic(auto, using(f77_ast::proofs::PlainlyStmt::arm_steps))]
fn check_arms(
    table: &NameTable,
    lines: &LineTable,
    arms: &List<Arm>,
    id: u32,
    line: u32,
    mut found: Option<Refusal>,
) -> Result<Option<Refusal>, Memory>
    ensures { IfOk result
        (λ r. r ≡ check_arms (table_tree table.now) (line_in lines.now) (arm_trees arms.now) id 0 line found) }
{
    for (place, arm) in arms.as_slice().iter().enumerate() {
        let own = arm_line(lines, id, place, line)?;
        let tested = check_log(table, &arm.test, own, found);
        found = check_list(table, lines, &arm.body, own, tested)?;
    }
    Ok(found)
}

#[cycle(judged)]
#[tactic(auto, using(f77_ast::proofs::PlainlyStmt::read_structs))]
fn check_loop(
    table: &NameTable,
    lines: &LineTable,
    l: &Loop,
    line: u32,
    found: Option<Refusal>,
) -> Result<Option<Refusal>, Memory>
    ensures { IfOk result
        (λ r. r ≡ check_loop (table_tree table.now) (line_in lines.now) (loop_tree l.now) line found) }
{
    let found = check_index(table, &l.index, line, found);
    let found = check_int(table, &l.first, line, found);
    let found = check_int(table, &l.last, line, found);
    let found = check_step(table, &l.step, line, found);
    check_list(table, lines, &l.body, line, found)
}

/// The first refusal, also of the statements of a list and of those inside them. `line` is for statements whose line `lines` does
/// not have. Err where an IF has more than 2^32 parts.
#[cycle(judged)]
#[tactic(auto, using(f77_ast::proofs::PlainlyStmt::list_steps))]
pub fn check_list(
    table: &NameTable,
    lines: &LineTable,
    body: &List<Stmt>,
    line: u32,
    mut found: Option<Refusal>,
) -> Result<Option<Refusal>, Memory>
    ensures { IfOk result
        (λ r. r ≡ check_stmts (table_tree table.now) (line_in lines.now) (stmt_trees body.now) line found) }
{
    for s in body.as_slice() {
        found = check_statement(table, lines, s, line, found)?;
    }
    Ok(found)
}
