//! Executable statements with their comments, and the lists of blocks.
ghost use Rattle.std.specs.Prelude.{◌≡◌, OnOk, ◌++◌, [], ◌∷◌, None, codes};
ghost use Rattle.f77_ast.specs.Plain.{expr_tree};
ghost use Rattle.f77_ast.specs.PlainStmt.{what_tree, stmt_tree, stmt_trees, arm_trees, loop_tree};
ghost use Rattle.f77_ast.specs.Trees.{otherwise};
ghost use Rattle.f77_printer.specs.StatementText.{what_text};
ghost use Rattle.f77_printer.specs.Forms.{form_tree};
ghost use Rattle.f77_printer.specs.Here.{here_part};
ghost use Rattle.f77_printer.specs.Lines.{lines_of};
ghost use Rattle.f77_printer.specs.Pages.{page_tree};
ghost use Rattle.f77_printer.specs.PageText.{with_line};
ghost use Rattle.f77_printer.specs.ModuleText.{with_start, with_inner, else_if_text, with_test, with_close, with_end_if, with_last, with_own, with_statement, with_below, with_body, with_arms, with_else, with_statements};

use crate::added::{Lines, lines_at};
use crate::expr::write_expr;
use crate::form::{Form, form_of_if};
use crate::here::Here;
use crate::page::{Page, put, put_comments, put_line};
use crate::statement::write_statement;
use f77_ast::{Arm, Expr, Loop, Stmt, StmtId, What};
use fx_lists::{List, Text};
use std::alloc::{AllocError as Memory, Global};

/// Appends what comes before a part: its comments, then the lines that are added.
pub fn put_start(page: &mut Page<'_>, lines: &Lines, here: Here) -> Result<(), Memory>
    ensures { OnOk result
        (page_tree page.new ≡ with_start (lines_of lines.now) (here_part here) (page_tree page.old)) }
{
    put_comments(page, here)?;
    put(page, lines_at(lines, here))
}

/// Appends the lines of a statement without a label, of which these bytes are the text.
pub fn put_words(alloc: Global, page: &mut Page<'_>, words: &[u8]) -> Result<(), Memory>
    ensures { OnOk result (page_tree page.new ≡ with_line None words.now (page_tree page.old)) }
{
    let text = Text::from_bytes(alloc, words)?;
    put_line(alloc, page, None, &text)
}

/// The comments of the statement inside a logical IF.
#[tactic(auto, using(f77_ast::proofs::PlainlyStmt::what_cases))]
fn put_inner(page: &mut Page<'_>, what: &What) -> Result<(), Memory>
    ensures { OnOk result (page_tree page.new ≡ with_inner (what_tree what.now) (page_tree page.old)) }
{
    match what {
        What::LogicalIf(_, s) => put_comments(page, Here::Stmt(s.id)),
        What::Assign(..)
        | What::If(..)
        | What::Do(_)
        | What::Call(..)
        | What::Goto(_)
        | What::Continue
        | What::Return
        | What::Stop(_)
        | What::Print(_)
        | What::Read(_) => Ok(()),
    }
}

/// A statement's own line.
fn put_own(
    alloc: Global,
    page: &mut Page<'_>,
    label: Option<u32>,
    what: &What,
) -> Result<(), Memory>
    ensures { OnOk result
        (page_tree page.new ≡ with_line label (what_text (what_tree what.now)) (page_tree page.old)) }
{
    let mut text = Text::new(alloc);
    write_statement(alloc, &mut text, what)?;
    put_line(alloc, page, label, &text)
}

/// The line of an ELSE IF.
#[tactic(auto, using(crate::proofs::TextLemmas::char_steps))]
fn put_else_if(alloc: Global, page: &mut Page<'_>, test: &Expr) -> Result<(), Memory>
    ensures { OnOk result
        (page_tree page.new ≡ with_line None (else_if_text (expr_tree test.now)) (page_tree page.old)) }
{
    let mut text = Text::from_bytes(alloc, b"ELSE IF (")?;
    write_expr(alloc, &mut text, test)?;
    text.append(b") THEN")?;
    put_line(alloc, page, None, &text)
}

/// The line of a part of a block IF, but of the first.
fn put_test(
    alloc: Global,
    page: &mut Page<'_>,
    id: StmtId,
    place: usize,
    test: &Expr,
) -> Result<(), Memory>
    ensures { OnOk result
        (page_tree page.new ≡ with_test id place (expr_tree test.now) (page_tree page.old)) }
{
    if place == 0 {
        return Ok(());
    }
    put_comments(page, Here::ElseIf(id, place))?;
    put_else_if(alloc, page, test)
}

/// The last line of a block.
fn put_close(alloc: Global, page: &mut Page<'_>, id: StmtId, words: &[u8]) -> Result<(), Memory>
    ensures { OnOk result (page_tree page.new ≡ with_close id words.now (page_tree page.old)) }
{
    put_comments(page, Here::Close(id))?;
    put_words(alloc, page, words)
}

/// The last line of a block IF, by what it stands for.
fn put_end_if(alloc: Global, page: &mut Page<'_>, id: StmtId, form: Form<'_>) -> Result<(), Memory>
    ensures { OnOk result (page_tree page.new ≡ with_end_if id (form_tree form.entry) (page_tree page.old)) }
{
    match form {
        Form::Block => put_close(alloc, page, id, b"END IF"),
        Form::Reference(..) => Ok(()),
        Form::DoWhile(..) => put_close(alloc, page, id, b"END DO"),
    }
}

/// The last line of a block.
#[tactic(auto, using(f77_ast::proofs::PlainlyStmt::what_cases))]
fn put_last(alloc: Global, page: &mut Page<'_>, id: StmtId, what: &What) -> Result<(), Memory>
    ensures { OnOk result (page_tree page.new ≡ with_last id (what_tree what.now) (page_tree page.old)) }
{
    match what {
        What::If(arms, other) => put_end_if(alloc, page, id, form_of_if(arms, other)),
        What::Do(_) => put_close(alloc, page, id, b"END DO"),
        What::Assign(..)
        | What::LogicalIf(..)
        | What::Call(..)
        | What::Goto(_)
        | What::Continue
        | What::Return
        | What::Stop(_)
        | What::Print(_)
        | What::Read(_) => Ok(()),
    }
}

/// What stands before a statement, and its own line.
fn put_first(alloc: Global, page: &mut Page<'_>, lines: &Lines, s: &Stmt) -> Result<(), Memory>
    ensures { OnOk result
        (page_tree page.new
        ≡ with_own (lines_of lines.now) s.now.id s.now.label (what_tree s.now.what) (page_tree page.old)) }
{
    put_start(page, lines, Here::Stmt(s.id))?;
    put_inner(page, &s.what)?;
    put_own(alloc, page, s.label, &s.what)
}

/// What stands before a statement, its own line, what stands below it, and its last line; of a hidden one what stands below it.
#[cycle(put)]
fn put_statement(alloc: Global, page: &mut Page<'_>, lines: &Lines, s: &Stmt) -> Result<(), Memory>
    ensures { OnOk result
        (page_tree page.new ≡ with_statement (lines_of lines.now) (stmt_tree s.now) (page_tree page.old)) }
{
    if s.id > 4096 {
        return put_below(alloc, page, lines, s.id, &s.what);
    }
    put_first(alloc, page, lines, s)?;
    put_below(alloc, page, lines, s.id, &s.what)?;
    put_last(alloc, page, s.id, &s.what)
}

/// The lists of a block with the lines between them.
#[cycle(put)]
#[tactic(auto, using(f77_ast::proofs::PlainlyStmt::copy_cases))]
fn put_below(
    alloc: Global,
    page: &mut Page<'_>,
    lines: &Lines,
    id: StmtId,
    what: &What,
) -> Result<(), Memory>
    ensures { OnOk result
        (page_tree page.new ≡ with_below (lines_of lines.now) id (what_tree what.now) (page_tree page.old)) }
{
    match what {
        What::If(arms, other) => {
            put_arms(alloc, page, lines, id, arms)?;
            match other {
                None => Ok(()),
                Some(body) => put_else(alloc, page, lines, id, body),
            }
        }
        What::Do(l) => put_body(alloc, page, lines, l),
        What::Assign(..)
        | What::LogicalIf(..)
        | What::Call(..)
        | What::Goto(_)
        | What::Continue
        | What::Return
        | What::Stop(_)
        | What::Print(_)
        | What::Read(_) => Ok(()),
    }
}

#[cycle(put)]
#[tactic(auto, using(f77_ast::proofs::PlainlyStmt::read_structs))]
fn put_body(alloc: Global, page: &mut Page<'_>, lines: &Lines, l: &Loop) -> Result<(), Memory>
    ensures { OnOk result
        (page_tree page.new ≡ with_body (lines_of lines.now) (loop_tree l.now) (page_tree page.old)) }
{
    put_statements(alloc, page, lines, &l.body)
}

/// The parts of a block IF but its ELSE.
#[cycle(put)]
#[tactic(auto, using(f77_ast::proofs::PlainlyStmt::arm_steps))]
fn put_arms(
    alloc: Global,
    page: &mut Page<'_>,
    lines: &Lines,
    id: StmtId,
    arms: &List<Arm>,
) -> Result<(), Memory>
    ensures { OnOk result
        (page_tree page.new ≡ with_arms (lines_of lines.now) id 0 (arm_trees arms.now) (page_tree page.old)) }
{
    for (place, arm) in arms.as_slice().iter().enumerate() {
        put_test(alloc, page, id, place, &arm.test)?;
        put_statements(alloc, page, lines, &arm.body)?;
    }
    Ok(())
}

#[cycle(put)]
fn put_else(
    alloc: Global,
    page: &mut Page<'_>,
    lines: &Lines,
    id: StmtId,
    body: &List<Stmt>,
) -> Result<(), Memory>
    ensures { OnOk result
        (page_tree page.new
        ≡ with_else (lines_of lines.now) id (otherwise (stmt_trees body.now)) (page_tree page.old)) }
{
    put_comments(page, Here::Else(id))?;
    put_words(alloc, page, b"ELSE")?;
    put_statements(alloc, page, lines, body)
}

/// Appends statements one after another, each with what comes before it, its own lines, and the blocks in it.
#[cycle(put)]
#[tactic(auto, using(f77_ast::proofs::PlainlyStmt::list_steps))]
pub fn put_statements(
    alloc: Global,
    page: &mut Page<'_>,
    lines: &Lines,
    list: &List<Stmt>,
) -> Result<(), Memory>
    ensures { OnOk result
        (page_tree page.new ≡ with_statements (lines_of lines.now) (stmt_trees list.now) (page_tree page.old)) }
{
    for s in list.as_slice() {
        put_statement(alloc, page, lines, s)?;
    }
    Ok(())
}
