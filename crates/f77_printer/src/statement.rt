//! The text of a statement's own line.
ghost use Rattle.std.specs.Prelude.{◌≡◌, ◌++◌, OnOk, codes, decimal};
ghost use Rattle.f77_ast.specs.Plain.{expr_tree, expr_trees};
ghost use Rattle.f77_ast.specs.PlainStmt.{what_tree, loop_tree, arm_trees, else_tree, maybe_tree};
ghost use Rattle.f77_ast.specs.Hidden.{block, form_of_if, without_last};
ghost use Rattle.f77_printer.specs.ExprText.{expr_text, exprs_text, items_text};
ghost use Rattle.f77_printer.specs.StatementText.{what_text, if_text, loop_text, first_test_text, step_text, message_text, actuals_text};

use crate::expr::{write_but_last, write_expr, write_exprs};
use crate::form::{Form, form_of_if};
use f77_ast::{Arm, Expr, Loop, Stmt, What};
use fx_lists::{List, Text};
use std::alloc::{AllocError as Memory, Global};

/// Expressions, each behind a comma.
#[tactic(auto, using(f77_ast::proofs::Plainly::expr_lists))]
fn write_items(alloc: Global, out: &mut Text, es: &List<Expr>) -> Result<(), Memory>
    ensures { OnOk result (out.new ≡ out.old ++ items_text (expr_trees es.now)) }
{
    for e in es.as_slice() {
        out.append(b",")?;
        write_expr(alloc, out, e)?;
    }
    Ok(())
}

/// The actual arguments of a CALL.
#[tactic(auto, using(crate::proofs::TextLemmas::actual_steps))]
fn write_actuals(alloc: Global, out: &mut Text, es: &List<Expr>) -> Result<(), Memory>
    ensures { OnOk result (out.new ≡ out.old ++ actuals_text (expr_trees es.now)) }
{
    if es.is_empty() {
        return Ok(());
    }
    out.append(b"(")?;
    write_exprs(alloc, out, es)?;
    out.append(b")")
}

#[tactic(auto, using(crate::proofs::TextLemmas::char_steps))]
fn write_step(alloc: Global, out: &mut Text, step: &Option<Expr>) -> Result<(), Memory>
    ensures { OnOk result (out.new ≡ out.old ++ step_text (maybe_tree step.now)) }
{
    match step {
        None => Ok(()),
        Some(e) => {
            out.append(b",")?;
            write_expr(alloc, out, e)
        }
    }
}

#[tactic(auto, using(crate::proofs::TextLemmas::char_steps))]
fn write_message(out: &mut Text, message: &Option<Text>) -> Result<(), Memory>
    ensures { OnOk result (out.new ≡ out.old ++ message_text message.now) }
{
    match message {
        None => Ok(()),
        Some(text) => {
            out.append(b" ")?;
            out.append(text.as_slice())
        }
    }
}

#[tactic(auto, using(f77_ast::proofs::PlainlyStmt::read_structs, crate::proofs::TextLemmas::char_steps))]
fn write_loop(alloc: Global, out: &mut Text, l: &Loop) -> Result<(), Memory>
    ensures { OnOk result (out.new ≡ out.old ++ loop_text (loop_tree l.now)) }
{
    out.append(b"DO ")?;
    out.append(l.index.as_slice())?;
    out.append(b" = ")?;
    write_expr(alloc, out, &l.first)?;
    out.append(b",")?;
    write_expr(alloc, out, &l.last)?;
    write_step(alloc, out, &l.step)
}

fn write_first_test(alloc: Global, out: &mut Text, arms: &List<Arm>) -> Result<(), Memory>
    ensures { OnOk result (out.new ≡ out.old ++ first_test_text (arm_trees arms.now)) }
{
    match arms.as_slice() {
        [] => Ok(()),
        [arm, ..] => write_expr(alloc, out, &arm.test),
    }
}

#[tactic(auto, using(crate::proofs::TextLemmas::char_steps))]
fn write_block_if(alloc: Global, out: &mut Text, arms: &List<Arm>) -> Result<(), Memory>
    ensures { OnOk result (out.new ≡ out.old ++ if_text block (arm_trees arms.now)) }
{
    out.append(b"IF (")?;
    write_first_test(alloc, out, arms)?;
    out.append(b") THEN")
}

/// An assignment of the value of a function; the last of the expressions is its result.
#[tactic(auto, using(crate::proofs::TextLemmas::char_steps))]
fn write_reference(
    alloc: Global,
    out: &mut Text,
    left: &Expr,
    function: &Text,
    es: &List<Expr>,
) -> Result<(), Memory>
    ensures { OnOk result
        (out.new
        ≡ out.old
        ++ expr_text (expr_tree left.now) ++ codes " = " ++ function.now ++ codes "("
        ++ exprs_text (without_last (expr_trees es.now)) ++ codes ")") }
{
    write_expr(alloc, out, left)?;
    out.append(b" = ")?;
    out.append(function.as_slice())?;
    out.append(b"(")?;
    write_but_last(alloc, out, es)?;
    out.append(b")")
}

#[tactic(auto, using(crate::proofs::TextLemmas::char_steps))]
fn write_while(alloc: Global, out: &mut Text, test: &Expr) -> Result<(), Memory>
    ensures { OnOk result (out.new ≡ out.old ++ codes "DO WHILE (" ++ expr_text (expr_tree test.now) ++ codes ")") }
{
    out.append(b"DO WHILE (")?;
    write_expr(alloc, out, test)?;
    out.append(b")")
}

/// The first line of a block IF, by what it stands for.
fn write_if(
    alloc: Global,
    out: &mut Text,
    arms: &List<Arm>,
    other: &Option<List<Stmt>>,
) -> Result<(), Memory>
    ensures { OnOk result
        (out.new
        ≡ out.old ++ if_text (form_of_if (arm_trees arms.now) (else_tree other.now)) (arm_trees arms.now)) }
{
    match form_of_if(arms, other) {
        Form::Block => write_block_if(alloc, out, arms),
        Form::Reference(left, function, es) => write_reference(alloc, out, left, function, es),
        Form::DoWhile(_, test, _) => write_while(alloc, out, test),
    }
}

fn write_label_number(alloc: Global, out: &mut Text, label: u32) -> Result<(), Memory>
    ensures { OnOk result (out.new ≡ out.old ++ decimal label) }
{
    let text = format!(in alloc; "{label}")?;
    out.append(text.as_bytes())
}

/// Appends the text of a statement, from column 7 on, without its label and its blocks: of a block IF the first test, of a DO
/// its variable and parameters, of a logical IF also its statement. A block IF that stands for another statement has the line of that.
#[tactic(auto, using(crate::proofs::TextLemmas::what_steps))]
pub fn write_statement(alloc: Global, out: &mut Text, what: &What) -> Result<(), Memory>
    ensures { OnOk result (out.new ≡ out.old ++ what_text (what_tree what.now)) }
{
    match what {
        What::Assign(v, e) => {
            write_expr(alloc, out, v)?;
            out.append(b" = ")?;
            write_expr(alloc, out, e)
        }
        What::If(arms, other) => write_if(alloc, out, arms, other),
        What::LogicalIf(e, s) => {
            out.append(b"IF (")?;
            write_expr(alloc, out, e)?;
            out.append(b") ")?;
            write_statement(alloc, out, &s.what)
        }
        What::Do(l) => write_loop(alloc, out, l),
        What::Call(n, es) => {
            out.append(b"CALL ")?;
            out.append(n.as_slice())?;
            write_actuals(alloc, out, es)
        }
        What::Goto(label) => {
            out.append(b"GO TO ")?;
            write_label_number(alloc, out, *label)
        }
        What::Continue => out.append(b"CONTINUE"),
        What::Return => out.append(b"RETURN"),
        What::Stop(message) => {
            out.append(b"STOP")?;
            write_message(out, message)
        }
        What::Print(es) => {
            out.append(b"PRINT *")?;
            write_items(alloc, out, es)
        }
        What::Read(es) => {
            out.append(b"READ *")?;
            write_items(alloc, out, es)
        }
    }
}
