//! The lines of statements, in the order of the text.
ghost use Rattle.std.specs.Prelude.{◌≡◌, ◌++◌, IfOk, option_copied};
ghost use Rattle.f77_ast.specs.PlainStmt.{stmt_trees};
ghost use Rattle.result_lines.specs.ScalarLines.{said as said_is, holds_lines, does_lines, changes_lines, list_lines};
ghost use Rattle.result_lines.specs.ClaimSpots.{spot_lines};

use crate::spots::{LineSpot, line_spots};
use affine_systems::System;
use f77_ast::{At, Stmt, StmtId};
use f77_printer::Added;
use fx_lists::{List, Text};
use std::alloc::{AllocError as Memory, Global};
use system_text::{precondition_line, transformer_line};
use transformers::transformer_algebra::Transformer;
use transformers::value_at;

/// What is known of a module: the names of its symbols in order, the first of which has number 1, the transformers of its statements, and
/// their preconditions.
#[derive(Drop)]
pub struct Said<'a> {
    pub names: &'a [Text],
    pub own: &'a List<At<Transformer>>,
    pub pre: &'a List<At<System>>,
}

/// The line of what holds at a statement.
fn put_holds(
    alloc: Global,
    names: &[Text],
    before: StmtId,
    holds: Option<&System>,
    out: &mut List<Added>,
) -> Result<(), Memory>
    ensures { IfOk result (λ _. out.new ≡ out.old ++ holds_lines names.now before (option_copied holds.entry)) }
{
    match holds {
        None => Ok(()),
        Some(system) => {
            let line = precondition_line(alloc, names, system)?;
            out.push(Added { before, line })
        }
    }
}

/// Appends the line of what a transformer may change, before the statement with a number; none where it changes no analysed scalar.
pub fn put_changes(
    alloc: Global,
    names: &[Text],
    before: StmtId,
    t: &Transformer,
    out: &mut List<Added>,
) -> Result<(), Memory>
    ensures { IfOk result (λ _. out.new ≡ out.old ++ changes_lines names.now before t.now.cells t.now.system) }
{
    if t.cells.is_empty() {
        return Ok(());
    }
    let line = transformer_line(alloc, names, t.cells.as_slice(), &t.system)?;
    out.push(Added { before, line })
}

fn put_does(
    alloc: Global,
    names: &[Text],
    before: StmtId,
    does: Option<&Transformer>,
    out: &mut List<Added>,
) -> Result<(), Memory>
    ensures { IfOk result (λ _. out.new ≡ out.old ++ does_lines names.now before (option_copied does.entry)) }
{
    match does {
        None => Ok(()),
        Some(t) => put_changes(alloc, names, before, t, out),
    }
}

/// The lines of a statement.
fn put_own(
    alloc: Global,
    said: &Said<'_>,
    spot: &LineSpot,
    out: &mut List<Added>,
) -> Result<(), Memory>
    ensures { IfOk result (λ _. out.new ≡ out.old ++ spot_lines (said_is said.now.names.now said.now.own.now said.now.pre.now) spot.now) }
{
    let before = spot.before;
    put_holds(alloc, said.names, before, value_at(said.pre, before), out)?;
    if spot.changes {
        put_does(alloc, said.names, before, value_at(said.own, before), out)?;
    }
    Ok(())
}

/// Appends the lines of the statements of a list, and of their parts, in the order of the text.
#[tactic(auto, using(crate::proofs::ClaimLineLaws::list_steps))]
pub fn put_list(
    alloc: Global,
    said: &Said<'_>,
    list: &List<Stmt>,
    out: &mut List<Added>,
) -> Result<(), Memory>
    ensures { IfOk result (λ _. out.new ≡ out.old ++ list_lines (stmt_trees list.now) (said_is said.now.names.now said.now.own.now said.now.pre.now)) }
{
    let spots = line_spots(alloc, list)?;
    for spot in spots.as_slice() {
        put_own(alloc, said, spot, out)?;
    }
    Ok(())
}
