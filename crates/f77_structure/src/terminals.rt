//! Labelled DOs that end at a statement that may not end one (ANSI X3.9-1978 §11.10).
ghost use Rattle.std.specs.Prelude.{◌≡◌, IfOk};
ghost use Rattle.f77_structure.specs.Terminals.{put_back, spoiled_run, ends_one, spoil, spoil_around, spoil_part, is_forbidden, is_part, spoiled_by};

use crate::blocks::Blocks;
use crate::mark::{Action, Mark, Role};
use crate::open::Open;
use crate::stack::Stack;
use fx_lists::{Code, refuse_if};
use std::alloc::{AllocError as Memory, Global};

/// Puts blocks that were taken off, the last one first, back on the others.
fn put_back(taken: Stack<Open>, rest: Stack<Open>) -> Result<Stack<Open>, Memory>
    ensures { IfOk result (λ all. all ≡ put_back taken rest) }
{
    let mut taken = taken;
    let mut rest = rest;
    while let Some(block) = taken.pop() {
        rest = rest.with_first(block)?;
    }
    Ok(rest)
}

/// The innermost DOs with this label have their bad end.
fn spoiled_run(alloc: Global, stack: Stack<Open>, label: u32) -> Result<Stack<Open>, Memory>
    ensures { IfOk result (λ all. all ≡ spoiled_run label stack) }
{
    let mut taken = Stack::new(alloc);
    let mut rest = stack;
    while let Some(block) = rest.pop() {
        if !block.can_spoil(label) {
            return put_back(taken, rest.with_first(block)?);
        }
        taken = taken.with_first(Open {
            spoiled: true,
            ..block
        })?;
    }
    put_back(taken, rest)
}

/// Whether the innermost open block has its bad end at this label.
fn ends_one(innermost: Option<Open>, label: u32) -> bool
    ensures { result ≡ ends_one label innermost }
{
    match innermost {
        None => false,
        Some(block) => block.can_spoil(label),
    }
}

/// The statement stands in the list of the innermost block.
fn spoil(alloc: Global, blocks: Blocks, label: u32, line: u32) -> Result<Blocks, Memory>
    ensures { IfOk result (λ b. b ≡ spoil label line blocks) }
{
    let Blocks {
        place,
        stack,
        spans,
        landings,
        jumps,
        found,
    } = blocks;
    let wrong = ends_one(stack.first(), label);
    Ok(Blocks {
        place,
        stack: spoiled_run(alloc, stack, label)?,
        spans,
        landings,
        jumps,
        found: refuse_if(wrong, line, Code::BadTerminal, found),
    })
}

/// The statement is a part of the innermost block and stands in the list around it.
fn spoil_around(alloc: Global, blocks: Blocks, label: u32, line: u32) -> Result<Blocks, Memory>
    ensures { IfOk result (λ b. b ≡ spoil_around label line blocks) }
{
    let Blocks {
        place,
        mut stack,
        spans,
        landings,
        jumps,
        found,
    } = blocks;
    match stack.pop() {
        None => Ok(Blocks {
            place,
            stack,
            spans,
            landings,
            jumps,
            found,
        }),
        Some(block) => {
            let wrong = ends_one(stack.first(), label);
            let run = spoiled_run(alloc, stack, label)?;
            Ok(Blocks {
                place,
                stack: run.with_first(block)?,
                spans,
                landings,
                jumps,
                found: refuse_if(wrong, line, Code::BadTerminal, found),
            })
        }
    }
}

/// A part of a block IF, which may stand around the innermost block.
fn spoil_part(alloc: Global, blocks: Blocks, label: u32, line: u32) -> Result<Blocks, Memory>
    ensures { IfOk result (λ b. b ≡ spoil_part label line blocks) }
{
    match blocks.stack.first() {
        None => Ok(blocks),
        Some(block) => {
            if block.kind.is_if() {
                return spoil_around(alloc, blocks, label, line);
            }
            if block.in_if {
                return Ok(blocks);
            }
            spoil(alloc, blocks, label, line)
        }
    }
}

/// Whether a statement with a label may not be the last of a DO.
fn is_forbidden(role: Role) -> bool
    ensures { result ≡ is_forbidden role }
{
    match role {
        Role::Plain(action) => match action {
            Action::Goto(_) | Action::Return | Action::Stop => true,
            Action::Other => false,
        },
        Role::BlockIf | Role::Do(_) | Role::End => true,
        Role::Program
        | Role::Subroutine
        | Role::Specification
        | Role::LogicalIf(_)
        | Role::ElseIf
        | Role::Else
        | Role::EndIf
        | Role::EndDo => false,
    }
}

fn is_part(role: Role) -> bool
    ensures { result ≡ is_part role }
{
    match role {
        Role::ElseIf | Role::Else | Role::EndIf => true,
        Role::Program
        | Role::Subroutine
        | Role::Specification
        | Role::Plain(_)
        | Role::LogicalIf(_)
        | Role::BlockIf
        | Role::Do(_)
        | Role::EndDo
        | Role::End => false,
    }
}

/// Marks the DOs whose label is at a statement that may not end them as spoiled, and refuses that statement with `BadTerminal`.
/// Another statement changes nothing.
pub fn spoiled_by(alloc: Global, blocks: Blocks, mark: Mark) -> Result<Blocks, Memory>
    ensures { IfOk result (λ b. b ≡ spoiled_by mark.role mark.label mark.line blocks) }
{
    match mark.label {
        None => Ok(blocks),
        Some(label) => {
            if is_forbidden(mark.role) {
                return spoil(alloc, blocks, label, mark.line);
            }
            if is_part(mark.role) {
                return spoil_part(alloc, blocks, label, mark.line);
            }
            Ok(blocks)
        }
    }
}
