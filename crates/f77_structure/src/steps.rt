//! What one statement changes of the blocks of its module.
ghost use Rattle.std.specs.Prelude.{◌≡◌, IfOk};
ghost use Rattle.f77_structure.specs.Lists.{first_of};
ghost use Rattle.f77_structure.specs.Steps.{is_else, next_arm, part, end_block, by_role, parse_statement, blocks_of};

use crate::blocks::{
    Blocks, add_landing, down_to, enter_block, keep_jump, leave_innermost, parse_executable,
    push_block, stray,
};
use crate::mark::{Mark, Role};
use crate::open::{End, Kind, Sought, Span, within_do, within_if};
use crate::stack::Stack;
use crate::terminals::spoiled_by;
use fx_lists::List;
use std::alloc::{AllocError as Memory, Global};

fn is_else(kind: Kind) -> bool
    ensures { result ≡ is_else kind }
{
    match kind {
        Kind::Do(_) => false,
        Kind::If => false,
        Kind::Else => true,
    }
}

/// The innermost block, an IF, goes on with another list.
fn next_arm(blocks: Blocks, next: Kind, line: u32) -> Result<Blocks, Memory>
    ensures { IfOk result (λ b. b ≡ next_arm next line (first_of blocks.stack) blocks) }
{
    match blocks.stack.first() {
        None => Ok(stray(blocks, line)),
        Some(block) => {
            if is_else(block.kind) {
                return Ok(stray(blocks, line));
            }
            push_block(leave_innermost(blocks), next, block.line)
        }
    }
}

/// An ELSE or ELSE IF.
fn part(blocks: Blocks, next: Kind, line: u32) -> Result<Blocks, Memory>
    ensures { IfOk result (λ b. b ≡ part next line blocks) }
{
    if within_if(blocks.stack.first()) {
        next_arm(down_to(blocks, Sought::BlockIf), next, line)
    } else {
        Ok(stray(blocks, line))
    }
}

/// The end of the innermost block that is sought, where it stands in one.
fn end_block(blocks: Blocks, sought: Sought, within: bool, line: u32) -> Blocks
    ensures { result ≡ end_block sought within line blocks }
{
    if within {
        leave_innermost(down_to(blocks, sought))
    } else {
        stray(blocks, line)
    }
}

/// What the statement opens, divides and ends.
fn by_role(blocks: Blocks, mark: Mark) -> Result<Blocks, Memory>
    ensures { IfOk result (λ b. b ≡ by_role mark.role mark.label mark.line blocks) }
{
    let Mark { label, line, .. } = mark;
    match mark.role {
        Role::Program | Role::Subroutine | Role::Specification => Ok(blocks),
        Role::Plain(action) | Role::LogicalIf(action) => {
            parse_executable(keep_jump(blocks, action, line)?, label)
        }
        Role::BlockIf => enter_block(add_landing(blocks, label)?, Kind::If, line),
        Role::Do(end) => enter_block(add_landing(blocks, label)?, Kind::Do(end), line),
        Role::ElseIf => part(blocks, Kind::If, line),
        Role::Else => part(blocks, Kind::Else, line),
        Role::EndIf => {
            let within = within_if(blocks.stack.first());
            parse_executable(end_block(blocks, Sought::BlockIf, within, line), label)
        }
        Role::EndDo => {
            let blocks = parse_executable(blocks, label)?;
            let within = within_do(blocks.stack.first());
            Ok(end_block(blocks, Sought::PlainDo, within, line))
        }
        Role::End => Ok(down_to(parse_executable(blocks, label)?, Sought::Neither)),
    }
}

/// The statement at a place.
#[tactic(auto, unfolding(crate::specs::Steps::parse_statement))]
fn parse_statement(
    alloc: Global,
    blocks: Blocks,
    place: usize,
    mark: Mark,
) -> Result<Blocks, Memory>
    ensures { IfOk result (λ b. b ≡ parse_statement place mark blocks) }
{
    let blocks = Blocks { place, ..blocks };
    by_role(spoiled_by(alloc, blocks, mark)?, mark)
}

/// The blocks, lists, labels and GO TOs of a module after all its statements, and the first refusal of the blocks. The GO TOs are
/// not checked here.
pub fn blocks_of(alloc: Global, marks: &[Mark]) -> Result<Blocks, Memory>
    ensures { IfOk result (λ b. b ≡ blocks_of marks.now) }
{
    let mut spans = List::new(alloc);
    spans.push(Span {
        from: 0,
        end: End::Open,
    })?;
    let mut blocks = Blocks {
        place: 0,
        stack: Stack::new(alloc),
        spans,
        landings: List::new(alloc),
        jumps: List::new(alloc),
        found: None,
    };
    let mut place = 0;
    let mut rest = marks;
    while let [mark, more @ ..] = rest {
        blocks = parse_statement(alloc, blocks, place, *mark)?;
        place += 1;
        rest = more;
    }
    Ok(blocks)
}
