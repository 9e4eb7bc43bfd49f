//! The blocks of a module, DOs and block IFs, as its statements open and close them. Places of statements count all statements of
//! the module from 0, places of lists are those in `Blocks::spans`.
ghost use Rattle.std.specs.Prelude.{◌≡◌, ◌<◌, ◌≤◌, ◌+◌, ◌-◌, ◌^◌, length, IfOk};
ghost use Rattle.f77_structure.specs.Lists.{first_of};
ghost use Rattle.f77_structure.specs.Blocks.{close_list, leave_innermost, ended_by, refuse_unclosed, down_to, push_block, enter_block, stray, list_at, add_landing, parse_executable, keep_jump};

use crate::mark::Action;
use crate::open::{End, Kind, Open, Sought, Span, within_do, within_if};
use crate::stack::Stack;
use fx_lists::{Code, List, Refusal, refuse_if};
use std::alloc::AllocError as Memory;

/// How deep blocks, and parentheses, may be nested.
pub const DEEPEST: usize = 64;

/// The label of an executable statement, and the place of the list that has the statement.
#[derive(Clone, Copy, Debug)]
pub struct Landing {
    pub label: u32,
    pub list: usize,
}

/// A GO TO: the first line of its statement, its label, and the place of its statement.
#[derive(Clone, Copy, Debug)]
pub struct Jump {
    pub line: u32,
    pub label: u32,
    pub place: usize,
}

/// The blocks of a module after some of its statements.
#[derive(Debug, Drop)]
pub struct Blocks {
    /// The place of the present statement.
    pub place: usize,
    /// The open blocks, the innermost first.
    pub stack: Stack<Open>,
    /// The lists of statements in the order in which they begin, the module's own first.
    pub spans: List<Span>,
    /// The labels of executable statements, in the order of the text.
    pub landings: List<Landing>,
    /// The GO TOs, in the order of the text.
    pub jumps: List<Jump>,
    /// The first refusal so far.
    pub found: Option<Refusal>,
}

/// The list of a block ends at a place.
fn close_list(mut spans: List<Span>, block: Open, place: usize) -> List<Span>
    ensures { result ≡ close_list block place spans }
{
    if block.list < spans.len() {
        spans.set(
            block.list,
            Span {
                from: block.from,
                end: End::At(place),
            },
        );
    }
    spans
}

/// Ends the innermost block, if there is one, and its list at the present statement.
pub fn leave_innermost(blocks: Blocks) -> Blocks
    ensures defined { result ≡ leave_innermost blocks }
    ensures shorter { length result.stack ≡ length blocks.stack - 1 }
{
    let Blocks {
        place,
        mut stack,
        spans,
        landings,
        jumps,
        found,
    } = blocks;
    let spans = match stack.pop() {
        None => spans,
        Some(block) => close_list(spans, block, place),
    };
    Blocks {
        place,
        stack,
        spans,
        landings,
        jumps,
        found,
    }
}

/// Ends the innermost DOs as long as their last statement is to have this label (ANSI X3.9-1978 §11.10).
#[tactic(auto, using(crate::proofs::BlockLemmas::ending))]
pub fn ended_by(blocks: Blocks, label: u32) -> Blocks
    ensures { result ≡ ended_by label blocks.stack blocks }
{
    let mut blocks = blocks;
    while let Some(block) = blocks.stack.first() {
        if !block.kind.ends_at(label) {
            return blocks;
        }
        blocks = leave_innermost(blocks);
    }
    blocks
}

/// A block without its end.
fn refuse_unclosed(block: Open, found: Option<Refusal>) -> Option<Refusal>
    ensures { result ≡ refuse_unclosed block found }
{
    let code = if block.kind.is_if() {
        Code::UnclosedIf
    } else {
        Code::UnclosedDo
    };
    refuse_if(!block.spoiled, block.line, code, found)
}

/// Ends the innermost blocks, up to the first that is sought, as blocks without their ends: a block IF is refused with
/// `UnclosedIf`, a DO with `UnclosedDo` unless it is spoiled.
#[tactic(auto, using(crate::proofs::BlockLemmas::descending))]
pub fn down_to(blocks: Blocks, sought: Sought) -> Blocks
    ensures { result ≡ down_to sought blocks.stack blocks }
{
    let mut blocks = blocks;
    while let Some(block) = blocks.stack.first() {
        if sought.fits(block.kind) {
            return blocks;
        }
        let found = refuse_unclosed(block, blocks.found);
        blocks = leave_innermost(with_found(blocks, found));
    }
    blocks
}

/// The blocks with another first refusal.
pub fn with_found(blocks: Blocks, found: Option<Refusal>) -> Blocks
    ensures { result ≡ record blocks { found = found } }
{
    Blocks { found, ..blocks }
}

/// Opens a block, and its list at the present statement. `line` is that of its opening.
pub fn push_block(blocks: Blocks, kind: Kind, line: u32) -> Result<Blocks, Memory>
    ensures { IfOk result (λ b. b ≡ push_block kind line blocks) }
{
    let Blocks {
        place,
        stack,
        mut spans,
        landings,
        jumps,
        found,
    } = blocks;
    let innermost = stack.first();
    let block = Open {
        kind,
        line,
        list: spans.len(),
        from: place,
        spoiled: false,
        in_if: within_if(innermost),
        in_do: within_do(innermost),
    };
    spans.push(Span {
        from: place,
        end: End::Open,
    })?;
    Ok(Blocks {
        place,
        stack: stack.with_first(block)?,
        spans,
        landings,
        jumps,
        found,
    })
}

/// Opens a block, and refuses it with `TooDeep` where 64 are open.
pub fn enter_block(blocks: Blocks, kind: Kind, line: u32) -> Result<Blocks, Memory>
    ensures { IfOk result (λ b. b ≡ enter_block kind line blocks) }
{
    let deep = DEEPEST <= blocks.stack.len();
    let found = refuse_if(deep, line, Code::TooDeep, blocks.found);
    push_block(with_found(blocks, found), kind, line)
}

/// Refuses a statement that is out of place with `StrayPart`.
pub fn stray(blocks: Blocks, line: u32) -> Blocks
    ensures { result ≡ stray line blocks }
{
    let found = refuse_if(true, line, Code::StrayPart, blocks.found);
    with_found(blocks, found)
}

fn list_at(innermost: Option<Open>) -> usize
    ensures { result ≡ list_at innermost }
{
    match innermost {
        None => 0,
        Some(block) => block.list,
    }
}

/// Records the label of an executable statement, where it has one, for the innermost list.
pub fn add_landing(blocks: Blocks, label: Option<u32>) -> Result<Blocks, Memory>
    ensures { IfOk result (λ b. b ≡ add_landing label blocks) }
{
    match label {
        None => Ok(blocks),
        Some(label) => {
            let Blocks {
                place,
                stack,
                spans,
                mut landings,
                jumps,
                found,
            } = blocks;
            landings.push(Landing {
                label,
                list: list_at(stack.first()),
            })?;
            Ok(Blocks {
                place,
                stack,
                spans,
                landings,
                jumps,
                found,
            })
        }
    }
}

/// Records the label of an executable statement that opens no block, and ends the DOs whose last statement it is.
#[tactic(auto, unfolding(crate::specs::Blocks::parse_executable))]
pub fn parse_executable(blocks: Blocks, label: Option<u32>) -> Result<Blocks, Memory>
    ensures { IfOk result (λ b. b ≡ parse_executable label blocks) }
{
    let blocks = add_landing(blocks, label)?;
    match label {
        None => Ok(blocks),
        Some(label) => Ok(ended_by(blocks, label)),
    }
}

/// Records a GO TO, which is checked when all labels are known. Another action changes nothing.
pub fn keep_jump(blocks: Blocks, action: Action, line: u32) -> Result<Blocks, Memory>
    ensures { IfOk result (λ b. b ≡ keep_jump action line blocks) }
{
    match action {
        Action::Return | Action::Stop | Action::Other => Ok(blocks),
        Action::Goto(label) => {
            let Blocks {
                place,
                stack,
                spans,
                landings,
                mut jumps,
                found,
            } = blocks;
            jumps.push(Jump { line, label, place })?;
            Ok(Blocks {
                place,
                stack,
                spans,
                landings,
                jumps,
                found,
            })
        }
    }
}
