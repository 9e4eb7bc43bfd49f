//! The blocks of COMMON (ANSI X3.9-1978 §8.3).
ghost use Rattle.std.specs.Prelude.{◌≡◌, ℕ, [], option_map};
ghost use Rattle.f77_ast.specs.DeclTrees.{CommonTree};
ghost use Rattle.f77_ast.specs.PlainDecl.{common_tree};
ghost use Rattle.f77_exprs.specs.State.{state, GivesAs};
ghost use Rattle.f77_statements.specs.Parts.{member_comma, members, block, first_block, next_block};

use crate::entities::Entities;
use crate::lists::{Rule, Separator, items_by};
use crate::parts::block_name;
use f77_ast::CommonPart;
use f77_exprs::{Cursor, Reading};
use fx_lists::Text;
use std::alloc::Global;

/// The comma between two members of a block: not the one before the slash of the next block.
enum MemberComma {}

impl Separator for MemberComma {
    ghost between = { member_comma };

    fn next<'a>(at: Cursor<'a>) -> Option<Cursor<'a>> {
        match at.parse_word(b",/") {
            Some(_) => None,
            None => at.parse_word(b","),
        }
    }
}

#[tactic(auto, unfolding(crate::specs::Parts::members))]
fn members<'a>(alloc: Global, block: Text, at: Cursor<'a>) -> Reading<'a, CommonPart>
    ensures { GivesAs common_tree result (members block (state at.entry)) }
{
    let (members, at) = items_by::<Entities, MemberComma>(alloc, at)?;
    Ok((CommonPart { block, members }, at))
}

/// A block from after its first slash, and its members: `n/m,..`, or `/m,..` for the blank one.
pub enum Blocks {}

impl Rule for Blocks {
    type Value = CommonPart;

    ghost Tree = { CommonTree };

    ghost tree = { common_tree };

    ghost rule = { block };

    #[tactic(auto, unfolding(crate::specs::Parts::block))]
    fn read<'a>(alloc: Global, at: Cursor<'a>) -> Reading<'a, CommonPart> {
        match at.parse_word(b"/") {
            Some(rest) => members(alloc, Text::new(alloc), rest),
            None => {
                let (name, at) = block_name(alloc, at)?;
                members(alloc, name, at)
            }
        }
    }
}

/// The first block of a COMMON, and its members; without slashes it is the blank one. Err is `Syntax` where none is at the front.
#[tactic(auto, unfolding(crate::specs::Parts::first_block))]
pub fn first_block(alloc: Global, at: Cursor<'_>) -> Reading<'_, CommonPart>
    ensures { GivesAs common_tree result (first_block (state at.entry)) }
{
    match at.parse_word(b"/") {
        Some(rest) => Blocks::read(alloc, rest),
        None => members(alloc, Text::new(alloc), at),
    }
}

/// The first slash of the next block, after a comma or without.
pub enum NextBlock {}

impl Separator for NextBlock {
    ghost between = { next_block };

    fn next<'a>(at: Cursor<'a>) -> Option<Cursor<'a>> {
        match at.parse_word(b",/") {
            Some(rest) => Some(rest),
            None => at.parse_word(b"/"),
        }
    }
}
