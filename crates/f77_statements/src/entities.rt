//! Names with their dimension declarators (ANSI X3.9-1978 §5.1.1).
ghost use Rattle.std.specs.Prelude.{◌≡◌, ℕ};
ghost use Rattle.f77_ast.specs.Plain.{expr_tree};
ghost use Rattle.f77_ast.specs.DeclTrees.{ExtentTree, EntityTree};
ghost use Rattle.f77_ast.specs.PlainDecl.{extent_tree, entity_tree};
ghost use Rattle.f77_exprs.specs.State.{state, GivesAs};
ghost use Rattle.f77_statements.specs.Parts.{upper, extent, bounds, entity, array};

use crate::lists::{Rule, items_before};
use f77_ast::{Entity, Expr, Extent};
use f77_exprs::{Cursor, Reading, expression, name_at};
use fx_lists::{List, Text};
use std::alloc::Global;

/// What follows a lower bound and its colon.
#[tactic(auto, unfolding(crate::specs::Parts::upper))]
fn upper<'a>(alloc: Global, low: Expr, at: Cursor<'a>) -> Reading<'a, Extent>
    ensures { GivesAs extent_tree result (upper (expr_tree low) (state at.entry)) }
{
    let low = Some(low);
    match at.parse_word(b"*") {
        Some(rest) => Ok((Extent { low, high: None }, rest)),
        None => {
            let (high, rest) = expression(alloc, at)?;
            let high = Some(high);
            Ok((Extent { low, high }, rest))
        }
    }
}

/// A dimension declarator: `[e:]e`, or `*` for the upper bound.
pub enum Extents {}

impl Rule for Extents {
    type Value = Extent;

    ghost Tree = { ExtentTree };

    ghost tree = { extent_tree };

    ghost rule = { extent };

    #[tactic(auto, unfolding(crate::specs::Parts::extent))]
    fn read<'a>(alloc: Global, at: Cursor<'a>) -> Reading<'a, Extent> {
        if let Some(rest) = at.parse_word(b"*") {
            let none = Extent {
                low: None,
                high: None,
            };
            return Ok((none, rest));
        }
        let (first, at) = expression(alloc, at)?;
        match at.parse_word(b":") {
            Some(rest) => upper(alloc, first, rest),
            None => {
                let high = Some(first);
                Ok((Extent { low: None, high }, at))
            }
        }
    }
}

/// The bounds of a name behind their opening parenthesis.
#[tactic(auto, unfolding(crate::specs::Parts::bounds))]
fn bounds<'a>(alloc: Global, name: Text, at: Cursor<'a>) -> Reading<'a, Entity>
    ensures { GivesAs entity_tree result (bounds name (state at.entry)) }
{
    let (bounds, at) = items_before::<Extents>(alloc, b")", at)?;
    Ok((Entity { name, bounds }, at))
}

/// A name, with bounds in parentheses or without.
pub enum Entities {}

impl Rule for Entities {
    type Value = Entity;

    ghost Tree = { EntityTree };

    ghost tree = { entity_tree };

    ghost rule = { entity };

    #[tactic(auto, unfolding(crate::specs::Parts::entity))]
    fn read<'a>(alloc: Global, at: Cursor<'a>) -> Reading<'a, Entity> {
        let (name, at) = name_at(alloc, at)?;
        match at.parse_word(b"(") {
            Some(rest) => bounds(alloc, name, rest),
            None => {
                let bounds = List::new(alloc);
                Ok((Entity { name, bounds }, at))
            }
        }
    }
}

/// A name with bounds in parentheses.
pub enum Arrays {}

impl Rule for Arrays {
    type Value = Entity;

    ghost Tree = { EntityTree };

    ghost tree = { entity_tree };

    ghost rule = { array };

    #[tactic(auto, unfolding(crate::specs::Parts::array))]
    fn read<'a>(alloc: Global, at: Cursor<'a>) -> Reading<'a, Entity> {
        let (name, at) = name_at(alloc, at)?;
        let at = at.need_word(b"(")?;
        bounds(alloc, name, at)
    }
}
