//! Specification statements. A reader takes a stripped statement from its front, and its Err is `Syntax` where the text is not
//! of the form; in a form `[..]` need not be there.
ghost use Rattle.std.specs.Prelude.{◌≡◌, ℕ};
ghost use Rattle.f77_ast.specs.PlainDecl.{decl_tree};
ghost use Rattle.f77_exprs.specs.State.{state, GivesAs};
ghost use Rattle.f77_statements.specs.Specifications.{implicit_parts, implicit_statement, integer_statement, logical_statement, dimension_statement, parameter_statement, common_statement, equivalence_statement, save_statement, data_statement};

use crate::common::{Blocks, NextBlock, first_block};
use crate::data::{DataGroups, NextGroup};
use crate::entities::{Arrays, Entities};
use crate::implicit::ImplicitParts;
use crate::lists::{items, items_before, items_by, items_left, more};
use crate::parts::{Groups, SaveItems, Settings};
use f77_ast::Decl;
use f77_exprs::{Cursor, Reading};
use fx_lists::List;
use std::alloc::Global;

#[tactic(auto, unfolding(crate::specs::Specifications::implicit_parts))]
fn implicit_parts(alloc: Global, at: Cursor<'_>) -> Reading<'_, Decl>
    ensures { GivesAs decl_tree result (implicit_parts (state at.entry)) }
{
    let (parts, at) = items::<ImplicitParts>(alloc, at)?;
    Ok((Decl::Implicit(Some(parts)), at))
}

/// `IMPLICITNONE`, or `IMPLICITt(a[-b],..),..` with INTEGER or LOGICAL as `t` (ANSI X3.9-1978 §8.5)
#[tactic(auto, unfolding(crate::specs::Specifications::implicit_statement))]
pub fn implicit_statement(alloc: Global, at: Cursor<'_>) -> Reading<'_, Decl>
    ensures { GivesAs decl_tree result (implicit_statement (state at.entry)) }
{
    let at = at.need_word(b"IMPLICIT")?;
    match at.parse_word(b"NONE") {
        Some(rest) => Ok((Decl::Implicit(None), rest)),
        None => implicit_parts(alloc, at),
    }
}

/// `INTEGERn[(d,..)],..` (§8.4)
#[tactic(auto, unfolding(crate::specs::Specifications::integer_statement))]
pub fn integer_statement(alloc: Global, at: Cursor<'_>) -> Reading<'_, Decl>
    ensures { GivesAs decl_tree result (integer_statement (state at.entry)) }
{
    let at = at.need_word(b"INTEGER")?;
    let (entities, at) = items::<Entities>(alloc, at)?;
    Ok((Decl::Integer(entities), at))
}

/// `LOGICALn[(d,..)],..` (§8.4)
#[tactic(auto, unfolding(crate::specs::Specifications::logical_statement))]
pub fn logical_statement(alloc: Global, at: Cursor<'_>) -> Reading<'_, Decl>
    ensures { GivesAs decl_tree result (logical_statement (state at.entry)) }
{
    let at = at.need_word(b"LOGICAL")?;
    let (entities, at) = items::<Entities>(alloc, at)?;
    Ok((Decl::Logical(entities), at))
}

/// `DIMENSIONn(d,..),..` (§8.1)
#[tactic(auto, unfolding(crate::specs::Specifications::dimension_statement))]
pub fn dimension_statement(alloc: Global, at: Cursor<'_>) -> Reading<'_, Decl>
    ensures { GivesAs decl_tree result (dimension_statement (state at.entry)) }
{
    let at = at.need_word(b"DIMENSION")?;
    let (arrays, at) = items::<Arrays>(alloc, at)?;
    Ok((Decl::Dimension(arrays), at))
}

/// `PARAMETER(n=e,..)` (§8.6)
#[tactic(auto, unfolding(crate::specs::Specifications::parameter_statement))]
pub fn parameter_statement(alloc: Global, at: Cursor<'_>) -> Reading<'_, Decl>
    ensures { GivesAs decl_tree result (parameter_statement (state at.entry)) }
{
    let at = at.need_word(b"PARAMETER(")?;
    let (settings, at) = items_before::<Settings>(alloc, b")", at)?;
    Ok((Decl::Parameter(settings), at))
}

/// `COMMON[/[n]/]m,..[[,]/[n]/m,..]..` (§8.3)
#[tactic(auto, unfolding(crate::specs::Specifications::common_statement))]
pub fn common_statement(alloc: Global, at: Cursor<'_>) -> Reading<'_, Decl>
    ensures { GivesAs decl_tree result (common_statement (state at.entry)) }
{
    let at = at.need_word(b"COMMON")?;
    let (first, at) = first_block(alloc, at)?;
    let mut found = List::new(alloc);
    found.push(first)?;
    let (blocks, at) = more::<Blocks, NextBlock>(alloc, found, at)?;
    Ok((Decl::Common(blocks), at))
}

/// `EQUIVALENCE(v,v,..),..` (§8.2)
#[tactic(auto, unfolding(crate::specs::Specifications::equivalence_statement))]
pub fn equivalence_statement(alloc: Global, at: Cursor<'_>) -> Reading<'_, Decl>
    ensures { GivesAs decl_tree result (equivalence_statement (state at.entry)) }
{
    let at = at.need_word(b"EQUIVALENCE")?;
    let (groups, at) = items::<Groups>(alloc, at)?;
    Ok((Decl::Equivalence(groups), at))
}

/// `SAVE`, alone or with names and `/n/`, separated by commas (§8.9)
#[tactic(auto, unfolding(crate::specs::Specifications::save_statement))]
pub fn save_statement(alloc: Global, at: Cursor<'_>) -> Reading<'_, Decl>
    ensures { GivesAs decl_tree result (save_statement (state at.entry)) }
{
    let at = at.need_word(b"SAVE")?;
    let (saved, at) = items_left::<SaveItems>(alloc, at)?;
    Ok((Decl::Save(saved), at))
}

/// `DATAv,../c,../[[,]v,../c,../]..` (§9)
#[tactic(auto, unfolding(crate::specs::Specifications::data_statement))]
pub fn data_statement(alloc: Global, at: Cursor<'_>) -> Reading<'_, Decl>
    ensures { GivesAs decl_tree result (data_statement (state at.entry)) }
{
    let at = at.need_word(b"DATA")?;
    let (groups, at) = items_by::<DataGroups, NextGroup>(alloc, at)?;
    Ok((Decl::Data(groups), at))
}
