//! A system of the caller as one of the callee.
ghost use Rattle.std.specs.Prelude.{◌≡◌, IfOk};
ghost use Rattle.affine_systems.specs.Given.{Fits, IsGiven};
ghost use Rattle.affine_systems.specs.Rows.{AllRows};
ghost use Rattle.call_translation.specs.transformer_algebra.Renaming.{rename_all as rename_all_is};
ghost use Rattle.call_equations.specs.Sides.{sides_tree};
ghost use Rattle.region_translation.specs.Links.{LinkFits};
ghost use Rattle.region_translation.specs.Pieces.{names_of as names_of_is};
ghost use Rattle.region_translation.specs.CalleePieces.{joined as joined_is, without_caller as without_caller_is, piece_in_callee as piece_in_callee_is};

use crate::links::CalleeLink;
use crate::names::{are_own, names_of};
use crate::row_vars;
use crate::values::{going_away, value_rows};
use affine_forms::no_rows;
use affine_systems::items::copy_rows;
use affine_systems::{Row, System, Var};
use call_equations::CallSides;
use call_translation::transformer_algebra::{push_rows, rename_all};
use hull_projection::project;
use std::alloc::{AllocError as Memory, Global};

/// With the names of its variables.
fn with_names(
    alloc: Global,
    moved: bool,
    rank: u32,
    vars: &[Var],
    s: &System,
) -> Result<System, Memory>
    requires { Fits s.now }
    ensures defined { IfOk result (λ t. t ≡ rename_all_is (names_of_is moved rank vars.now) s.now) }
    ensures fits { IfOk result Fits }
{
    let names = names_of(alloc, moved, rank, vars)?;
    rename_all(alloc, s, names.as_slice())
}

fn without_caller(alloc: Global, sides: &CallSides<'_>, s: &System) -> Result<System, Memory>
    requires { Fits s.now }
    ensures defined { IfOk result (λ t. t ≡ without_caller_is (sides_tree sides.now) s.now) }
    ensures fits { IfOk result Fits }
{
    let vars = row_vars(alloc, s.rows.as_slice())?;
    let gone = going_away(alloc, sides, vars.as_slice())?;
    Ok(project(alloc, s, &gone)?.system)
}

/// With the equations, and what the scalar dummies are.
fn joined(
    alloc: Global,
    sides: &CallSides<'_>,
    rank: u32,
    rows: &[Row],
    s: &System,
) -> Result<System, Memory>
    requires piece { Fits s.now }
    requires rows { AllRows IsGiven rows.now }
    ensures defined { IfOk result (λ t. t ≡ joined_is (sides_tree sides.now) rank rows.now s.now) }
    ensures fits { IfOk result Fits }
{
    let linked = push_rows(alloc, s, copy_rows(alloc, rows)?)?;
    push_rows(alloc, &linked, value_rows(alloc, sides, rank)?)
}

/// A system of the caller's variable, which has `rank` subscripts, as one of the callee's variable of a link: with its equations and what scalar
/// dummies are, and without all that is not the callee's.
pub fn piece_in_callee(
    alloc: Global,
    sides: &CallSides<'_>,
    rank: u32,
    link: &CalleeLink,
    s: &System,
) -> Result<System, Memory>
    requires piece { Fits s.now }
    requires link { LinkFits link.now }
    ensures defined { IfOk result (λ t. t ≡ piece_in_callee_is (sides_tree sides.now) link.now.moved rank link.now.rows s.now) }
    ensures fits { IfOk result Fits }
{
    let vars = row_vars(alloc, s.rows.as_slice())?;
    if !are_own(link.moved, rank, vars.as_slice()) {
        return Ok(no_rows(alloc));
    }
    let named = with_names(alloc, link.moved, rank, vars.as_slice(), s)?;
    let valued = joined(alloc, sides, rank, link.rows.as_slice(), &named)?;
    without_caller(alloc, sides, &valued)
}
