//! The difference of two systems: the first with each negation of a row of the second, as one system or in parts.
ghost use Rattle.std.specs.Prelude.{◌≡◌, IfOk, IfSome};
ghost use Rattle.affine_systems.specs.Given.{Fits};
ghost use Rattle.hull_projection.specs.Minus.{AllFit, minus as minus_is, apart as apart_is};
ghost use Rattle.hull_projection.specs.Laws.{HasOutside, HasNothingElse, HasParts};

use crate::hulls::{copy_system, either};
use crate::parts::{Minus, cleaned_parts, joined_parts, parts};
use crate::refutation::refuted;
use affine_systems::{System, meet};
use fx_lists::List;
use std::alloc::{AllocError as Memory, Global};

fn difference(alloc: Global, one: &System, other: &System) -> Result<Minus, Memory>
    requires fits { Fits one.now }
    requires other_fits { Fits other.now }
    ensures defined { IfOk result (λ m. m ≡ minus_is one.now other.now) }
    ensures fits { IfOk result (λ m. IfSome m.system Fits) }
{
    let both = meet(alloc, one, other)?;
    if refuted(alloc, &both)? {
        return Ok(Minus {
            system: Some(copy_system(alloc, one)?),
            exact: true,
        });
    }
    let parts = parts(alloc, one, other.rows.as_slice())?;
    joined_parts(alloc, parts, either(one.weak, other.weak))
}

/// A system that has the points of the first system that are not of the second: the hull of the first with each
/// negation of a row of the second. No system where each of these is refuted; a copy of the first where the two
/// together are. One system for each negation, and a hull for each but the first. Memory also where the numbers of
/// auxiliary variables reach 2^32.
pub fn minus(alloc: Global, one: &System, other: &System) -> Result<Minus, Memory>
    requires fits { Fits one.now }
    requires other_fits { Fits other.now }
    ensures defined { IfOk result (λ m. m ≡ minus_is one.now other.now) }
    ensures fits { IfOk result (λ m. IfSome m.system Fits) }
    ensures sound { IfOk result (HasOutside one.now other.now) }
    ensures exact { IfOk result (HasNothingElse one.now other.now) }
{
    difference(alloc, one, other)
}

fn parts_outside(alloc: Global, a: &System, b: &System) -> Result<List<System>, Memory>
    requires fits { Fits a.now }
    requires other_fits { Fits b.now }
    ensures defined { IfOk result (λ ss. ss ≡ apart_is a.now b.now) }
    ensures fits { IfOk result AllFit }
{
    let parts = parts(alloc, a, b.rows.as_slice())?;
    cleaned_parts(alloc, parts.as_slice())
}

/// The points of a that are not of b, as a union: a with each negation of a row of b, cleaned, without those that are
/// refuted. An equal row has two negations. Parts can have points in common. One refutation for each negation, and a
/// cleaning for each part.
pub fn apart(alloc: Global, a: &System, b: &System) -> Result<List<System>, Memory>
    requires fits { Fits a.now }
    requires other_fits { Fits b.now }
    ensures defined { IfOk result (λ ss. ss ≡ apart_is a.now b.now) }
    ensures fits { IfOk result AllFit }
    ensures sound { IfOk result (HasParts a.now b.now) }
{
    parts_outside(alloc, a, b)
}
