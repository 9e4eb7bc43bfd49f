//! One region for two of a variable and kind.
ghost use Rattle.std.specs.Prelude.{◌≡◌, ◌++◌, ◌&&◌, IfOk};
ghost use Rattle.hull_projection.specs.Minus.{AllFit};
ghost use Rattle.region_sets.specs.Regions.{RegionFits};
ghost use Rattle.region_sets.specs.Unite.{unite as unite_is};
ghost use Rattle.region_sets.specs.Laws.{HasBoth, IsOneExact};

use crate::Region;
use crate::region::{push_copies, with_flag};
use crate::trimming::trimmed_to;
use crate::within::all_within;
use affine_systems::System;
use fx_lists::List;
use std::alloc::{AllocError as Memory, Global};

/// Copies of the pieces of both.
fn pieces_of_both(alloc: Global, a: &Region, b: &Region) -> Result<List<System>, Memory>
    requires first { RegionFits a.now }
    requires second { RegionFits b.now }
    ensures defined { IfOk result (λ ss. ss ≡ a.now.pieces ++ b.now.pieces) }
    ensures fits { IfOk result AllFit }
{
    let mut all = List::new(alloc);
    push_copies(&mut all, a.pieces.as_slice())?;
    push_copies(&mut all, b.pieces.as_slice())?;
    Ok(all)
}

fn union_of(alloc: Global, a: &Region, b: &Region) -> Result<Region, Memory>
    requires first { RegionFits a.now }
    requires second { RegionFits b.now }
    ensures defined { IfOk result (λ r. r ≡ unite_is a.now b.now) }
    ensures fits { IfOk result RegionFits }
{
    if all_within(alloc, a.pieces.as_slice(), b.pieces.as_slice())? {
        return with_flag(alloc, a, a.exact);
    }
    if all_within(alloc, b.pieces.as_slice(), a.pieces.as_slice())? {
        return with_flag(alloc, b, b.exact);
    }
    let pieces = pieces_of_both(alloc, a, b)?;
    trimmed_to(alloc, a, a.exact && b.exact, pieces)
}

/// One region for two of the same variable and kind: a copy of the one in whose systems those of the other are shown to be, else one with the systems
/// of both, trimmed, which is exact where both are and no hull was taken. Each system of one is compared with those of the other.
pub fn unite(alloc: Global, a: &Region, b: &Region) -> Result<Region, Memory>
    requires first { RegionFits a.now }
    requires second { RegionFits b.now }
    ensures defined { IfOk result (λ r. r ≡ unite_is a.now b.now) }
    ensures fits { IfOk result RegionFits }
    ensures sound { IfOk result (HasBoth a.now b.now) }
    ensures exact { IfOk result (IsOneExact a.now b.now) }
{
    union_of(alloc, a, b)
}
