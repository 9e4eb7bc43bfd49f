//! The region of the caller that a region of the callee is.
ghost use Rattle.std.specs.Prelude.{◌≡◌, ◌&&◌, [], IfOk, IfSome};
ghost use Rattle.region_sets.specs.Regions.{RegionFits, region};
ghost use Rattle.call_equations.specs.Sides.{sides_tree};
ghost use Rattle.call_equations.specs.Links.{LinkFits};
ghost use Rattle.region_translation.specs.Laws.{SendsUnits, SendsSharp};
ghost use Rattle.region_translation.specs.Caller.{by_link as by_link_is, to_caller as to_caller_is};

use crate::pieces::piece_in_caller;
use call_equations::{CallSides, Link, link_of};
use f77_ast::copy_variable;
use fx_lists::List;
use region_sets::{Region, push_system, remade};
use std::alloc::{AllocError as Memory, Global};

/// The region with the variable of a link and no systems yet.
fn without_systems(alloc: Global, r: &Region, link: &Link) -> Result<Region, Memory>
    ensures { IfOk result (λ q. q ≡ region link.now.variable r.now.kind (r.now.exact && link.now.exact) []) }
{
    Ok(Region {
        variable: copy_variable(&link.variable)?,
        kind: r.kind,
        exact: r.exact && link.exact,
        pieces: List::new(alloc),
    })
}

#[tactic(auto, using(region_sets::proofs::Steps::fitting))]
fn by_link(alloc: Global, sides: &CallSides<'_>, r: &Region, link: &Link) -> Result<Region, Memory>
    requires region { RegionFits r.now }
    requires link { LinkFits link.now }
    ensures defined { IfOk result (λ q. q ≡ by_link_is (sides_tree sides.now) r.now link.now) }
    ensures fits { IfOk result RegionFits }
{
    let base = without_systems(alloc, r, link)?;
    let mut pieces = List::new(alloc);
    let mut exact = true;
    let mut rest = r.pieces.as_slice();
    while let [piece, more @ ..] = rest {
        let one = piece_in_caller(alloc, sides, link, piece)?;
        exact = exact && one.exact;
        push_system(&mut pieces, one.system)?;
        rest = more;
    }
    remade(&base, base.exact && exact, pieces)
}

fn translated(alloc: Global, sides: &CallSides<'_>, r: &Region) -> Result<Option<Region>, Memory>
    requires { RegionFits r.now }
    ensures defined { IfOk result (λ o. o ≡ to_caller_is (sides_tree sides.now) r.now) }
    ensures fits { IfOk result (λ o. IfSome o RegionFits) }
{
    match link_of(alloc, sides, &r.variable)? {
        None => Ok(None),
        Some(link) => Ok(Some(by_link(alloc, sides, r, &link)?)),
    }
}

/// The region of the caller that a region of the callee is where a CALL begins: a dummy is its actual, a variable of a block the first variable
/// of the caller like it there or else the units of the block, and a saved local keeps its name. None exactly where the variable is an
/// expression's unit, or a local that is not saved. It is not exact where the region is not, where the subscripts have no affine equations,
/// where a cell is named that the caller has no form of, or where the projection of the callee's subscripts is not exact.
pub fn to_caller(alloc: Global, sides: &CallSides<'_>, r: &Region) -> Result<Option<Region>, Memory>
    requires { RegionFits r.now }
    ensures defined { IfOk result (λ o. o ≡ to_caller_is (sides_tree sides.now) r.now) }
    ensures fits { IfOk result (λ o. IfSome o RegionFits) }
    ensures sound { IfOk result (SendsUnits (sides_tree sides.now) r.now) }
    ensures exact { IfOk result (SendsSharp (sides_tree sides.now) r.now) }
{
    translated(alloc, sides, r)
}
