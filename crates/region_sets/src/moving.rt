//! Regions of a set, as they are before what a transformer describes.
ghost use Rattle.std.specs.Prelude.{◌≡◌, ◌<◌, ◌++◌, [], true, false, length, map, not, IfOk, OnOk};
ghost use Rattle.affine_systems.specs.Given.{Fits};
ghost use Rattle.affine_systems.specs.declared.row.System.{System as ASystem};
ghost use Rattle.hull_projection.specs.Project.{shadow};
ghost use Rattle.region_sets.specs.Settled.{may_change as may_change_is, IsFixed, AllFixed};
ghost use Rattle.region_sets.specs.Compose.{compose as compose_is, compose_piece as compose_piece_is};
ghost use Rattle.region_sets.specs.Lists.{all_composed};
ghost use Rattle.region_sets.specs.Naming.{has_none as has_none_is, named_cells as named_cells_is};
ghost use Rattle.region_sets.specs.Regions.{RegionFits};
ghost use Rattle.region_sets.specs.Sets.{SetFits};

use crate::living::{may_change, stays_exact};
use crate::naming::in_rows;
use crate::region::copy_region;
use crate::sets::push_region;
use crate::{Region, RegionSet, compose};
use affine_systems::{System, Var};
use std::alloc::{AllocError as Memory, Global};
use transformers::transformer_algebra::Transformer;

/// Whether a system names one of some cells.
fn names_one(cells: &[u32], s: &System) -> bool
    ensures { result ≡ not (has_none_is (named_cells_is cells.now s.now)) }
{
    let mut rest = cells;
    while let [c, more @ ..] = rest {
        if in_rows(Var::Cell(*c), s.rows.as_slice()) {
            return true;
        }
        rest = more;
    }
    false
}

/// Whether no piece names a cell that a transformer changes.
#[tactic(auto, using(crate::proofs::MoveSteps::passing))]
fn all_pass(t: &Transformer, pieces: &[System]) -> bool
    ensures { result ≡ true → map (compose_piece_is t.now) pieces.now ≡ map (λ (s : ASystem). shadow s true) pieces.now }
{
    let mut rest = pieces;
    while let [piece, more @ ..] = rest {
        if names_one(t.cells.as_slice(), piece) {
            return false;
        }
        rest = more;
    }
    true
}

/// Whether trimming leaves a region of a set as it is.
fn stays(r: &Region) -> bool
    ensures { result ≡ true → (0 < length r.now.pieces) × (may_change_is true r.now.pieces ≡ false) }
{
    !r.pieces.is_empty() && !may_change(true, r.pieces.as_slice())
}

/// The region that `compose` makes of one of a set, which is moved where it names no changed cell.
#[tactic(auto, using(crate::proofs::MoveSteps::passing))]
fn composed(alloc: Global, r: Region, t: &Transformer) -> Result<Region, Memory>
    requires region { RegionFits r }
    requires fixed { IsFixed r }
    requires transformer { Fits t.now.system }
    ensures defined { IfOk result (λ q. q ≡ compose_is r t.now) }
    ensures fits { IfOk result RegionFits }
{
    if !stays(&r) || !all_pass(t, r.pieces.as_slice()) {
        return compose(alloc, &r, t);
    }
    let Region {
        variable,
        kind,
        exact,
        pieces,
    } = r;
    let exact = stays_exact(exact, pieces.as_slice());
    Ok(Region {
        variable,
        kind,
        exact,
        pieces,
    })
}

/// Appends regions of a set, as `push_composed` does.
#[tactic(auto, using(crate::proofs::Steps::fitting))]
pub fn push_settled(
    alloc: Global,
    out: &mut RegionSet,
    t: &Transformer,
    set: &[Region],
) -> Result<(), Memory>
    requires out { SetFits out.old }
    requires transformer { Fits t.now.system }
    requires set { SetFits set.now }
    requires fixed { AllFixed set.now }
    ensures added { OnOk result (out.new ≡ out.old ++ all_composed t.now set.now) }
    ensures fits { OnOk result (SetFits out.new) }
{
    let mut rest = set;
    while let [r, more @ ..] = rest {
        push_region(out, composed(alloc, copy_region(alloc, r)?, t)?)?;
        rest = more;
    }
    Ok(())
}
