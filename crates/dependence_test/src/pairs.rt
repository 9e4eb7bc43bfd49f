//! The system of a pair of regions.
ghost use Rattle.std.specs.Prelude.{◌≡◌, ◌≤◌, IfOk};
ghost use Rattle.affine_systems.specs.Given.{Fits};
ghost use Rattle.dependence_test.specs.Given.{BodyFits};
ghost use Rattle.dependence_test.specs.Pairs.{after_cells as after_cells_is, later as later_is, own_subscripts as own_subscripts_is, later_apart as later_apart_is, with_later as with_later_is, pair_system as pair_system_is};

use crate::LoopBody;
use crate::order::order_rows;
use crate::variables::{
    at_iteration, index_at, named_subscripts, number_after, with_own_subscripts,
};
use affine_systems::{System, Var, meet};
use preconditions::transformer_algebra::push_rows;
use std::alloc::{AllocError as Memory, Global};

/// A system of a later iteration, whose variables are not those of the earlier, and the least number above those of its auxiliary variables.
#[derive(Drop)]
pub struct Apart {
    pub system: System,
    pub next: u32,
}

/// The system, with subscripts of its own where the regions are of two variables.
fn own_subscripts(alloc: Global, alike: bool, next: u32, system: System) -> Result<Apart, Memory>
    requires { Fits system }
    ensures defined { IfOk result (λ w. w ≡ own_subscripts_is alike next system) }
    ensures fits { IfOk result (λ w. Fits w.system) }
    ensures after { IfOk result (λ w. next ≤ w.next) }
{
    if alike {
        return Ok(Apart { system, next });
    }
    let subscripts = named_subscripts(alloc, &system)?;
    let after = number_after(next, subscripts.len())?;
    Ok(Apart {
        system: with_own_subscripts(alloc, next, subscripts.as_slice(), &system)?,
        next: after,
    })
}

fn later_apart(alloc: Global, b: &LoopBody, alike: bool, s: &System) -> Result<Apart, Memory>
    requires body { BodyFits b.now }
    requires system { Fits s.now }
    ensures defined { IfOk result (λ w. w ≡ later_apart_is b.now alike s.now) }
    ensures fits { IfOk result (λ w. Fits w.system) }
    ensures after { IfOk result (λ w. after_cells_is b.now ≤ w.next) }
{
    let first = number_after(0, b.cells.len())?;
    let next = number_after(first, b.cells.len())?;
    let system = at_iteration(alloc, first, b, s)?;
    own_subscripts(alloc, alike, next, system)
}

/// With a system of the earlier iteration.
fn with_later(alloc: Global, b: &LoopBody, s: &System, w: &Apart) -> Result<System, Memory>
    requires body { BodyFits b.now }
    requires system { Fits s.now }
    requires later { Fits w.now.system }
    requires after { after_cells_is b.now ≤ w.now.next }
    ensures defined { IfOk result (λ t. t ≡ with_later_is b.now s.now w.now) }
    ensures fits { IfOk result Fits }
{
    let first = number_after(0, b.cells.len())?;
    let _ = number_after(first, b.cells.len())?;
    let earlier = at_iteration(alloc, 0, b, s)?;
    let both = meet(alloc, &earlier, &w.system)?;
    let i = index_at(alloc, 0, b)?;
    let j = index_at(alloc, first, b)?;
    let rows = order_rows(alloc, b.step, i, j, Var::Aux(w.next))?;
    push_rows(alloc, &both, rows)
}

/// The system of a piece of a region of the earlier iteration, `s`, and a piece of a region of the later, `r`. It has a point wherever the two
/// describe one element. `alike`: both regions are of one variable, and their subscripts are the same; otherwise those of the later one are other
/// variables.
///
/// The cells that an iteration changes, and the index, are `Aux` variables: of the earlier iteration those from 0 on in the order of the cells, of the
/// later one those after them, then the subscripts of the later one, then the number of steps between the two. All other cells are the same in both.
pub fn pair_system(
    alloc: Global,
    b: &LoopBody,
    alike: bool,
    s: &System,
    r: &System,
) -> Result<System, Memory>
    requires body { BodyFits b.now }
    requires earlier { Fits s.now }
    requires later { Fits r.now }
    ensures defined { IfOk result (λ t. t ≡ pair_system_is b.now alike s.now r.now) }
    ensures fits { IfOk result Fits }
{
    let w = later_apart(alloc, b, alike, r)?;
    with_later(alloc, b, s, &w)
}
