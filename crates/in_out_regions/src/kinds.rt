//! IN regions of what reads before it writes.
ghost use Rattle.std.specs.Prelude.{◌≡◌, ◌++◌, IfOk, OnOk};
ghost use Rattle.array_regions.specs.region_sets.Regions.{RegionFits};
ghost use Rattle.array_regions.specs.region_sets.Sets.{SetFits};
ghost use Rattle.in_out_regions.specs.Kinds.{as_in as as_in_is, all_in, is_read as is_read_is, is_write as is_write_is, first_reads as first_reads_is};

use array_regions::region_sets::{Access, Region, RegionSet, push_region, with_flag};
use fx_lists::List;
use std::alloc::{AllocError as Memory, Global};

fn is_read(kind: Access) -> bool
    ensures { result ≡ is_read_is kind }
{
    match kind {
        Access::Read => true,
        Access::Write | Access::In | Access::Out => false,
    }
}

/// Whether a region of this kind has what is written.
pub fn is_write(kind: Access) -> bool
    ensures { result ≡ is_write_is kind }
{
    match kind {
        Access::Write => true,
        Access::Read | Access::In | Access::Out => false,
    }
}

/// A copy of a region, as one of IN.
fn as_in(alloc: Global, r: &Region) -> Result<Region, Memory>
    requires { RegionFits r.now }
    ensures defined { IfOk result (λ q. q ≡ as_in_is r.now) }
    ensures fits { IfOk result RegionFits }
{
    let same = with_flag(alloc, r, r.exact)?;
    Ok(Region {
        variable: same.variable,
        kind: Access::In,
        exact: same.exact,
        pieces: same.pieces,
    })
}

/// Appends regions as such of IN, in their order.
#[tactic(auto, using(crate::proofs::Fitting::fitting))]
pub fn push_in(alloc: Global, out: &mut RegionSet, set: &[Region]) -> Result<(), Memory>
    requires out { SetFits out.old }
    requires set { SetFits set.now }
    ensures added { OnOk result (out.new ≡ out.old ++ all_in set.now) }
    ensures fits { OnOk result (SetFits out.new) }
{
    let mut rest = set;
    while let [r, more @ ..] = rest {
        push_region(out, as_in(alloc, r)?)?;
        rest = more;
    }
    Ok(())
}

/// The IN regions of a statement that reads before it writes: its READ regions.
#[tactic(auto, using(crate::proofs::Fitting::fitting))]
pub fn first_reads(alloc: Global, set: &[Region]) -> Result<RegionSet, Memory>
    requires { SetFits set.now }
    ensures defined { IfOk result (λ qs. qs ≡ first_reads_is set.now) }
    ensures fits { IfOk result SetFits }
{
    let mut out = List::new(alloc);
    let mut rest = set;
    while let [r, more @ ..] = rest {
        if is_read(r.kind) {
            push_region(&mut out, as_in(alloc, r)?)?;
        }
        rest = more;
    }
    Ok(out)
}
