//! What of regions may matter to some WRITE regions.
ghost use Rattle.std.specs.Prelude.{◌≡◌, map, IfOk};
ghost use Rattle.f77_ast.specs.Symbols.{symbol_tree};
ghost use Rattle.in_out_regions.specs.region_sets.Sets.{SetFits};
ghost use Rattle.out_regions.specs.Beside.{is_met as is_met_is, beside as beside_is};

use f77_ast::{Symbols, Variable, overlaps, same_variable};
use fx_lists::List;
use in_out_regions::region_sets::{Region, RegionSet, copy_region, push_region};
use std::alloc::{AllocError as Memory, Global};

/// Whether one of some regions has this variable, or one that shares units with it.
fn is_met(symbols: &Symbols, writes: &[Region], v: &Variable) -> bool
    ensures { result ≡ is_met_is (map symbol_tree symbols.now) writes.now v.now }
{
    let mut rest = writes;
    while let [w, more @ ..] = rest {
        if same_variable(&w.variable, v) || overlaps(symbols, v, &w.variable) {
            return true;
        }
        rest = more;
    }
    false
}

/// Copies of the regions that may matter to these WRITE regions.
#[tactic(auto, using(crate::proofs::Fitting::fitting))]
pub fn beside(
    alloc: Global,
    symbols: &Symbols,
    writes: &[Region],
    set: &[Region],
) -> Result<RegionSet, Memory>
    requires { SetFits set.now }
    ensures defined { IfOk result (λ qs. qs ≡ beside_is (map symbol_tree symbols.now) writes.now set.now) }
    ensures fits { IfOk result SetFits }
{
    let mut out = List::new(alloc);
    let mut rest = set;
    while let [u, more @ ..] = rest {
        if is_met(symbols, writes, &u.variable) {
            push_region(&mut out, copy_region(alloc, u)?)?;
        }
        rest = more;
    }
    Ok(out)
}
