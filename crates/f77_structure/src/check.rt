//! The first refusal of a module for its structure.
ghost use Rattle.std.specs.Prelude.{◌≡◌, IfOk};
ghost use Rattle.f77_structure.specs.First.{first_fault};
ghost use Rattle.f77_structure.specs.Jumps.{block_fault};
ghost use Rattle.f77_structure.specs.Checks.{fault_of};

use crate::blocks::Blocks;
use crate::first::first_fault;
use crate::jumps::all_judged;
use crate::mark::Mark;
use crate::order::order_fault;
use crate::steps::blocks_of;
use fx_lists::Refusal;
use std::alloc::{AllocError as Memory, Global};

/// The first of a fault and those of the blocks and of the GO TOs.
#[tactic(auto, using(crate::proofs::FirstLemmas::jumps_first))]
fn first_of_all(found: Option<Refusal>, blocks: &Blocks) -> Option<Refusal>
    ensures { result ≡ first_fault found (block_fault blocks.now) }
{
    all_judged(
        blocks.spans.as_slice(),
        blocks.landings.as_slice(),
        blocks.jumps.as_slice(),
        first_fault(found, blocks.found),
    )
}

/// The refusal of a module at the earliest line, and there the one with the lowest code; None where it has none. The marks are
/// those of all its statements, in the order of the text. Quadratic in the number of labels and GO TOs.
#[tactic(auto, using(crate::proofs::AsCode::as_code))]
pub fn fault_of(alloc: Global, marks: &[Mark]) -> Result<Option<Refusal>, Memory>
    ensures { IfOk result (λ found. found ≡ fault_of marks.now) }
{
    let order = order_fault(alloc, marks)?;
    let blocks = blocks_of(alloc, marks)?;
    Ok(first_of_all(order, &blocks))
}
