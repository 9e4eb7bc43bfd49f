//! Refutation: all variables are eliminated, and where `0 <= -1` comes out there is no point.
ghost use Rattle.std.specs.Prelude.{◌≡◌, true, false, IfOk};
ghost use Rattle.affine_systems.specs.Rows.{AllRows};
ghost use Rattle.affine_systems.specs.Given.{IsGiven, Fits, ItemsFit};
ghost use Rattle.hull_projection.specs.Refute.{refuted as refuted_is, refuted_items as refuted_items_is};
ghost use Rattle.hull_projection.specs.Laws.{HasNoPoint};

use crate::eliminations::{all_left, eliminate_all};
use crate::points::have_found_point;
use crate::variables::item_vars;
use affine_systems::items::{Items, any_false, copy_rows, items_of, tidy_items};
use affine_systems::{Row, System};
use std::alloc::{AllocError as Memory, Global};

#[tactic(auto, using(crate::proofs::RefuteSteps::refutes))]
/// Whether tidied rows are refuted.
fn refuted_items(alloc: Global, items: Items) -> Result<bool, Memory>
    requires { ItemsFit false items }
    ensures { IfOk result (λ b. b ≡ refuted_items_is items) }
{
    let vars = item_vars(alloc, items.as_slice())?;
    let start = all_left(alloc, items)?;
    let left = eliminate_all(alloc, false, start, vars.as_slice())?;
    Ok(any_false(left.items.as_slice()))
}

#[tactic(auto, using(crate::proofs::RefuteSteps::refutes))]
/// Whether the elimination of all variables shows that no integer point meets all rows. They need not be tidied.
pub fn refuted_rows(alloc: Global, rows: Vec<Row>) -> Result<bool, Memory>
    requires { AllRows IsGiven rows.items }
    ensures { IfOk result (λ b. b ≡ refuted_is rows.items) }
{
    if have_found_point(alloc, rows.as_slice())? {
        return Ok(false);
    }
    let items = items_of(alloc, rows)?;
    let t = tidy_items(alloc, false, items)?;
    refuted_items(alloc, t.items)
}

/// Whether the elimination of all variables shows that the system is infeasible: it has no integer point. Where it does
/// not show that, there may be none either.
pub fn refuted(alloc: Global, sys: &System) -> Result<bool, Memory>
    requires fits { Fits sys.now }
    ensures defined { IfOk result (λ b. b ≡ refuted_is sys.now.rows) }
    ensures none { IfOk result (λ b. b ≡ true → HasNoPoint sys.now.rows) }
{
    let rows = copy_rows(alloc, sys.rows.as_slice())?;
    refuted_rows(alloc, rows)
}
