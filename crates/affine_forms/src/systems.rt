//! The system without rows, and the one that never holds.
ghost use Rattle.std.specs.Prelude.{◌≡◌, IfOk};
ghost use Rattle.affine_systems.specs.Given.{IsGiven, Fits};
ghost use Rattle.affine_systems.specs.Rows.{false_row as false_row_is};
ghost use Rattle.affine_forms.specs.Conditions.{no_rows as no_rows_is, infeasible as infeasible_is};

use affine_systems::{Row, System};
use fx_lists::List;
use std::alloc::{AllocError as Memory, Global};

/// The universe: the system without rows, which holds at each point. Takes no memory.
pub fn no_rows(alloc: Global) -> System
    ensures defined { result ≡ no_rows_is }
    ensures fits { Fits result }
{
    System {
        rows: List::new(alloc),
        weak: false,
    }
}

/// The row `0 <= -1`, which holds at no point. Takes no memory.
pub fn false_row(alloc: Global) -> Row
    ensures defined { result ≡ false_row_is }
    ensures given { IsGiven result }
{
    Row {
        equal: false,
        terms: List::new(alloc),
        bound: -1,
    }
}

/// The empty set: the system of the one row `0 <= -1`, which has no point.
pub fn infeasible(alloc: Global) -> Result<System, Memory>
    ensures defined { IfOk result (λ s. s ≡ infeasible_is) }
    ensures fits { IfOk result Fits }
{
    let mut rows = List::new(alloc);
    rows.push(false_row(alloc))?;
    Ok(System { rows, weak: false })
}
