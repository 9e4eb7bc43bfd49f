//! Rows added to a system together.
ghost use Rattle.std.specs.Prelude.{◌≡◌, IfOk};
ghost use Rattle.affine_systems.specs.Rows.{AllRows};
ghost use Rattle.affine_systems.specs.Given.{IsGiven, Fits};
ghost use Rattle.affine_systems.specs.Laws.{KeepsCommonPoints, AddsNoCommonPoint};
ghost use Rattle.transformer_algebra.specs.Renaming.{push_rows as push_rows_is, of_rows as of_rows_is};

use affine_systems::items::{copy_rows, tidy_rows};
use affine_systems::{Row, System};
use std::alloc::{AllocError as Memory, Global};

/// The system of these rows, tidied. Weak only where tidying loses a row.
pub fn of_rows(alloc: Global, rows: Vec<Row>) -> Result<System, Memory>
    requires { AllRows IsGiven rows.items }
    ensures defined { IfOk result (λ s. s ≡ of_rows_is rows.items) }
    ensures fits { IfOk result Fits }
{
    tidy_rows(alloc, rows, false)
}

/// The system with more rows, tidied once. It has the points of the system at which all of these hold, and no others
/// unless it is weak.
pub fn push_rows(alloc: Global, sys: &System, mut more: Vec<Row>) -> Result<System, Memory>
    requires fits { Fits sys.now }
    requires rows { AllRows IsGiven more.items }
    ensures defined { IfOk result (λ s. s ≡ push_rows_is sys.now more.items) }
    ensures fits { IfOk result Fits }
    ensures sound { IfOk result (KeepsCommonPoints sys.now.rows more.items) }
    ensures no_new_points { IfOk result (AddsNoCommonPoint sys.now.rows more.items) }
{
    let mut rows = copy_rows(alloc, sys.rows.as_slice())?;
    rows.append(&mut more)?;
    tidy_rows(alloc, rows, sys.weak)
}
