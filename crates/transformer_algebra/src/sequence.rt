//! One transformer after another.
ghost use Rattle.std.specs.Prelude.{◌≡◌, ◌+◌, ◌<◌, ◌^◌, length, IfOk};
ghost use Rattle.affine_systems.specs.Given.{Fits};
ghost use Rattle.transformer_algebra.specs.Transformers.{followed_from as followed_from_is, followed as followed_is};

use crate::halves::{first_names, middle, second_names};
use crate::{Transformer, fresh_over, joined_cells, joined_units, rename_all};
use affine_systems::{System, meet};
use fx_lists::List;
use hull_projection::project_owned;
use std::alloc::{AllocError as Memory, Global};

/// Where the auxiliary variables in between are numbered from the first on.
fn followed_from(
    alloc: Global,
    first: u32,
    a: &Transformer,
    b: &Transformer,
) -> Result<System, Memory>
    requires room { first + length a.now.cells < 2 ^ 32 }
    requires first { Fits a.now.system }
    requires second { Fits b.now.system }
    ensures defined { IfOk result (λ s. s ≡ followed_from_is first a.now b.now) }
    ensures fits { IfOk result Fits }
{
    let again = b.cells.as_slice();
    let cells = a.cells.as_slice();
    let names = first_names(alloc, first, again, cells)?;
    let one = rename_all(alloc, &a.system, names.as_slice())?;
    let names = second_names(alloc, first, again, cells)?;
    let other = rename_all(alloc, &b.system, names.as_slice())?;
    let met = meet(alloc, &one, &other)?;
    let vars = List::from_vec(middle(alloc, first, again, cells)?);
    Ok(project_owned(alloc, met, &vars)?.system)
}

/// The composition of two transformers: what the first and then the second does. Memory also where there are no numbers
/// below 2^32 for an auxiliary variable for each cell that the first changes.
pub fn then(alloc: Global, a: &Transformer, b: &Transformer) -> Result<Transformer, Memory>
    requires first { Fits a.now.system }
    requires second { Fits b.now.system }
    ensures defined { IfOk result (λ t. t ≡ followed_is a.now b.now) }
    ensures fits { IfOk result (λ t. Fits t.system) }
{
    let first = fresh_over(&a.system, &b.system, a.cells.len())?;
    Ok(Transformer {
        cells: joined_cells(alloc, a.cells.as_slice(), b.cells.as_slice())?,
        foreign: joined_units(alloc, a.foreign.as_slice(), b.foreign.as_slice())?,
        system: followed_from(alloc, first, a, b)?,
    })
}
