//! What holds after a statement.
ghost use Rattle.std.specs.Prelude.{◌≡◌, IfOk};
ghost use Rattle.affine_systems.specs.Given.{Fits};
ghost use Rattle.transformer_algebra.specs.Transformers.{apply as apply_is, without as without_is};

use crate::halves::{cell_vars, to_cells};
use crate::{Transformer, rename_all};
use affine_systems::{System, meet};
use hull_projection::project;
use std::alloc::{AllocError as Memory, Global};

/// The system without the values of these cells: their `Cell` variables are eliminated.
pub fn without(alloc: Global, cells: &[u32], p: &System) -> Result<System, Memory>
    requires { Fits p.now }
    ensures defined { IfOk result (λ s. s ≡ without_is cells.now p.now) }
    ensures fits { IfOk result Fits }
{
    let vars = cell_vars(alloc, cells)?;
    Ok(project(alloc, p, &vars)?.system)
}

/// The system that holds after a statement with this transformer, where `p` holds before it. Like `p` it is on `Cell`
/// variables.
pub fn apply(alloc: Global, t: &Transformer, p: &System) -> Result<System, Memory>
    requires transformer { Fits t.now.system }
    requires before { Fits p.now }
    ensures defined { IfOk result (λ s. s ≡ apply_is t.now p.now) }
    ensures fits { IfOk result Fits }
{
    let met = meet(alloc, &t.system, p)?;
    let left = without(alloc, t.cells.as_slice(), &met)?;
    let names = to_cells(alloc, t.cells.as_slice())?;
    rename_all(alloc, &left, names.as_slice())
}
