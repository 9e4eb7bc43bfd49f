//! Any number of iterations.
ghost use Rattle.std.specs.Prelude.{◌≡◌, IfOk};
ghost use Rattle.affine_systems.specs.Given.{Fits};
ghost use Rattle.transformer_algebra.specs.Transformers.{iterate as iterate_is};

use crate::Transformer;
use crate::halves::cell_vars;
use crate::units::copy_units;
use fx_lists::List;
use hull_projection::closure;
use std::alloc::{AllocError as Memory, Global};

/// The reflexive transitive closure of a loop body, over-approximated: a transformer of any number of iterations, each
/// of which does what `t` says. Memory also where the numbers of auxiliary variables reach 2^32.
pub fn iterate(alloc: Global, t: &Transformer) -> Result<Transformer, Memory>
    requires { Fits t.now.system }
    ensures defined { IfOk result (λ c. c ≡ iterate_is t.now) }
    ensures fits { IfOk result (λ c. Fits c.system) }
{
    let vars = cell_vars(alloc, t.cells.as_slice())?;
    Ok(Transformer {
        cells: List::from_slice(alloc, t.cells.as_slice())?,
        foreign: copy_units(alloc, t.foreign.as_slice())?,
        system: closure(alloc, &vars, &t.system)?,
    })
}
