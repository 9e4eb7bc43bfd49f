//! The effects of a statement or a module.
ghost use Rattle.std.specs.Prelude.{◌≡◌, ◌||◌, IfOk};
ghost use Rattle.f77_ast.specs.Effects.{no_effect, unite};

use crate::Variable;
use crate::variables::{add_copies, union};
use fx_lists::List;
use std::alloc::{AllocError as Memory, Global};

/// The variables that may be read and those that may be written, each list in `order` and without repeats; whether input may be
/// read or output written; and whether a STOP may be reached.
#[derive(PartialEq, Eq, Drop)]
pub struct EffectSet {
    pub reads: List<Variable>,
    pub writes: List<Variable>,
    pub io: bool,
    pub stops: bool,
}

impl EffectSet {
    /// No effects. Takes no memory.
    pub fn none(alloc: Global) -> EffectSet
        ensures { result ≡ no_effect }
    {
        EffectSet {
            reads: List::new(alloc),
            writes: List::new(alloc),
            io: false,
            stops: false,
        }
    }
}

fn copy_variables(alloc: Global, variables: &List<Variable>) -> Result<List<Variable>, Memory>
    ensures { IfOk result (λ copy. copy ≡ variables.now) }
{
    let mut made = List::new(alloc);
    add_copies(&mut made, variables.as_slice())?;
    Ok(made)
}

/// A copy of these effects.
pub fn copy_effect(alloc: Global, effect: &EffectSet) -> Result<EffectSet, Memory>
    ensures { IfOk result (λ copy. copy ≡ effect.now) }
{
    let reads = copy_variables(alloc, &effect.reads)?;
    let writes = copy_variables(alloc, &effect.writes)?;
    Ok(EffectSet {
        reads,
        writes,
        io: effect.io,
        stops: effect.stops,
    })
}

/// The effects of both. The lists are in `order` and without repeats where those of both are. Linear in the lengths of the
/// lists.
pub fn unite(alloc: Global, a: &EffectSet, b: &EffectSet) -> Result<EffectSet, Memory>
    ensures { IfOk result (λ both. both ≡ unite a.now b.now) }
{
    let reads = union(alloc, &a.reads, &b.reads)?;
    let writes = union(alloc, &a.writes, &b.writes)?;
    Ok(EffectSet {
        reads,
        writes,
        io: a.io || b.io,
        stops: a.stops || b.stops,
    })
}
