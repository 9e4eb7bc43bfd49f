//! Copies of the results of analyses.
ghost use Rattle.std.specs.Prelude.{◌≡◌, ◌++◌, IfOk, OnOk};

use affine_systems::System;
use f77_ast::{At, EffectSet, Mark, Reason, Results, Unit, Variable, copy_effect, copy_variable};
use fx_lists::List;
use loop_marker::region_sets::{Region, RegionSet};
use preconditions::transformer_algebra::Transformer;
use std::alloc::{AllocError as Memory, Global};

/// What a result says of a statement, or of a module.
pub trait Copied: Drop {
    /// The same once more.
    fn copied(&self, alloc: Global) -> Result<Self, Memory>
        ensures { IfOk result (λ c. c ≡ self.now) };
}

/// The elements of a list, each once more, in their order.
fn push_copies<T: Copied>(alloc: Global, out: &mut List<T>, items: &[T]) -> Result<(), Memory>
    ensures { OnOk result (out.new ≡ out.old ++ items.now) }
{
    let mut rest = items;
    while let [item, more @ ..] = rest {
        out.push(item.copied(alloc)?)?;
        rest = more;
    }
    Ok(())
}

impl<T: Copied> Copied for List<T> {
    fn copied(&self, alloc: Global) -> Result<List<T>, Memory> {
        let mut copy = List::new(alloc);
        push_copies(alloc, &mut copy, self.as_slice())?;
        Ok(copy)
    }
}

impl Copied for EffectSet {
    fn copied(&self, alloc: Global) -> Result<EffectSet, Memory> {
        copy_effect(alloc, self)
    }
}

impl Copied for Unit {
    fn copied(&self, _alloc: Global) -> Result<Unit, Memory> {
        Ok(Unit {
            block: self.block.clone()?,
            offset: self.offset,
        })
    }
}

impl Copied for System {
    fn copied(&self, _alloc: Global) -> Result<System, Memory> {
        self.clone()
    }
}

impl Copied for Transformer {
    fn copied(&self, alloc: Global) -> Result<Transformer, Memory> {
        Ok(Transformer {
            cells: List::from_slice(alloc, self.cells.as_slice())?,
            foreign: self.foreign.copied(alloc)?,
            system: self.system.clone()?,
        })
    }
}

impl Copied for Region {
    fn copied(&self, alloc: Global) -> Result<Region, Memory> {
        Ok(Region {
            variable: copy_variable(&self.variable)?,
            kind: self.kind,
            exact: self.exact,
            pieces: self.pieces.copied(alloc)?,
        })
    }
}

impl Copied for Reason {
    fn copied(&self, alloc: Global) -> Result<Reason, Memory> {
        match self {
            Reason::Jump => Ok(Reason::Jump),
            Reason::InputOutput => Ok(Reason::InputOutput),
            Reason::Step => Ok(Reason::Step),
            Reason::Index => Ok(Reason::Index),
            Reason::Carries(variable, kinds, private) => {
                let variable = copy_variable(variable)?;
                let kinds = List::from_slice(alloc, kinds.as_slice())?;
                Ok(Reason::Carries(variable, kinds, *private))
            }
        }
    }
}

impl Copied for Mark {
    fn copied(&self, alloc: Global) -> Result<Mark, Memory> {
        match self {
            Mark::Parallel(copies) => {
                Ok(Mark::Parallel(List::from_slice(alloc, copies.as_slice())?))
            }
            Mark::Serial(reason) => Ok(Mark::Serial(reason.copied(alloc)?)),
        }
    }
}

impl<T: Copied> Copied for At<T> {
    fn copied(&self, alloc: Global) -> Result<At<T>, Memory> {
        Ok(At {
            id: self.id,
            value: self.value.copied(alloc)?,
        })
    }
}

impl<T: Copied> Copied for Results<T> {
    fn copied(&self, alloc: Global) -> Result<Results<T>, Memory> {
        Ok(Results {
            at: self.at.copied(alloc)?,
            summary: self.summary.copied(alloc)?,
        })
    }
}
