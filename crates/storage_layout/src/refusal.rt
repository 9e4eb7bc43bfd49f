//! Why there is no table of symbols.
ghost use Rattle.std.specs.Prelude.{◌≡◌};
ghost use Rattle.storage_layout.specs.declared.refusal.LayoutRefusal.TheVariants.{Memory};

use std::alloc::{AllocError, AllocFailed};
use thiserror::Error;

/// Why there is no table of symbols.
#[derive(Debug, Drop, Error)]
pub enum LayoutRefusal {
    /// The first line of the statement, from 1, and the number of the cause, 30 to 41.
    #[error("line {0}: {1}")]
    At(u32, u32),
    /// No memory, or a number of units or names that does not fit its type.
    #[error("out of memory")]
    Memory,
}

impl From<AllocError> for LayoutRefusal {
    ghost from_gives = { λ _ e. e ≡ Memory };

    fn from(_e: AllocError) -> LayoutRefusal {
        LayoutRefusal::Memory
    }
}

impl<T: Drop> From<AllocFailed<T>> for LayoutRefusal {
    ghost from_gives = { λ _ e. e ≡ Memory };

    fn from(_e: AllocFailed<T>) -> LayoutRefusal {
        LayoutRefusal::Memory
    }
}
