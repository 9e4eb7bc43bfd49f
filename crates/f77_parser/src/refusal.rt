//! Why a text has no modules.
ghost use Rattle.std.specs.Prelude.{◌≡◌};
ghost use Rattle.f77_parser.specs.declared.refusal.ParseRefusal.TheVariants.{Memory};
ghost use Rattle.f77_parser.specs.Gives.{is_memory};

use fx_lists::Text;
use std::alloc::{AllocError, AllocFailed};
use thiserror::Error;

/// Why there are no modules: a refusal, or lack of memory.
#[derive(Debug, Drop, Error)]
pub enum ParseRefusal {
    /// The first line of the statement, from 1; the number of the code, 10 to 23; for code 11 the keyword, else no text.
    #[error("line {0}: {1}")]
    At(u32, u32, Text),
    #[error("out of memory")]
    Memory,
}

impl ParseRefusal {
    /// Whether memory ran out.
    pub fn is_memory(&self) -> bool
        ensures { result ≡ is_memory self.now }
    {
        match self {
            ParseRefusal::At(..) => false,
            ParseRefusal::Memory => true,
        }
    }
}

impl From<AllocError> for ParseRefusal {
    ghost from_gives = { λ _ e. e ≡ Memory };

    fn from(_e: AllocError) -> ParseRefusal {
        ParseRefusal::Memory
    }
}

impl<T: Drop> From<AllocFailed<T>> for ParseRefusal {
    ghost from_gives = { λ _ e. e ≡ Memory };

    fn from(_e: AllocFailed<T>) -> ParseRefusal {
        ParseRefusal::Memory
    }
}
