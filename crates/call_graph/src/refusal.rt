//! Why modules do not link.
ghost use Rattle.std.specs.Prelude.{◌≡◌};
ghost use Rattle.call_graph.specs.Faults.{refusal_of};
ghost use Rattle.call_graph.specs.declared.refusal.LinkRefusal.TheVariants.{Memory};

use fx_lists::Code;
use std::alloc::{AllocError, AllocFailed};
use thiserror::Error;

/// What is wrong with a program.
#[derive(Clone, Copy, PartialEq, Eq)]
pub enum Fault {
    /// No module is a main program.
    NoMain,
    /// The place of the module, from 0, the line in its text, from 1, and the code.
    At(u32, u32, Code),
}

/// Why there is no graph.
#[derive(Debug, Drop, Error)]
pub enum LinkRefusal {
    /// No main program: code 50.
    #[error("no main program")]
    NoMain,
    /// The place of the module, from 0, the line in its text, from 1, and the code, 51 to 57.
    #[error("module {0}, line {1}: {2}")]
    At(u32, u32, u32),
    /// No memory, or a block of 2^64 units or more.
    #[error("out of memory")]
    Memory,
}

/// The refusal that reports a fault, with the number of its code.
pub fn refusal_of(fault: Fault) -> LinkRefusal
    ensures { result ≡ refusal_of fault }
{
    match fault {
        Fault::NoMain => LinkRefusal::NoMain,
        Fault::At(place, line, code) => LinkRefusal::At(place, line, code.number()),
    }
}

impl From<AllocError> for LinkRefusal {
    ghost from_gives = { λ _ e. e ≡ Memory };

    fn from(_e: AllocError) -> LinkRefusal {
        LinkRefusal::Memory
    }
}

impl<T: Drop> From<AllocFailed<T>> for LinkRefusal {
    ghost from_gives = { λ _ e. e ≡ Memory };

    fn from(_e: AllocFailed<T>) -> LinkRefusal {
        LinkRefusal::Memory
    }
}
