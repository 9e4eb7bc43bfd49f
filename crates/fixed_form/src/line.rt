//! What reading the lines of a text gives.

ghost use Rattle.std.specs.Prelude.{◌≡◌};
ghost use Rattle.fixed_form.specs.declared.line.ReadRefusal.TheVariants.{Memory};

use fx_lists::{List, Text};
use std::alloc::{AllocError, AllocFailed};
use thiserror::Error;

/// A statement and its lines, which are numbered from 1.
#[derive(Drop)]
pub struct Line {
    /// The number of the initial line.
    pub first: u32,
    /// The number of the last line, a blank continuation line too.
    pub last: u32,
    /// The label, 1 to 99999, where there is one.
    pub label: Option<u32>,
    /// Columns 7 to 72 of the lines joined, without blanks and in capitals outside character constants.
    pub body: Text,
    /// The kept comments before the statement and between its lines, in the order of the text.
    pub comments: List<Text>,
}

/// The statements of a text in their order, and the kept comments after the last of them.
#[derive(Drop)]
pub struct Lines {
    pub lines: List<Line>,
    pub closing: List<Text>,
}

/// Why a text is not read.
#[derive(Debug, Drop, Error)]
pub enum ReadRefusal {
    /// The number of the line, from 1, and the code of its fault, 1 to 6.
    #[error("line {0}: {1}")]
    At(u32, u32),
    #[error("out of memory")]
    Memory,
}

impl From<AllocError> for ReadRefusal {
    ghost from_gives = { λ _ e. e ≡ Memory };

    fn from(_e: AllocError) -> ReadRefusal {
        ReadRefusal::Memory
    }
}

impl<T: Drop> From<AllocFailed<T>> for ReadRefusal {
    ghost from_gives = { λ _ e. e ≡ Memory };

    fn from(_e: AllocFailed<T>) -> ReadRefusal {
        ReadRefusal::Memory
    }
}
