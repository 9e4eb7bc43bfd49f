//! Why nothing was read.
ghost use Rattle.std.specs.Prelude.{◌≡◌};
ghost use Rattle.f77_exprs.specs.declared.parse_error.ParseError.TheVariants.{Memory};

use crate::Cursor;
use std::alloc::{AllocError, AllocFailed};

/// Why nothing was read: the text is not in the grammar, or there was no memory for its tree.
#[derive(PartialEq, Eq, Drop)]
pub enum ParseError {
    Syntax,
    Memory,
}

/// What was read, and how far its reader is after it.
pub type Reading<'a, T> = Result<(T, Cursor<'a>), ParseError>;

impl From<AllocError> for ParseError {
    ghost from_gives = { λ _ e. e ≡ Memory };

    fn from(_e: AllocError) -> ParseError {
        ParseError::Memory
    }
}

impl<T: Drop> From<AllocFailed<T>> for ParseError {
    ghost from_gives = { λ _ e. e ≡ Memory };

    fn from(_e: AllocFailed<T>) -> ParseError {
        ParseError::Memory
    }
}
