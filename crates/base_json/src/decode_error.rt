//! Why a JSON value is not read.
ghost use Rattle.std.specs.Prelude.{◌≡◌};
ghost use Rattle.base_json.specs.declared.decode_error.DecodeError.TheVariants.{Memory};

use std::alloc::{AllocError, AllocFailed};
use thiserror::Error;

/// Why a JSON value is not read.
#[derive(Debug, Drop, Error)]
pub enum DecodeError {
    /// It has another shape, or says what cannot be.
    #[error("another shape")]
    Shape,
    #[error("out of memory")]
    Memory,
}

impl From<AllocError> for DecodeError {
    ghost from_gives = { λ _ e. e ≡ Memory };

    fn from(_e: AllocError) -> DecodeError {
        DecodeError::Memory
    }
}

impl<T: Drop> From<AllocFailed<T>> for DecodeError {
    ghost from_gives = { λ _ e. e ≡ Memory };

    fn from(_e: AllocFailed<T>) -> DecodeError {
        DecodeError::Memory
    }
}
