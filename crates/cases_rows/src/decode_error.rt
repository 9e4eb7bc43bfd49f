//! Why a line has no answer.

use std::alloc::{AllocError, AllocFailed};

#[derive(Debug, Drop)]
pub enum DecodeError {
    Memory,
    Malformed,
}

impl From<AllocError> for DecodeError {
    fn from(_error: AllocError) -> DecodeError {
        DecodeError::Memory
    }
}

impl<T: Drop> From<AllocFailed<T>> for DecodeError {
    fn from(_error: AllocFailed<T>) -> DecodeError {
        DecodeError::Memory
    }
}
