//! Why a text is no base.
ghost use Rattle.std.specs.Prelude.{◌≡◌};
ghost use Rattle.base_text.specs.declared.refusal.BaseRefusal.TheVariants.{Memory};
ghost use Rattle.base_text.specs.Gives.{number_of, refusal_of};

use base_json::DecodeError;
use std::alloc::{AllocError, AllocFailed};
use thiserror::Error;

/// Why a text is no base, in the order in which the causes are looked for.
#[derive(Debug, Drop, Error)]
pub enum BaseRefusal {
    /// It is no JSON (60).
    #[error("not JSON")]
    NotJson,
    /// It is an object whose `pips` is another whole number than 1 and 2, or of version 2 with a result of a later format than the current one of its kind (62).
    #[error("another version")]
    WrongVersion,
    /// It has another shape, or says what cannot be: a row that is not normalised, a text that is not the one module of its name, a name twice, a result of no
    /// module, one that does not fit its module, one that is not in its place (61).
    #[error("another shape")]
    WrongShape,
    /// A number of a row has a magnitude of 2^62 or more (63).
    #[error("a number too big")]
    NumberTooBig,
    #[error("out of memory")]
    Memory,
}

impl BaseRefusal {
    /// The number of the code, 60 to 63; None for want of memory.
    pub fn number(&self) -> Option<u32>
        ensures { result ≡ number_of self.now }
    {
        match self {
            BaseRefusal::NotJson => Some(60),
            BaseRefusal::WrongShape => Some(61),
            BaseRefusal::WrongVersion => Some(62),
            BaseRefusal::NumberTooBig => Some(63),
            BaseRefusal::Memory => None,
        }
    }
}

impl From<DecodeError> for BaseRefusal {
    ghost from_gives = { λ t e. e ≡ refusal_of t };

    fn from(decode_error: DecodeError) -> BaseRefusal {
        match decode_error {
            DecodeError::Shape => BaseRefusal::WrongShape,
            DecodeError::Memory => BaseRefusal::Memory,
        }
    }
}

impl From<AllocError> for BaseRefusal {
    ghost from_gives = { λ _ e. e ≡ Memory };

    fn from(_e: AllocError) -> BaseRefusal {
        BaseRefusal::Memory
    }
}

impl<T: Drop> From<AllocFailed<T>> for BaseRefusal {
    ghost from_gives = { λ _ e. e ≡ Memory };

    fn from(_e: AllocFailed<T>) -> BaseRefusal {
        BaseRefusal::Memory
    }
}
