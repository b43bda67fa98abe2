//! Why bytes are not read.
ghost use Rattle.std.specs.Prelude.{◌≡◌};
ghost use Rattle.gx_object.specs.declared.decode.DecodeError.TheVariants.{NoMemory as no_memory};

use gx_hash::NoMemory;
use std::alloc::{AllocError, AllocFailed};
use thiserror::Error;

/// Why bytes are no object of the asked kind.
#[derive(Clone, Copy, Debug, PartialEq, Eq, Error)]
pub enum DecodeError {
    /// The place, in bytes from 0, where the first entry or line begins that is outside the grammar.
    #[error("the object can't be read from byte {at} on")]
    Decode { at: usize },
    #[error("out of memory")]
    NoMemory,
}

impl From<NoMemory> for DecodeError {
    ghost from_gives = { λ _ e. e ≡ no_memory };

    fn from(_: NoMemory) -> DecodeError {
        DecodeError::NoMemory
    }
}

impl From<AllocError> for DecodeError {
    ghost from_gives = { λ _ e. e ≡ no_memory };

    fn from(_: AllocError) -> DecodeError {
        DecodeError::NoMemory
    }
}

impl<T: Drop> From<AllocFailed<T>> for DecodeError {
    ghost from_gives = { λ _ e. e ≡ no_memory };

    fn from(_: AllocFailed<T>) -> DecodeError {
        DecodeError::NoMemory
    }
}
