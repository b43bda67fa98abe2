//! Why a value is not written.
ghost use Rattle.gx_object.specs.declared.encode.EncodeError.TheVariants.{NoMemory as no_memory};
ghost use Rattle.std.specs.Prelude.{◌≡◌};

use gx_hash::NoMemory;
use std::alloc::{AllocError, AllocFailed};
use thiserror::Error;

/// A field of an object that its spelling can refuse.
#[derive(Clone, Copy, Debug, PartialEq, Eq)]
pub enum Field {
    FileName,
    AuthorName,
    AuthorEmail,
    AuthorOffset,
    CommitterName,
    CommitterEmail,
    CommitterOffset,
    TaggerName,
    TaggerEmail,
    TaggerOffset,
    TagName,
    Encoding,
    HeaderName,
}

/// Why a value was not written.
#[derive(Clone, Copy, Debug, PartialEq, Eq, Error)]
pub enum EncodeError {
    #[error("{field:?} can't be written")]
    Unwritable { field: Field },
    #[error("out of memory")]
    NoMemory,
}

impl From<NoMemory> for EncodeError {
    ghost from_gives = { λ _ e. e ≡ no_memory };

    fn from(_: NoMemory) -> EncodeError {
        EncodeError::NoMemory
    }
}

impl From<AllocError> for EncodeError {
    ghost from_gives = { λ _ e. e ≡ no_memory };

    fn from(_: AllocError) -> EncodeError {
        EncodeError::NoMemory
    }
}

impl<T: Drop> From<AllocFailed<T>> for EncodeError {
    ghost from_gives = { λ _ e. e ≡ no_memory };

    fn from(_: AllocFailed<T>) -> EncodeError {
        EncodeError::NoMemory
    }
}
