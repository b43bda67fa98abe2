//! Why an object is not written.

use gx_hash::{NoMemory, ObjectId};
use gx_object::{EncodeError, Field};
use gx_store::{SourceError, StoreError, What};
use std::alloc::{AllocError, AllocFailed};
use thiserror::Error;

/// Why an object is not written. But for the last two nothing of the store has changed then.
#[derive(Debug, PartialEq, Eq, Drop, Error)]
pub enum WriteError {
    #[error("the field {field:?} can't be written")]
    Unwritable { field: Field },
    #[error("a read failed")]
    Read,
    /// More than 2^30 bytes came from the source.
    #[error("the object is too large")]
    TooLarge,
    #[error("{declared} bytes were declared, and {found} found")]
    SizeMismatch { declared: u64, found: u64 },
    #[error("the id {given:?} was given, and {found:?} found")]
    IdMismatch { given: ObjectId, found: ObjectId },
    #[error("the store failed at {what:?}")]
    Store { what: What },
    #[error("out of memory")]
    NoMemory,
}

impl From<StoreError> for WriteError {
    ghost use Rattle.std.specs.Prelude.{◌≡◌};
    ghost use Rattle.gix.specs.Writes.{not_written};

    ghost from_gives = { λ refusal e. e ≡ not_written refusal };

    fn from(refusal: StoreError) -> WriteError {
        match refusal {
            StoreError::NoMemory => WriteError::NoMemory,
            StoreError::Fault { what } => WriteError::Store { what },
        }
    }
}

impl From<EncodeError> for WriteError {
    ghost use Rattle.std.specs.Prelude.{◌≡◌};
    ghost use Rattle.gix.specs.Writes.{not_spelled};

    ghost from_gives = { λ refusal e. e ≡ not_spelled refusal };

    fn from(refusal: EncodeError) -> WriteError {
        match refusal {
            EncodeError::Unwritable { field } => WriteError::Unwritable { field },
            EncodeError::NoMemory => WriteError::NoMemory,
        }
    }
}

impl From<SourceError> for WriteError {
    ghost use Rattle.std.specs.Prelude.{◌≡◌};
    ghost use Rattle.gix.specs.declared.object.write.WriteError.TheVariants.{Read};

    ghost from_gives = { λ _ e. e ≡ Read };

    fn from(_: SourceError) -> WriteError {
        WriteError::Read
    }
}

impl From<NoMemory> for WriteError {
    ghost use Rattle.std.specs.Prelude.{◌≡◌};
    ghost use Rattle.gix.specs.declared.object.write.WriteError.TheVariants.{NoMemory as no_memory};

    ghost from_gives = { λ _ e. e ≡ no_memory };

    fn from(_: NoMemory) -> WriteError {
        WriteError::NoMemory
    }
}

impl From<AllocError> for WriteError {
    ghost use Rattle.std.specs.Prelude.{◌≡◌};
    ghost use Rattle.gix.specs.declared.object.write.WriteError.TheVariants.{NoMemory as no_memory};

    ghost from_gives = { λ _ e. e ≡ no_memory };

    fn from(_: AllocError) -> WriteError {
        WriteError::NoMemory
    }
}

impl<T: Drop> From<AllocFailed<T>> for WriteError {
    ghost use Rattle.std.specs.Prelude.{◌≡◌};
    ghost use Rattle.gix.specs.declared.object.write.WriteError.TheVariants.{NoMemory as no_memory};

    ghost from_gives = { λ _ e. e ≡ no_memory };

    fn from(_: AllocFailed<T>) -> WriteError {
        WriteError::NoMemory
    }
}
