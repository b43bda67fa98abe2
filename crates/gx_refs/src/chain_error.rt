ghost use Rattle.std.specs.Prelude.{◌≡◌};
ghost use Rattle.gx_refs.specs.declared.chain_error.ChainError.TheVariants.{NoMemory as no_memory};

use gx_hash::NoMemory;
use gx_rules::FullName;
use gx_store::{StoreError, What};
use std::alloc::{AllocError, AllocFailed};
use thiserror::Error;

/// Why a name has no chain.
#[derive(Debug, PartialEq, Eq, Drop, Error)]
pub enum ChainError {
    /// The reference's symbolic targets lead back to one of them.
    #[error("the reference leads back into itself")]
    Cycle { name: FullName },
    /// More than five symbolic references follow one another.
    #[error("the reference leads through too many others")]
    DepthLimitExceeded { name: FullName },
    #[error("the store failed at {what:?}")]
    Store { what: What },
    #[error("out of memory")]
    NoMemory,
}

impl From<NoMemory> for ChainError {
    ghost from_gives = { λ _ e. e ≡ no_memory };

    fn from(_: NoMemory) -> ChainError {
        ChainError::NoMemory
    }
}

impl From<AllocError> for ChainError {
    ghost from_gives = { λ _ e. e ≡ no_memory };

    fn from(_: AllocError) -> ChainError {
        ChainError::NoMemory
    }
}

impl<T: Drop> From<AllocFailed<T>> for ChainError {
    ghost from_gives = { λ _ e. e ≡ no_memory };

    fn from(_: AllocFailed<T>) -> ChainError {
        ChainError::NoMemory
    }
}

impl From<StoreError> for ChainError {
    ghost use Rattle.gx_refs.specs.Errors.{handed_on};

    ghost from_gives = { λ refusal e. e ≡ handed_on refusal };

    fn from(refusal: StoreError) -> ChainError {
        match refusal {
            StoreError::NoMemory => ChainError::NoMemory,
            StoreError::Fault { what } => ChainError::Store { what },
        }
    }
}
