//! Why an object is not found.

use gx_hash::ObjectId;
use gx_store::{StoreError, What};
use thiserror::Error;

/// Why it is not known whether an object is stored.
#[derive(Debug, PartialEq, Eq, Drop, Error)]
pub enum TryFindError {
    #[error("the store failed at {what:?}")]
    Store { what: What },
    #[error("out of memory")]
    NoMemory,
}

/// Why an object is not found.
#[derive(Debug, PartialEq, Eq, Drop, Error)]
pub enum FindError {
    #[error("the object {id:?} is not stored")]
    NotFound { id: ObjectId },
    #[error("the store failed at {what:?}")]
    Store { what: What },
    #[error("out of memory")]
    NoMemory,
}

impl From<StoreError> for TryFindError {
    ghost use Rattle.std.specs.Prelude.{◌≡◌};
    ghost use Rattle.gix.specs.Finds.{not_known};

    ghost from_gives = { λ refusal e. e ≡ not_known refusal };

    fn from(refusal: StoreError) -> TryFindError {
        match refusal {
            StoreError::NoMemory => TryFindError::NoMemory,
            StoreError::Fault { what } => TryFindError::Store { what },
        }
    }
}

impl From<StoreError> for FindError {
    ghost use Rattle.std.specs.Prelude.{◌≡◌};
    ghost use Rattle.gix.specs.Finds.{not_found};

    ghost from_gives = { λ refusal e. e ≡ not_found refusal };

    fn from(refusal: StoreError) -> FindError {
        match refusal {
            StoreError::NoMemory => FindError::NoMemory,
            StoreError::Fault { what } => FindError::Store { what },
        }
    }
}
