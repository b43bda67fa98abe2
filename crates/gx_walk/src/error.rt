ghost use Rattle.std.specs.Prelude.{◌≡◌};
ghost use Rattle.gx_walk.specs.declared.error.WalkError.TheVariants.{NoMemory as no_memory};
ghost use Rattle.gx_walk.specs.Lifting.{lifted_store};

use gx_hash::{NoMemory, ObjectId};
use gx_store::{StoreError, What};
use std::alloc::{AllocError, AllocFailed};
use thiserror::Error;

/// Why a walk or a traversal ended early.
#[derive(Debug, PartialEq, Eq, Drop, Error)]
pub enum WalkError {
    #[error("the object {id:?} is not stored")]
    Missing { id: ObjectId },
    /// The object should have been a commit.
    #[error("the object {id:?} is no commit")]
    NotACommit { id: ObjectId },
    /// The object should have been a tree.
    #[error("the object {id:?} is no tree")]
    NotATree { id: ObjectId },
    #[error("the object {id:?} does not spell what its kind says")]
    Decode { id: ObjectId },
    /// The tree contains itself.
    #[error("the tree {id:?} contains itself")]
    TreeCycle { id: ObjectId },
    /// The visitor cancelled the traversal.
    #[error("the traversal was cancelled")]
    Cancelled,
    #[error("the store failed at {what:?}")]
    Store { what: What },
    #[error("out of memory")]
    NoMemory,
}

impl From<NoMemory> for WalkError {
    ghost from_gives = { λ _ e. e ≡ no_memory };

    fn from(_: NoMemory) -> WalkError {
        WalkError::NoMemory
    }
}

impl From<AllocError> for WalkError {
    ghost from_gives = { λ _ e. e ≡ no_memory };

    fn from(_: AllocError) -> WalkError {
        WalkError::NoMemory
    }
}

impl<T: Drop> From<AllocFailed<T>> for WalkError {
    ghost from_gives = { λ _ e. e ≡ no_memory };

    fn from(_: AllocFailed<T>) -> WalkError {
        WalkError::NoMemory
    }
}

impl From<StoreError> for WalkError {
    ghost from_gives = { λ error e. e ≡ lifted_store error };

    fn from(error: StoreError) -> WalkError {
        match error {
            StoreError::NoMemory => WalkError::NoMemory,
            StoreError::Fault { what } => WalkError::Store { what },
        }
    }
}
