//! Why a commit of a tree is not made.

use gx_hash::NoMemory;
use gx_object::Field;
use gx_refs::RefError;
use gx_store::{StoreError, What};
use thiserror::Error;

/// Why a commit is not written.
#[derive(Debug, PartialEq, Eq, Drop, Error)]
pub enum NewCommitError {
    #[error("the field {field:?} can't be written")]
    Unwritable { field: Field },
    #[error("the store failed at {what:?}")]
    Store { what: What },
    #[error("out of memory")]
    NoMemory,
}

/// Why a commit is not made.
#[derive(Debug, PartialEq, Eq, Drop, Error)]
pub enum CommitError {
    #[error("the field {field:?} can't be written")]
    Unwritable { field: Field },
    /// The edit of the commit's reference is refused. A fault of the store and lack of memory are told by themselves.
    #[error("the reference is not moved: {0}")]
    ReferenceEdit(RefError),
    #[error("the store failed at {what:?}")]
    Store { what: What },
    #[error("out of memory")]
    NoMemory,
}

impl From<StoreError> for NewCommitError {
    ghost use Rattle.std.specs.Prelude.{◌≡◌};
    ghost use Rattle.gix.specs.CommitOverTree.{not_stored};

    ghost from_gives = { λ refusal e. e ≡ not_stored refusal };

    fn from(refusal: StoreError) -> NewCommitError {
        match refusal {
            StoreError::NoMemory => NewCommitError::NoMemory,
            StoreError::Fault { what } => NewCommitError::Store { what },
        }
    }
}

impl From<NoMemory> for NewCommitError {
    ghost use Rattle.std.specs.Prelude.{◌≡◌};
    ghost use Rattle.gix.specs.declared.commit.NewCommitError.TheVariants.{NoMemory as no_memory};

    ghost from_gives = { λ _ e. e ≡ no_memory };

    fn from(_: NoMemory) -> NewCommitError {
        NewCommitError::NoMemory
    }
}

impl From<StoreError> for CommitError {
    ghost use Rattle.std.specs.Prelude.{◌≡◌};
    ghost use Rattle.gix.specs.CommitAs.{not_stored};

    ghost from_gives = { λ refusal e. e ≡ not_stored refusal };

    fn from(refusal: StoreError) -> CommitError {
        match refusal {
            StoreError::NoMemory => CommitError::NoMemory,
            StoreError::Fault { what } => CommitError::Store { what },
        }
    }
}

impl From<NoMemory> for CommitError {
    ghost use Rattle.std.specs.Prelude.{◌≡◌};
    ghost use Rattle.gix.specs.declared.commit.CommitError.TheVariants.{NoMemory as no_memory};

    ghost from_gives = { λ _ e. e ≡ no_memory };

    fn from(_: NoMemory) -> CommitError {
        CommitError::NoMemory
    }
}

impl From<RefError> for CommitError {
    ghost use Rattle.std.specs.Prelude.{◌≡◌};
    ghost use Rattle.gix.specs.CommitAs.{not_moved};

    ghost from_gives = { λ refusal e. e ≡ not_moved refusal };

    fn from(refusal: RefError) -> CommitError {
        match refusal {
            RefError::Store { what } => CommitError::Store { what },
            RefError::NoMemory => CommitError::NoMemory,
            refusal => CommitError::ReferenceEdit(refusal),
        }
    }
}
