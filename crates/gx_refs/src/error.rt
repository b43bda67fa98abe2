ghost use Rattle.std.specs.Prelude.{◌≡◌};
ghost use Rattle.gx_refs.specs.declared.error.RefError.TheVariants.{NoMemory as no_memory};

use crate::ChainError;
use gx_hash::NoMemory;
use gx_object::Field;
use gx_rules::{FullName, NameError};
use gx_store::{StoreError, Target, What};
use std::alloc::{AllocError, AllocFailed};
use thiserror::Error;

/// Why a call on references is refused. Names and targets are shown without the namespace, but for those of `chain`,
/// which takes a stored name, and of `Store`.
#[derive(Debug, PartialEq, Eq, Drop, Error)]
pub enum RefError {
    /// The reference's symbolic targets lead back to one of them.
    #[error("{name} leads back into itself")]
    Cycle {
        name: FullName,
    },
    /// More than five symbolic references follow one another.
    #[error("{name} leads through too many others")]
    DepthLimitExceeded {
        name: FullName,
    },
    #[error("{name} is missing")]
    MustExist {
        name: FullName,
    },
    #[error("{name} is there already")]
    MustNotExist {
        name: FullName,
        actual: Target,
    },
    #[error("{name} has another target than expected")]
    ReferenceOutOfDate {
        name: FullName,
        expected: Target,
        actual: Target,
    },
    /// One of the two would be a directory that contains the other.
    #[error("{name} can't be beside {with}")]
    NameConflict {
        name: FullName,
        with: FullName,
    },
    #[error("two edits meet at {name}")]
    DuplicateEdit {
        name: FullName,
    },
    #[error("a line of a log has no committer")]
    MissingCommitter,
    #[error("the committer can't be written to a log: {field:?}")]
    Unwritable {
        field: Field,
    },
    /// No call of this crate answers it; calls that make a name of its parts do.
    #[error("a name is no full name: {0}")]
    NameValidation(NameError),
    #[error("the store failed at {what:?}")]
    Store {
        what: What,
    },
    #[error("out of memory")]
    NoMemory,
}

impl From<NoMemory> for RefError {
    ghost from_gives = { λ _ e. e ≡ no_memory };

    fn from(_: NoMemory) -> RefError {
        RefError::NoMemory
    }
}

impl From<AllocError> for RefError {
    ghost from_gives = { λ _ e. e ≡ no_memory };

    fn from(_: AllocError) -> RefError {
        RefError::NoMemory
    }
}

impl<T: Drop> From<AllocFailed<T>> for RefError {
    ghost from_gives = { λ _ e. e ≡ no_memory };

    fn from(_: AllocFailed<T>) -> RefError {
        RefError::NoMemory
    }
}

impl From<StoreError> for RefError {
    ghost use Rattle.gx_refs.specs.Errors.{of_store};

    ghost from_gives = { λ refusal e. e ≡ of_store refusal };

    fn from(refusal: StoreError) -> RefError {
        match refusal {
            StoreError::NoMemory => RefError::NoMemory,
            StoreError::Fault { what } => RefError::Store { what },
        }
    }
}

impl From<ChainError> for RefError {
    ghost use Rattle.gx_refs.specs.Errors.{of_chain};

    ghost from_gives = { λ refusal e. e ≡ of_chain refusal };

    fn from(refusal: ChainError) -> RefError {
        match refusal {
            ChainError::Cycle { name } => RefError::Cycle { name },
            ChainError::DepthLimitExceeded { name } => RefError::DepthLimitExceeded { name },
            ChainError::Store { what } => RefError::Store { what },
            ChainError::NoMemory => RefError::NoMemory,
        }
    }
}
