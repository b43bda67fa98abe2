//! Why references are not found, or not changed.

ghost use Rattle.std.specs.Prelude.{◌≡◌};

use gx_hash::NoMemory;
use gx_refs::RefError;
use gx_rules::{FullName, PartialName};
use gx_store::{StoreError, What};
use thiserror::Error;

/// Why a reference is not found.
#[derive(Debug, Drop, Error)]
pub enum RefFindError {
    /// The name means no reference.
    #[error("there is no reference {name:?}")]
    NotFound { name: PartialName },
    #[error("the store failed at {what:?}")]
    Store { what: What },
    #[error("out of memory")]
    NoMemory,
}

impl From<StoreError> for RefFindError {
    ghost use Rattle.gix.specs.FindReference.{of_store};

    ghost from_gives = { λ refusal e. e ≡ of_store refusal };

    fn from(refusal: StoreError) -> RefFindError {
        match refusal {
            StoreError::NoMemory => RefFindError::NoMemory,
            StoreError::Fault { what } => RefFindError::Store { what },
        }
    }
}

impl From<NoMemory> for RefFindError {
    ghost use Rattle.gix.specs.declared.reference.errors.RefFindError.TheVariants.{NoMemory as no_memory};

    ghost from_gives = { λ _ e. e ≡ no_memory };

    fn from(_: NoMemory) -> RefFindError {
        RefFindError::NoMemory
    }
}

/// Why a reference is not set to another id.
#[derive(Debug, PartialEq, Eq, Drop, Error)]
pub enum SetTargetError {
    /// The reference itself is symbolic, and names no id.
    #[error("{name} is symbolic")]
    SymbolicReference { name: FullName },
    /// The edit of the reference is refused. A fault of the store and lack of memory are told by themselves.
    #[error("the reference is not edited: {0}")]
    ReferenceEdit(RefError),
    #[error("the store failed at {what:?}")]
    Store { what: What },
    #[error("out of memory")]
    NoMemory,
}

impl From<RefError> for SetTargetError {
    ghost use Rattle.gix.specs.SetTarget.{of_edit};

    ghost from_gives = { λ refusal e. e ≡ of_edit refusal };

    fn from(refusal: RefError) -> SetTargetError {
        match refusal {
            RefError::Store { what } => SetTargetError::Store { what },
            RefError::NoMemory => SetTargetError::NoMemory,
            refusal => SetTargetError::ReferenceEdit(refusal),
        }
    }
}

impl From<NoMemory> for SetTargetError {
    ghost use Rattle.gix.specs.declared.reference.errors.SetTargetError.TheVariants.{NoMemory as no_memory};

    ghost from_gives = { λ _ e. e ≡ no_memory };

    fn from(_: NoMemory) -> SetTargetError {
        SetTargetError::NoMemory
    }
}
