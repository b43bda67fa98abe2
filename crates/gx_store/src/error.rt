ghost use Rattle.std.specs.Prelude.{◌≡◌, IfOk};
ghost use Rattle.gx_store.specs.declared.error.StoreError.TheVariants.{NoMemory as no_memory};

use gx_hash::{NoMemory, ObjectId};
use gx_rules::FullName;
use std::alloc::{AllocError, AllocFailed};
use thiserror::Error;

/// The part of a store that could not be read, or `Write` for any change.
#[derive(Debug, PartialEq, Eq, Drop)]
pub enum What {
    Object(ObjectId),
    /// A reference or its log.
    Name(FullName),
    /// What is known of all objects together.
    Index,
    /// What is known of all references together.
    Listing,
    Write,
}

impl What {
    pub fn try_clone(&self) -> Result<What, NoMemory>
        ensures { IfOk result (λ copy. copy ≡ self.now) }
    {
        match self {
            What::Object(id) => Ok(What::Object(*id)),
            What::Name(name) => Ok(What::Name(name.try_clone()?)),
            What::Index => Ok(What::Index),
            What::Listing => Ok(What::Listing),
            What::Write => Ok(What::Write),
        }
    }
}

/// Why a store did not do what was asked.
#[derive(Debug, PartialEq, Eq, Drop, Error)]
pub enum StoreError {
    #[error("out of memory")]
    NoMemory,
    #[error("the store failed at {what:?}")]
    Fault { what: What },
}

impl From<NoMemory> for StoreError {
    ghost from_gives = { λ _ e. e ≡ no_memory };

    fn from(_: NoMemory) -> StoreError {
        StoreError::NoMemory
    }
}

impl From<AllocError> for StoreError {
    ghost from_gives = { λ _ e. e ≡ no_memory };

    fn from(_: AllocError) -> StoreError {
        StoreError::NoMemory
    }
}

impl<T: Drop> From<AllocFailed<T>> for StoreError {
    ghost from_gives = { λ _ e. e ≡ no_memory };

    fn from(_: AllocFailed<T>) -> StoreError {
        StoreError::NoMemory
    }
}
