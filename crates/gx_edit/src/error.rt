ghost use Rattle.std.specs.Prelude.{◌≡◌};
ghost use Rattle.gx_edit.specs.declared.error.EditError.TheVariants.{NoMemory as no_memory};

use gx_hash::{Bytes, NoMemory, ObjectId};
use gx_object::{EntryKind, Field, Kind};
use gx_rules::ComponentError;
use gx_store::{StoreError, What};
use std::alloc::{AllocError, AllocFailed};
use thiserror::Error;

/// Why a tree was not edited, read or written.
#[derive(Debug, PartialEq, Eq, Drop, Error)]
pub enum EditError {
    #[error("a path must not have an empty component")]
    EmptyPathComponent,
    #[error("the object {id:?} is not stored")]
    FindExistingObject {
        id: ObjectId,
    },
    /// The object should have been a tree.
    #[error("the object {id:?} is a {actual:?} and no tree")]
    ObjectKind {
        id: ObjectId,
        actual: Kind,
    },
    #[error("the object {id:?} does not spell a tree that can be read")]
    Decode {
        id: ObjectId,
    },
    /// A directory stands where a leaf was to be removed.
    #[error("a directory is not removed as a leaf")]
    IsTree,
    #[error("an entry must not be named {filename:?}: {source}")]
    InvalidFilename {
        filename: Bytes,
        kind: EntryKind,
        id: ObjectId,
        source: ComponentError,
    },
    #[error("the entry {filename:?} names {id:?}, which is not stored")]
    MissingObject {
        filename: Bytes,
        kind: EntryKind,
        id: ObjectId,
    },
    /// The field has bytes that no object can spell.
    #[error("the field {field:?} cannot be written")]
    WriteObject {
        field: Field,
    },
    #[error("the store failed at {what:?}")]
    Store {
        what: What,
    },
    #[error("out of memory")]
    NoMemory,
}

impl From<NoMemory> for EditError {
    ghost from_gives = { λ _ e. e ≡ no_memory };

    fn from(_: NoMemory) -> EditError {
        EditError::NoMemory
    }
}

impl From<AllocError> for EditError {
    ghost from_gives = { λ _ e. e ≡ no_memory };

    fn from(_: AllocError) -> EditError {
        EditError::NoMemory
    }
}

impl<T: Drop> From<AllocFailed<T>> for EditError {
    ghost from_gives = { λ _ e. e ≡ no_memory };

    fn from(_: AllocFailed<T>) -> EditError {
        EditError::NoMemory
    }
}

impl From<StoreError> for EditError {
    ghost use Rattle.gx_edit.specs.Refusals.{handed_on};

    ghost from_gives = { λ refusal e. e ≡ handed_on refusal };

    fn from(refusal: StoreError) -> EditError {
        match refusal {
            StoreError::NoMemory => EditError::NoMemory,
            StoreError::Fault { what } => EditError::Store { what },
        }
    }
}
