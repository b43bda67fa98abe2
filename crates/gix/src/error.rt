//! Why a commit of edits is refused.

ghost use Rattle.std.specs.Prelude.{◌≡◌};
ghost use Rattle.gix.specs.Lifting.{lifted, of_reference, HasPlace, IsOfOne};

use gx_edit::EditError;
use gx_hash::{Bytes, NoMemory, ObjectId};
use gx_object::{EntryKind, Field, Kind};
use gx_refs::RefError;
use gx_rules::{ComponentError, FullName};
use gx_store::{StoreError, Target, What};
use std::alloc::{AllocError, AllocFailed};
use thiserror::Error;

/// Why a commit of edits is refused.
#[derive(Debug, PartialEq, Eq, Drop, Error)]
pub enum CommitEditsError {
    #[error("the object {id:?} is not stored")]
    FindExistingObject {
        id: ObjectId,
    },
    /// The first parent should have been a commit, or its tree, or a directory on the way to an edit's path, a tree.
    #[error("the object {id:?} is a {actual:?}")]
    ObjectKind {
        id: ObjectId,
        actual: Kind,
    },
    #[error("the object {id:?} can't be read")]
    Decode {
        id: ObjectId,
    },
    #[error("a path has an empty component")]
    EmptyPathComponent {
        path: Bytes,
    },
    #[error("an entry must not be named {filename:?}: {source}")]
    InvalidFilename {
        filename: Bytes,
        kind: EntryKind,
        id: ObjectId,
        source: ComponentError,
    },
    #[error("the entry {filename:?} names {id:?}, which is not stored")]
    MissingObject {
        filename: Bytes,
        kind: EntryKind,
        id: ObjectId,
    },
    #[error("the field {field:?} can't be written")]
    WriteObject {
        field: Field,
    },
    #[error("the reference leads back into itself")]
    Cycle {
        name: FullName,
    },
    #[error("the reference leads through too many others")]
    DepthLimitExceeded {
        name: FullName,
    },
    /// A commit with a parent was asked for on `HEAD`, whose branch is not there.
    #[error("the reference does not exist")]
    MustExist {
        name: FullName,
    },
    /// A commit without a parent was asked for on a reference that is there.
    #[error("the reference exists")]
    MustNotExist {
        name: FullName,
        actual: Target,
    },
    /// The reference does not name the first parent.
    #[error("the reference names another object")]
    ReferenceOutOfDate {
        name: FullName,
        expected: Target,
        actual: Target,
    },
    /// A stored reference would be a directory of this one, or this one of it.
    #[error("the reference can't stand beside another")]
    NameConflict {
        name: FullName,
        other: FullName,
    },
    #[error("the store failed at {what:?}")]
    Store {
        what: What,
    },
    #[error("out of memory")]
    NoMemory,
}

impl From<NoMemory> for CommitEditsError {
    ghost use Rattle.gix.specs.declared.error.CommitEditsError.TheVariants.{NoMemory as no_memory};

    ghost from_gives = { λ _ e. e ≡ no_memory };

    fn from(_: NoMemory) -> CommitEditsError {
        CommitEditsError::NoMemory
    }
}

impl From<AllocError> for CommitEditsError {
    ghost use Rattle.gix.specs.declared.error.CommitEditsError.TheVariants.{NoMemory as no_memory};

    ghost from_gives = { λ _ e. e ≡ no_memory };

    fn from(_: AllocError) -> CommitEditsError {
        CommitEditsError::NoMemory
    }
}

impl<T: Drop> From<AllocFailed<T>> for CommitEditsError {
    ghost use Rattle.gix.specs.declared.error.CommitEditsError.TheVariants.{NoMemory as no_memory};

    ghost from_gives = { λ _ e. e ≡ no_memory };

    fn from(_: AllocFailed<T>) -> CommitEditsError {
        CommitEditsError::NoMemory
    }
}

impl From<StoreError> for CommitEditsError {
    ghost use Rattle.gix.specs.Causes.{handed_on};

    ghost from_gives = { λ refusal e. e ≡ handed_on refusal };

    fn from(refusal: StoreError) -> CommitEditsError {
        match refusal {
            StoreError::NoMemory => CommitEditsError::NoMemory,
            StoreError::Fault { what } => CommitEditsError::Store { what },
        }
    }
}

/// A refusal of `gx_edit`, which tells of no empty component, since that one wants its path, and of no directory that
/// was to be removed as a leaf.
pub(crate) fn lifted(refusal: EditError) -> CommitEditsError
    requires { HasPlace refusal }
    ensures { result ≡ lifted refusal }
{
    match refusal {
        EditError::EmptyPathComponent | EditError::IsTree => unreachable!(),
        EditError::FindExistingObject { id } => CommitEditsError::FindExistingObject { id },
        EditError::ObjectKind { id, actual } => CommitEditsError::ObjectKind { id, actual },
        EditError::Decode { id } => CommitEditsError::Decode { id },
        EditError::InvalidFilename {
            filename,
            kind,
            id,
            source,
        } => CommitEditsError::InvalidFilename {
            filename,
            kind,
            id,
            source,
        },
        EditError::MissingObject { filename, kind, id } => CommitEditsError::MissingObject {
            filename,
            kind,
            id,
        },
        EditError::WriteObject { field } => CommitEditsError::WriteObject { field },
        EditError::Store { what } => CommitEditsError::Store { what },
        EditError::NoMemory => CommitEditsError::NoMemory,
    }
}

/// A refusal of the edit of a commit's reference, which meets no other edit, and whose lines the committer signs.
pub(crate) fn of_reference(refusal: RefError) -> CommitEditsError
    requires { IsOfOne refusal }
    ensures { result ≡ of_reference refusal }
{
    match refusal {
        RefError::DuplicateEdit { name: _ }
        | RefError::MissingCommitter
        | RefError::Unwritable { field: _ }
        | RefError::NameValidation(_) => unreachable!(),
        RefError::Cycle { name } => CommitEditsError::Cycle { name },
        RefError::DepthLimitExceeded { name } => CommitEditsError::DepthLimitExceeded { name },
        RefError::MustExist { name } => CommitEditsError::MustExist { name },
        RefError::MustNotExist { name, actual } => CommitEditsError::MustNotExist { name, actual },
        RefError::ReferenceOutOfDate {
            name,
            expected,
            actual,
        } => CommitEditsError::ReferenceOutOfDate {
            name,
            expected,
            actual,
        },
        RefError::NameConflict { name, with } => CommitEditsError::NameConflict {
            name,
            other: with,
        },
        RefError::Store { what } => CommitEditsError::Store { what },
        RefError::NoMemory => CommitEditsError::NoMemory,
    }
}
