//! Why a folder is no store, and what becomes of failed calls of files.
ghost use Rattle.std.specs.Prelude.{◌≡◌};
ghost use Rattle.gx_store.specs.State.{OfFault};
ghost use Rattle.gx_store.specs.declared.error.What.TheVariants as part;

use gx_hash::NoMemory;
use gx_rules::FullName;
use gx_store::{StoreError, What};
use std::alloc::{AllocError, AllocFailed};
use std::io::{self, ErrorKind};
use thiserror::Error;

/// Why a folder was not opened.
#[derive(Clone, Copy, Debug, PartialEq, Eq, Error)]
pub enum OpenError {
    /// From `open`, where there is no file `format`, or its text is none of the known ones. From `create`, where the
    /// folder has an entry.
    #[error("not a repository")]
    NotARepository,
    /// A call of files failed, another program has the folder, or the file system takes lower and upper case for one.
    #[error("store fault")]
    Fault,
    #[error("out of memory")]
    NoMemory,
}

impl From<NoMemory> for OpenError {
    fn from(_: NoMemory) -> OpenError {
        OpenError::NoMemory
    }
}

impl From<AllocError> for OpenError {
    fn from(_: AllocError) -> OpenError {
        OpenError::NoMemory
    }
}

impl From<io::Error> for OpenError {
    fn from(error: io::Error) -> OpenError {
        if is_no_memory(&error) {
            OpenError::NoMemory
        } else {
            OpenError::Fault
        }
    }
}

impl From<FileError> for OpenError {
    fn from(error: FileError) -> OpenError {
        match error {
            FileError::NoMemory => OpenError::NoMemory,
            FileError::Io(_) => OpenError::Fault,
        }
    }
}

/// A call of files that did not do its work, or want of memory beside it.
#[derive(Debug, Drop)]
pub(crate) enum FileError {
    NoMemory,
    Io(io::Error),
}

impl From<NoMemory> for FileError {
    fn from(_: NoMemory) -> FileError {
        FileError::NoMemory
    }
}

impl From<AllocError> for FileError {
    fn from(_: AllocError) -> FileError {
        FileError::NoMemory
    }
}

impl<T: Drop> From<AllocFailed<T>> for FileError {
    fn from(_: AllocFailed<T>) -> FileError {
        FileError::NoMemory
    }
}

impl From<io::Error> for FileError {
    fn from(error: io::Error) -> FileError {
        if is_no_memory(&error) {
            FileError::NoMemory
        } else {
            FileError::Io(error)
        }
    }
}

impl FileError {
    /// The fault of a read of the part.
    pub(crate) fn at(self, part: What) -> StoreError
        ensures { OfFault result (λ fault. fault ≡ part) }
    {
        match self {
            FileError::NoMemory => StoreError::NoMemory,
            FileError::Io(_) => StoreError::Fault { what: part },
        }
    }

    /// The fault of a read of the reference or its log.
    pub(crate) fn at_name(self, name: &FullName) -> StoreError
        ensures { OfFault result (λ fault. fault ≡ part.Name name.now) }
    {
        match self {
            FileError::NoMemory => StoreError::NoMemory,
            FileError::Io(_) => unreadable(name),
        }
    }
}

/// The fault of a reference or a log that can't be read.
pub(crate) fn unreadable(name: &FullName) -> StoreError
    ensures { OfFault result (λ fault. fault ≡ part.Name name.now) }
{
    match name.try_clone() {
        Ok(name) => StoreError::Fault {
            what: What::Name(name),
        },
        Err(NoMemory) => StoreError::NoMemory,
    }
}

fn is_no_memory(error: &io::Error) -> bool {
    error.kind() == ErrorKind::OutOfMemory
}
