use gx_edit::EditError;
use gx_hash::NoMemory;
use gx_object::{DecodeError, EncodeError, SignatureError};
use gx_store::StoreError;
use std::alloc::{AllocError, AllocFailed};
use thiserror::Error;

/// Why there is no answer. What a library refuses is one of few words here; a subject that tells more matches on the
/// library's error itself.
#[derive(Clone, Copy, Debug, PartialEq, Eq, Error)]
pub enum ProbeError {
    /// No call of this name takes such fields.
    #[error("no such call")]
    UnknownCall,
    #[error("no such object from byte {at} on")]
    Decode { at: usize },
    #[error("a line is no mode, id and path of a leaf")]
    BadLine,
    /// What was read can't be written: a time, say.
    #[error("the object can't be written again")]
    Unwritable,
    /// Standard input or output failed.
    #[error("reading or writing failed")]
    Failed,
    #[error("out of memory")]
    NoMemory,
}

impl From<DecodeError> for ProbeError {
    fn from(error: DecodeError) -> ProbeError {
        match error {
            DecodeError::Decode { at } => ProbeError::Decode { at },
            DecodeError::NoMemory => ProbeError::NoMemory,
        }
    }
}

impl From<SignatureError> for ProbeError {
    fn from(error: SignatureError) -> ProbeError {
        match error {
            SignatureError::BadTime => ProbeError::Unwritable,
            SignatureError::NoMemory => ProbeError::NoMemory,
        }
    }
}

impl From<EncodeError> for ProbeError {
    fn from(error: EncodeError) -> ProbeError {
        match error {
            EncodeError::Unwritable { .. } => ProbeError::Unwritable,
            EncodeError::NoMemory => ProbeError::NoMemory,
        }
    }
}

impl From<EditError> for ProbeError {
    fn from(error: EditError) -> ProbeError {
        match error {
            EditError::NoMemory => ProbeError::NoMemory,
            _ => ProbeError::Unwritable,
        }
    }
}

impl From<StoreError> for ProbeError {
    fn from(error: StoreError) -> ProbeError {
        match error {
            StoreError::NoMemory => ProbeError::NoMemory,
            StoreError::Fault { .. } => ProbeError::Unwritable,
        }
    }
}

impl From<NoMemory> for ProbeError {
    fn from(_: NoMemory) -> ProbeError {
        ProbeError::NoMemory
    }
}

impl From<AllocError> for ProbeError {
    fn from(_: AllocError) -> ProbeError {
        ProbeError::NoMemory
    }
}

impl<T: Drop> From<AllocFailed<T>> for ProbeError {
    fn from(_: AllocFailed<T>) -> ProbeError {
        ProbeError::NoMemory
    }
}
