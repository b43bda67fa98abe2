//! Why an object is not taken for one of a kind.

use gx_hash::ObjectId;
use gx_object::Kind;
use thiserror::Error;

/// An object is of another kind than it was asked for.
#[derive(Clone, Copy, Debug, PartialEq, Eq, Error)]
#[error("the object {id:?} is a {actual:?} and no {expected:?}")]
pub struct KindError {
    pub id: ObjectId,
    pub expected: Kind,
    pub actual: Kind,
}

/// Why an object is not read as a commit or a tag.
#[derive(Clone, Copy, Debug, PartialEq, Eq, Error)]
pub enum ConversionError {
    /// The place, in bytes from 0, where the first line begins that is outside the grammar.
    #[error("the object can't be read from byte {at} on")]
    Decode { at: usize },
    #[error("the object is a {actual:?} and no {expected:?}")]
    UnexpectedType { expected: Kind, actual: Kind },
    #[error("out of memory")]
    NoMemory,
}
