//! Why a tree is not edited.

use gx_hash::ObjectId;
use gx_object::Kind;
use gx_store::What;
use thiserror::Error;

/// Why there is no editor of a tree.
#[derive(Debug, PartialEq, Eq, Drop, Error)]
pub enum EditTreeError {
    #[error("the object {id:?} is not stored")]
    NotFound {
        id: ObjectId,
    },
    /// What is expected is a tree.
    #[error("the object {id:?} is a {actual:?} and no {expected:?}")]
    ObjectKind {
        id: ObjectId,
        expected: Kind,
        actual: Kind,
    },
    #[error("the object {id:?} does not spell a tree that can be read")]
    Decode {
        id: ObjectId,
    },
    #[error("the store failed at {what:?}")]
    Store {
        what: What,
    },
    #[error("out of memory")]
    NoMemory,
}
