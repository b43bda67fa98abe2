//! How rows name the errors of walks and traversals.

use gx_hash::ObjectId;
use gx_store::What;
use gx_walk::WalkError;

/// The word for an error that names an object, and this object. An object that the store fails to read is `broken`.
pub(crate) fn named_in(error: &WalkError) -> Option<(&'static str, &ObjectId)> {
    match error {
        WalkError::Missing { id } => Some(("missing", id)),
        WalkError::NotACommit { id } => Some(("not-a-commit", id)),
        WalkError::NotATree { id } => Some(("not-a-tree", id)),
        WalkError::Decode { id } => Some(("decode", id)),
        WalkError::TreeCycle { id } => Some(("cycle", id)),
        WalkError::Store { what } => match what {
            What::Object(id) => Some(("broken", id)),
            _ => None,
        },
        WalkError::Cancelled | WalkError::NoMemory => None,
    }
}
