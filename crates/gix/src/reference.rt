//! References of a repository.

mod attached;
mod edits;
mod errors;
mod ext;
pub mod iter;
pub mod log;

pub use attached::Reference;
pub use errors::{RefFindError, SetTargetError};
pub use ext::ReferenceExt;
