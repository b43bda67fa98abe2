//! Objects of a repository: how they are found, what they become, and what is read of them.

mod blob;
mod commit;
mod conversion;
mod detached;
pub mod find;
mod find_as;
mod finds;
mod into;
mod read;
mod tag;
pub mod tree;
pub mod write;

pub use commit::CommitParentIds;
pub use conversion::{ConversionError, KindError};
pub use find_as::FindAsError;
