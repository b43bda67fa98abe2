//! Trees of a repository.

mod attached;
mod editor;
mod entry;
mod error;
mod iter;
mod read;

pub use editor::Editor;
pub use entry::EntryRef;
pub use error::EditTreeError;
pub use iter::Iter;
