//! Mailmaps: which names and emails replace which others.

mod compare;
mod entry;
mod index;
mod parse;
mod snapshot;

pub use entry::{Entry, MailmapEntries};
pub use parse::parse_ignore_errors;
pub use snapshot::Snapshot;
