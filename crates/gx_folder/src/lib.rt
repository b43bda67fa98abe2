//! A store in a folder: each object, each reference and each log is a file of its own.
//!
//! It tells nothing of what it holds, since no contract can say what files give. So its contracts are those that every
//! store keeps: faults are counted, the kind of ids stays, and what is read is of that kind.
//!
//! A folder belongs to one program at a time. `Folder` locks its file `format` as long as it lives.
#![tactic(auto)]

mod apply;
mod conflict;
mod error;
mod files;
mod folder;
mod format;
mod index;
mod listing;
mod log;
mod name;
mod object;
mod objects;
mod references;
mod target;

pub use error::OpenError;
pub use folder::Folder;
