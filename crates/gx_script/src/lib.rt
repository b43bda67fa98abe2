//! The script language: requests, and the reader that takes them from a source one after another.
//!
//! A request is spelled by lines and blocks. A line ends with a newline; a block has the length that the line before
//! it declares, and a newline after it. The reader takes at most one byte past its
//! limit, and only to answer that the script is too long.
#![tactic(auto)]

mod change;
mod commit;
mod error;
mod feed;
mod fields;
mod history_forms;
pub mod laws;
mod lines;
mod lists;
mod message;
mod note_forms;
mod number;
mod opening;
mod reader;
mod reference_forms;
mod request;
mod spaced;
mod split;

pub use error::ScriptError;
pub use lists::{Patterns, WalkId, WalkIds};
pub use reader::ScriptReader;
pub use request::{
    CommitRequest, Expect, NameSet, NoteRequest, Order, RefRequest, Request, TagRequest,
};
