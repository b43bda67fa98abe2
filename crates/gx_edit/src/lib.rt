//! Edits of trees by path.
//!
//! A tree is seen as a map from paths to leaves: files, links and submodules. Edits change that map one after
//! another, and a map has at most one canonical tree, whatever the order in which its paths were put. That tree is
//! what a commit of the edits names.
#![tactic(auto)]

mod editor;
mod error;
pub mod laws;
mod leaf;
mod output;
mod path;
mod path_edit;
mod path_map;
mod stored_tree;
pub mod view_laws;
mod writing;

pub use editor::{Editor, EntryView};
pub use error::EditError;
pub use leaf::Leaf;
pub use output::Output;
pub use path_edit::{PathEdit, PathEdits};
pub use path_map::{PathEntries, PathEntry, PathMap};
pub use stored_tree::read_map;
pub use writing::write_plain;
