//! The definitions of paths, path maps and canonical trees as a slow program, to compare faster ones with.
//!
//! Each function computes one definition by its own cases, and its contract says that its answer is the value of
//! that definition. So where an answer is compared with what Git makes of the same files, the definition is.
#![tactic(auto)]

mod building;
mod edits;
mod listing;
mod names;
mod stands;
mod trees;

pub use building::directory_of;
pub use edits::{blobs_of, edited};
pub use listing::Listing;
pub use names::components;
