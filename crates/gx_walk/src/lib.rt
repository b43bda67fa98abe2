//! Walks over the history of commits, merge bases, and traversals of trees.
//!
//! `specs/Walk.antt` defines the list of commits that a walk gives, `specs/History.antt` the set of commits that ids
//! reach, `specs/MergeBase.antt` and `specs/Describe.antt` merge bases and descriptions, and `specs/Traversal.antt` the
//! order in which a traversal visits the entries of trees. The contracts speak of
//! the objects that a store contains. Over a store that does not tell its content, calls are safe and end, and an error
//! still names an object that can't be read.
#![tactic(auto)]

mod bases;
mod commit;
pub mod describe;
mod error;
mod graph;
pub mod laws;
mod tree;

pub use bases::{merge_base, octopus};
pub use commit::{
    All, CommitTimeOrder, Filter, Info, Parents, Simple, Sorting, Stored, WalkOptions,
};
pub use error::WalkError;
pub use graph::{Graph, GraphCommit};
pub use tree::{Action, Record, Recorder, Visit, breadthfirst, depthfirst};
