//! Traversals of trees: a visitor is shown every entry at or below a tree.
mod above;
mod breadth;
mod depth;
mod open_tree;
mod recorder;
mod visit;

pub use breadth::breadthfirst;
pub use depth::depthfirst;
pub use recorder::{Record, Recorder};
pub use visit::{Action, Visit};
