//! Walks over the commits that some tips reach.
mod course;
mod filter;
mod frontier;
mod info;
mod reach;
mod read;
mod simple;
mod sorting;

pub(crate) use course::set_of;
pub use filter::{All, Filter, Stored};
pub use info::Info;
pub(crate) use reach::{Found, followed_in, reached};
pub(crate) use read::read_commit;
pub use simple::Simple;
pub(crate) use sorting::rank;
pub use sorting::{CommitTimeOrder, Parents, Sorting, WalkOptions};
