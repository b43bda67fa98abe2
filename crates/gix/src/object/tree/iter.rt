//! The entries of a tree of a repository, one by one.

use super::EntryRef;
use crate::Repository;
use gx_object::{DecodeError, TreeRefIter};

/// Gives the entries that a tree's bytes spell, without taking memory. Where the bytes go wrong it gives the error, and
/// then it ends.
#[derive(Drop)]
pub struct Iter<'a, 'repo, S> {
    pub(super) inner: TreeRefIter<'a>,
    pub(super) repo: &'repo Repository<S>,
}

impl<'a, 'repo, S> Iterator for Iter<'a, 'repo, S> {
    ghost use Rattle.std.specs.Iterator.{at_most};
    ghost use Rattle.gx_object.specs.TreeIter.{entries_left};
    ghost use Rattle.gix.specs.TreeEntries.{GivesTreeEntry};

    type Item = Result<EntryRef<'repo, 'a, S>, DecodeError>;

    ghost next_gives = { GivesTreeEntry };

    ghost remaining = { λ it. at_most (entries_left it.inner) };

    fn next(&mut self) -> Option<Result<EntryRef<'repo, 'a, S>, DecodeError>> {
        match self.inner.next()? {
            Ok(inner) => Some(Ok(EntryRef {
                inner,
                repo: self.repo,
            })),
            Err(error) => Some(Err(error)),
        }
    }
}
