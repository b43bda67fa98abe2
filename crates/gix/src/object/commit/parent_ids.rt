//! The ids of a commit's parents, one by one.

use crate::{Id, Repository};
use gx_object::ParentIds;

/// Gives the ids of a commit's parents, in their order, without taking memory. It ends in front of the first line
/// that names no parent.
#[derive(Drop)]
pub struct CommitParentIds<'a, 'repo, S> {
    pub(super) inner: ParentIds<'a>,
    pub(super) repo: &'repo Repository<S>,
}

impl<'a, 'repo, S> Iterator for CommitParentIds<'a, 'repo, S> {
    ghost use Rattle.std.specs.Iterator.{at_most};
    ghost use Rattle.gx_object.specs.ParentIds.{ids_left};
    ghost use Rattle.gix.specs.ObjectParts.{GivesParentId};

    type Item = Id<'repo, S>;

    ghost next_gives = { GivesParentId };

    ghost remaining = { λ it. at_most (ids_left it.inner) };

    fn next(&mut self) -> Option<Id<'repo, S>> {
        let inner = self.inner.next()?;
        Some(Id {
            inner,
            repo: self.repo,
        })
    }
}
