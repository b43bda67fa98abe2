//! Commits of a repository.

mod parent_ids;
mod read;

use crate::{Commit, Id, ObjectDetached};
use gx_hash::{Bytes, NoMemory};
use gx_object::Kind;
pub use parent_ids::CommitParentIds;
use std::alloc::Global;
use std::convert::AsSlice;
use std::fmt;

impl<'repo, S> Commit<'repo, S> {
    ghost use Rattle.std.specs.Prelude.{◌≡◌, [], IfOk};
    ghost use Rattle.gix.specs.AttachedObjects.{attached_id, of_commit, of_id};

    /// The id, with the repository.
    pub fn id(&self) -> Id<'repo, S>
        ensures { of_id result ≡ attached_id self.now.id (of_commit self.now).repository }
    {
        Id {
            inner: self.id,
            repo: self.repo,
        }
    }

    /// The same commit, with a copy of the bytes.
    pub fn try_clone(&self) -> Result<Commit<'repo, S>, NoMemory>
        ensures { IfOk result (λ copy. of_commit copy ≡ of_commit self.now) }
    {
        Ok(Commit {
            id: self.id,
            bytes: self.bytes.try_clone()?,
            repo: self.repo,
        })
    }

    /// A copy of the commit that knows no repository.
    pub fn detached(&self) -> Result<ObjectDetached, NoMemory>
        ensures { IfOk result (λ copy. copy ≡ (of_commit self.now).object) }
    {
        Ok(ObjectDetached {
            id: self.id,
            kind: Kind::Commit,
            bytes: self.bytes.try_clone()?,
        })
    }

    /// The commit without the repository.
    pub fn detach(self) -> ObjectDetached
        ensures { result ≡ (of_commit self.entry).object }
    {
        ObjectDetached::from(self)
    }

    /// The bytes, of which none are left here.
    pub fn take_data(&mut self, alloc: Global) -> Bytes
        ensures bytes { result ≡ self.old.bytes }
        ensures rest { self.new ≡ record self.old { bytes = [] } }
    {
        std::mem::replace(&mut self.bytes, Bytes::new(alloc))
    }
}

impl<'repo, S> From<Commit<'repo, S>> for ObjectDetached {
    ghost use Rattle.std.specs.Prelude.{◌≡◌};
    ghost use Rattle.gix.specs.AttachedObjects.{of_commit};

    ghost from_gives = { λ commit detached. detached ≡ (of_commit commit).object };

    fn from(commit: Commit<'repo, S>) -> ObjectDetached {
        let Commit { id, bytes, repo: _ } = commit;
        ObjectDetached {
            id,
            kind: Kind::Commit,
            bytes,
        }
    }
}

impl<'repo, S> AsSlice<u8> for Commit<'repo, S> {
    ghost items = { λ commit. commit.bytes };

    fn as_slice(&self) -> &[u8] {
        self.bytes.as_slice()
    }
}

impl<'repo, S> fmt::Debug for Commit<'repo, S> {
    ghost use Rattle.std.specs.Prelude.{◌++◌, Some, codes};
    ghost use Rattle.gx_hash.specs.ObjectId.{hex_of};

    ghost debug_output = { λ commit. Some (codes "Commit(" ++ hex_of commit.id ++ codes ")") };

    fn fmt<W: fmt::Write>(&self, f: &mut fmt::Formatter<W>) -> fmt::Result {
        write!(f, "Commit({})", self.id)
    }
}
