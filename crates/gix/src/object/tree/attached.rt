//! Trees of a repository, as values.

use crate::{Id, ObjectDetached, Tree};
use gx_hash::{Bytes, NoMemory};
use gx_object::Kind;
use std::alloc::Global;
use std::convert::AsSlice;
use std::fmt;

impl<'repo, S> Tree<'repo, S> {
    ghost use Rattle.std.specs.Prelude.{◌≡◌, [], IfOk};
    ghost use Rattle.gix.specs.AttachedObjects.{attached_id, of_tree, of_id};

    /// The id, with the repository.
    pub fn id(&self) -> Id<'repo, S>
        ensures { of_id result ≡ attached_id self.now.id (of_tree self.now).repository }
    {
        Id {
            inner: self.id,
            repo: self.repo,
        }
    }

    /// The same tree, with a copy of the bytes.
    pub fn try_clone(&self) -> Result<Tree<'repo, S>, NoMemory>
        ensures { IfOk result (λ copy. of_tree copy ≡ of_tree self.now) }
    {
        Ok(Tree {
            id: self.id,
            bytes: self.bytes.try_clone()?,
            repo: self.repo,
        })
    }

    /// A copy of the tree that knows no repository.
    pub fn detached(&self) -> Result<ObjectDetached, NoMemory>
        ensures { IfOk result (λ copy. copy ≡ (of_tree self.now).object) }
    {
        Ok(ObjectDetached {
            id: self.id,
            kind: Kind::Tree,
            bytes: self.bytes.try_clone()?,
        })
    }

    /// The tree without the repository.
    pub fn detach(self) -> ObjectDetached
        ensures { result ≡ (of_tree self.entry).object }
    {
        ObjectDetached::from(self)
    }

    /// The bytes, of which none are left here.
    pub fn take_data(&mut self, alloc: Global) -> Bytes
        ensures bytes { result ≡ self.old.bytes }
        ensures rest { self.new ≡ record self.old { bytes = [] } }
    {
        std::mem::replace(&mut self.bytes, Bytes::new(alloc))
    }
}

impl<'repo, S> From<Tree<'repo, S>> for ObjectDetached {
    ghost use Rattle.std.specs.Prelude.{◌≡◌};
    ghost use Rattle.gix.specs.AttachedObjects.{of_tree};

    ghost from_gives = { λ tree detached. detached ≡ (of_tree tree).object };

    fn from(tree: Tree<'repo, S>) -> ObjectDetached {
        let Tree { id, bytes, repo: _ } = tree;
        ObjectDetached {
            id,
            kind: Kind::Tree,
            bytes,
        }
    }
}

impl<'repo, S> AsSlice<u8> for Tree<'repo, S> {
    ghost items = { λ tree. tree.bytes };

    fn as_slice(&self) -> &[u8] {
        self.bytes.as_slice()
    }
}

impl<'repo, S> fmt::Debug for Tree<'repo, S> {
    ghost use Rattle.std.specs.Prelude.{◌++◌, Some, codes};
    ghost use Rattle.gx_hash.specs.ObjectId.{hex_of};

    ghost debug_output = { λ tree. Some (codes "Tree(" ++ hex_of tree.id ++ codes ")") };

    fn fmt<W: fmt::Write>(&self, f: &mut fmt::Formatter<W>) -> fmt::Result {
        write!(f, "Tree({})", self.id)
    }
}
