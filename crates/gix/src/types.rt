//! Values that know the repository that they are of, and objects that do not.

use crate::Repository;
use gx_hash::{Bytes, ObjectId};
use gx_object::Kind;
use std::alloc::AllocError;

/// An id, and the repository in which it names an object or does not.
///
/// ```
/// let id = commit.tree_id()?;
/// let tree = id.object(alloc)?.try_into_tree()?;
/// ```
pub struct Id<'repo, S> {
    pub(crate) inner: ObjectId,
    pub(crate) repo: &'repo Repository<S>,
}

impl<'repo, S> Clone for Id<'repo, S> {
    ghost use Rattle.std.specs.Prelude.{◌≡◌};

    ghost is_clone = { λ id copy. copy ≡ id };

    fn clone(&self) -> Result<Id<'repo, S>, AllocError> {
        Ok(*self)
    }
}

impl<'repo, S> Copy for Id<'repo, S> {}

/// An object of any kind.
///
/// ```
/// let object = repo.find_object(alloc, &id)?;
/// let commit = object.try_into_commit()?;
/// ```
#[derive(Drop)]
pub struct Object<'repo, S> {
    pub id: ObjectId,
    pub kind: Kind,
    pub bytes: Bytes,
    pub(crate) repo: &'repo Repository<S>,
}

/// A blob: the bytes of a file.
#[derive(Drop)]
pub struct Blob<'repo, S> {
    pub id: ObjectId,
    pub bytes: Bytes,
    pub(crate) repo: &'repo Repository<S>,
}

/// A tree, as it is stored. Its entries are read where they are asked for.
#[derive(Drop)]
pub struct Tree<'repo, S> {
    pub id: ObjectId,
    pub bytes: Bytes,
    pub(crate) repo: &'repo Repository<S>,
}

/// A commit, as it is stored. Its lines are read where they are asked for.
#[derive(Drop)]
pub struct Commit<'repo, S> {
    pub id: ObjectId,
    pub bytes: Bytes,
    pub(crate) repo: &'repo Repository<S>,
}

/// An annotated tag, as it is stored. Its lines are read where they are asked for.
#[derive(Drop)]
pub struct Tag<'repo, S> {
    pub id: ObjectId,
    pub bytes: Bytes,
    pub(crate) repo: &'repo Repository<S>,
}

/// An object of any kind that knows no repository.
#[derive(Drop)]
pub struct ObjectDetached {
    pub id: ObjectId,
    pub kind: Kind,
    pub bytes: Bytes,
}
