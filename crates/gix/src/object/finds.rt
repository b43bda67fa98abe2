//! Objects that are looked up by their ids.

ghost use Rattle.std.specs.Prelude.{IfOk, IfSome, ◌≡◌};
ghost use Rattle.gx_store.specs.Content.{lookup};
ghost use Rattle.gx_store.specs.State.{IfFault, IsUnreadable};
ghost use Rattle.gx_store.specs.declared.error.What.TheVariants as part;
ghost use Rattle.gix.specs.Repository.{store_of};

use super::FindAsError;
use super::find::{FindError, TryFindError};
use crate::{Blob, Commit, Object, ObjectDetached, Repository, Tag, Tree};
use gx_hash::{Bytes, ObjectId};
use gx_object::Kind;
use gx_store::{Objects, Store, StoreError};
use std::alloc::Global;

/// The kind and the bytes of the object at an id. The empty tree is always found.
fn object_at<S: Objects>(
    alloc: Global,
    store: &S,
    id: &ObjectId,
) -> Result<Option<(Kind, Bytes)>, StoreError>
    ensures found { IfOk result (λ found. IfSome (S.state store.now).content (λ content.
        found ≡ lookup content id.now)) }
    ensures fault { IfFault result (IsUnreadable (S.state store.now) (part.Object id.now)) }
{
    match store.read(alloc, id)? {
        Some(object) => Ok(Some(object)),
        None if id.is_empty_tree() => Ok(Some((Kind::Tree, Bytes::new(alloc)))),
        None => Ok(None),
    }
}

impl<S: Store> Repository<S> {
    ghost use Rattle.gx_object.specs.declared.kind.Kind.TheVariants as kind;
    ghost use Rattle.gix.specs.Asking.{asks};
    ghost use Rattle.gix.specs.AttachedObjects.{of_blob, of_commit, of_tag, of_tree};
    ghost use Rattle.gix.specs.FoundObjects.{try_find_query, try_find_object_query, find_query, find_as_query};
    ghost use Rattle.gix.specs.Meaning.{Means};
    ghost use Rattle.gix.specs.Repository.{held_by};

    /// The object at an id, if it is stored, without the repository. The empty tree always is.
    ///
    /// # Errors
    /// `Store` if the object can't be read; `NoMemory`.
    pub fn try_find(
        &self,
        alloc: Global,
        id: &ObjectId,
    ) -> Result<Option<ObjectDetached>, TryFindError>
        ensures { Means (asks (try_find_query id.now)) (held_by S.state self.now) result (held_by S.state self.now) }
    {
        match object_at(alloc, &self.store, id)? {
            None => Ok(None),
            Some((kind, bytes)) => Ok(Some(ObjectDetached {
                id: *id,
                kind,
                bytes,
            })),
        }
    }

    /// The object at an id, if it is stored. The empty tree always is.
    ///
    /// # Errors
    /// `Store` if the object can't be read; `NoMemory`.
    pub fn try_find_object(
        &self,
        alloc: Global,
        id: ObjectId,
    ) -> Result<Option<Object<'_, S>>, TryFindError>
        ensures { Means (asks (try_find_object_query self.now id)) (held_by S.state self.now) result
            (held_by S.state self.now) }
    {
        match object_at(alloc, &self.store, &id)? {
            None => Ok(None),
            Some((kind, bytes)) => Ok(Some(Object {
                id,
                kind,
                bytes,
                repo: self,
            })),
        }
    }

    /// The object at an id. The empty tree is always found.
    ///
    /// # Errors
    /// `NotFound` if it is not stored; `Store` if it can't be read; `NoMemory`.
    pub fn find_object(&self, alloc: Global, id: ObjectId) -> Result<Object<'_, S>, FindError>
        ensures { Means (asks (find_query self.now id)) (held_by S.state self.now) result (held_by S.state self.now) }
    {
        match object_at(alloc, &self.store, &id)? {
            None => Err(FindError::NotFound { id }),
            Some((kind, bytes)) => Ok(Object {
                id,
                kind,
                bytes,
                repo: self,
            }),
        }
    }

    /// The commit at an id.
    ///
    /// # Errors
    /// `NotFound` if it is not stored; `ObjectKind` if it is no commit; `Store` if it can't be read; `NoMemory`.
    pub fn find_commit(&self, alloc: Global, id: ObjectId) -> Result<Commit<'_, S>, FindAsError>
        ensures { Means (asks (find_as_query of_commit kind.Commit self.now id)) (held_by S.state self.now) result
            (held_by S.state self.now) }
    {
        Ok(self.find_object(alloc, id)?.try_into_commit()?)
    }

    /// The tree at an id. The empty tree is always found.
    ///
    /// # Errors
    /// `NotFound` if it is not stored; `ObjectKind` if it is no tree; `Store` if it can't be read; `NoMemory`.
    pub fn find_tree(&self, alloc: Global, id: ObjectId) -> Result<Tree<'_, S>, FindAsError>
        ensures { Means (asks (find_as_query of_tree kind.Tree self.now id)) (held_by S.state self.now) result
            (held_by S.state self.now) }
    {
        Ok(self.find_object(alloc, id)?.try_into_tree()?)
    }

    /// The tag at an id.
    ///
    /// # Errors
    /// `NotFound` if it is not stored; `ObjectKind` if it is no tag; `Store` if it can't be read; `NoMemory`.
    pub fn find_tag(&self, alloc: Global, id: ObjectId) -> Result<Tag<'_, S>, FindAsError>
        ensures { Means (asks (find_as_query of_tag kind.Tag self.now id)) (held_by S.state self.now) result
            (held_by S.state self.now) }
    {
        Ok(self.find_object(alloc, id)?.try_into_tag()?)
    }

    /// The blob at an id.
    ///
    /// # Errors
    /// `NotFound` if it is not stored; `ObjectKind` if it is no blob; `Store` if it can't be read; `NoMemory`.
    pub fn find_blob(&self, alloc: Global, id: ObjectId) -> Result<Blob<'_, S>, FindAsError>
        ensures { Means (asks (find_as_query of_blob kind.Blob self.now id)) (held_by S.state self.now) result
            (held_by S.state self.now) }
    {
        Ok(self.find_object(alloc, id)?.try_into_blob()?)
    }
}

impl<S: Store> Repository<S> {
    ghost use Rattle.std.specs.Prelude.{◌≡◌, []};
    ghost use Rattle.gx_hash.specs.ObjectId.{empty_blob_id, empty_tree_id};
    ghost use Rattle.gx_object.specs.declared.kind.Kind.TheVariants as kind;
    ghost use Rattle.gix.specs.AttachedObjects.{attached, of_blob, of_tree};

    /// The tree without entries, whether or not it was written. Nothing is read.
    pub fn empty_tree(&self, alloc: Global) -> Tree<'_, S>
        ensures { of_tree result
            ≡ attached (empty_tree_id (S.state (store_of self.now)).hash) kind.Tree [] self.now }
    {
        Tree {
            id: ObjectId::empty_tree(self.object_hash()),
            bytes: Bytes::new(alloc),
            repo: self,
        }
    }

    /// The blob without bytes, whether or not it is stored. Nothing is read.
    pub fn empty_blob(&self, alloc: Global) -> Blob<'_, S>
        ensures { of_blob result
            ≡ attached (empty_blob_id (S.state (store_of self.now)).hash) kind.Blob [] self.now }
    {
        Blob {
            id: ObjectId::empty_blob(self.object_hash()),
            bytes: Bytes::new(alloc),
            repo: self,
        }
    }
}
