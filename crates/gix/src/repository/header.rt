//! What is known of objects without their bytes.

ghost use Rattle.std.specs.Prelude.{◌≡◌, is_some, IfOk, IfSome};
ghost use Rattle.gx_store.specs.Content.{lookup};
ghost use Rattle.gx_store.specs.State.{IfFault, IsUnreadable};
ghost use Rattle.gx_store.specs.declared.error.What.TheVariants as part;
ghost use Rattle.gix.specs.Finds.{header_at};

use crate::Repository;
use crate::object::find::{FindError, TryFindError};
use gx_hash::ObjectId;
use gx_object::Kind;
use gx_store::{Header, Objects, Store, StoreError};
use std::alloc::Global;

/// The header of the object at an id. The empty tree has one, whether or not it was written.
fn header_at<S: Objects>(
    alloc: Global,
    store: &S,
    id: &ObjectId,
) -> Result<Option<Header>, StoreError>
    ensures found { IfOk result (λ found. IfSome (S.state store.now).content (λ content.
        found ≡ header_at content id.now)) }
    ensures fault { IfFault result (IsUnreadable (S.state store.now) (part.Object id.now)) }
{
    match store.header(alloc, id)? {
        None if id.is_empty_tree() => Ok(Some(Header {
            kind: Kind::Tree,
            size: 0,
        })),
        found => Ok(found),
    }
}

/// Whether an object is stored. The empty tree is, whether or not it was written.
fn is_stored<S: Objects>(alloc: Global, store: &S, id: &ObjectId) -> Result<bool, StoreError>
    ensures found { IfOk result (λ found. IfSome (S.state store.now).content (λ content.
        found ≡ is_some (lookup content id.now))) }
    ensures fault { IfFault result (IsUnreadable (S.state store.now) (part.Object id.now)) }
{
    if store.exists(alloc, id)? {
        return Ok(true);
    }
    Ok(id.is_empty_tree())
}

impl<S: Store> Repository<S> {
    ghost use Rattle.gix.specs.Asking.{asks};
    ghost use Rattle.gix.specs.Finds.{exists_query, header_query, try_header_query};
    ghost use Rattle.gix.specs.Meaning.{Means};
    ghost use Rattle.gix.specs.Repository.{held_by};

    /// The kind and the size of the object at an id.
    ///
    /// # Errors
    /// `NotFound` where it is not stored; `Store` where it can't be read; `NoMemory`.
    pub fn find_header(&self, alloc: Global, id: ObjectId) -> Result<Header, FindError>
        ensures { Means (asks (header_query id)) (held_by S.state self.now) result (held_by S.state self.now) }
    {
        match header_at(alloc, &self.store, &id)? {
            Some(header) => Ok(header),
            None => Err(FindError::NotFound { id }),
        }
    }

    /// The kind and the size of the object at an id, or `None` where it is not stored.
    ///
    /// # Errors
    /// `Store` where it can't be read; `NoMemory`.
    pub fn try_find_header(
        &self,
        alloc: Global,
        id: ObjectId,
    ) -> Result<Option<Header>, TryFindError>
        ensures { Means (asks (try_header_query id)) (held_by S.state self.now) result (held_by S.state self.now) }
    {
        self.try_header(alloc, &id)
    }

    /// The same as `try_find_header`.
    pub fn try_header(&self, alloc: Global, id: &ObjectId) -> Result<Option<Header>, TryFindError>
        ensures { Means (asks (try_header_query id.now)) (held_by S.state self.now) result (held_by S.state self.now) }
    {
        Ok(header_at(alloc, &self.store, id)?)
    }

    /// Whether the object at an id is stored. The empty tree always is.
    ///
    /// # Errors
    /// `Store` where the object can't be read; `NoMemory`.
    pub fn has_object(&self, alloc: Global, id: &ObjectId) -> Result<bool, TryFindError>
        ensures { Means (asks (exists_query id.now)) (held_by S.state self.now) result (held_by S.state self.now) }
    {
        Ok(is_stored(alloc, &self.store, id)?)
    }

    /// The same as `has_object`.
    pub fn exists(&self, alloc: Global, id: &ObjectId) -> Result<bool, TryFindError>
        ensures { Means (asks (exists_query id.now)) (held_by S.state self.now) result (held_by S.state self.now) }
    {
        self.has_object(alloc, id)
    }
}
