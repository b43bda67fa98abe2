//! Ids that know the repository that they are of, and how few digits tell an id apart.

mod compared;
mod hex_len;
mod shorten;

use crate::object::find::{FindError, TryFindError};
use crate::{Id, Object, ObjectDetached};
use gx_hash::ObjectId;
use gx_store::{Header, Store};
pub use hex_len::calculate_auto_hex_len;
pub use shorten::ShortenError;
use std::alloc::Global;
use std::fmt;

impl<'repo, S> Id<'repo, S> {
    ghost use Rattle.std.specs.Prelude.{◌≡◌, ◌↔◌, IsTrue};
    ghost use Rattle.gix.specs.AttachedObjects.{of_id};

    pub fn as_oid(&self) -> &ObjectId
        ensures { result.now ≡ (of_id self.now).id }
    {
        &self.inner
    }

    /// The id without the repository.
    pub fn detach(self) -> ObjectId
        ensures { result ≡ (of_id self.entry).id }
    {
        self.inner
    }

    pub fn eq_id(&self, other: &ObjectId) -> bool
        ensures { IsTrue result ↔ ((of_id self.now).id ≡ other.now) }
    {
        self.inner == *other
    }

    /// Whether the object has this id.
    pub fn eq_object(&self, other: &Object<'_, S>) -> bool
        ensures { IsTrue result ↔ ((of_id self.now).id ≡ other.now.id) }
    {
        self.inner == other.id
    }

    /// Whether the object has this id.
    pub fn eq_detached(&self, other: &ObjectDetached) -> bool
        ensures { IsTrue result ↔ ((of_id self.now).id ≡ other.now.id) }
    {
        self.inner == other.id
    }
}

impl<'repo, S> Id<'repo, S> {
    ghost use Rattle.std.specs.Prelude.{◌≡◌, ◌↔◌, IsTrue};
    ghost use Rattle.gx_hash.specs.ObjectId.{hex_of};
    ghost use Rattle.gix.specs.AttachedObjects.{of_id};

    /// Whether the text is the id's digits, all of them and in lower case.
    pub fn eq_text(&self, text: &[u8]) -> bool
        ensures { IsTrue result ↔ (hex_of (of_id self.now).id ≡ text.now) }
    {
        let mut buffer = [0; 64];
        let digits = &mut buffer[..self.inner.kind().len_in_hex()];
        hex::encode_to_slice(self.inner.as_bytes(), digits).unwrap();
        &*digits == text
    }
}

impl<'repo, S: Store> Id<'repo, S> {
    ghost use Rattle.gix.specs.Asking.{asks};
    ghost use Rattle.gix.specs.AttachedObjects.{of_id};
    ghost use Rattle.gix.specs.Finds.{header_query, try_header_query};
    ghost use Rattle.gix.specs.FoundObjects.{find_query, try_find_object_query};
    ghost use Rattle.gix.specs.Meaning.{Means};
    ghost use Rattle.gix.specs.Repository.{held_by};

    /// The object that the id names.
    ///
    /// # Errors
    /// `NotFound` if it is not stored; `Store` if it can't be read; `NoMemory`.
    pub fn object(&self, alloc: Global) -> Result<Object<'repo, S>, FindError>
        ensures { Means (asks (find_query (of_id self.now).repository (of_id self.now).id))
            (held_by S.state (of_id self.now).repository) result (held_by S.state (of_id self.now).repository) }
    {
        self.repo.find_object(alloc, self.inner)
    }

    /// The object that the id names, if it is stored.
    ///
    /// # Errors
    /// `Store` if it can't be read; `NoMemory`.
    pub fn try_object(&self, alloc: Global) -> Result<Option<Object<'repo, S>>, TryFindError>
        ensures { Means (asks (try_find_object_query (of_id self.now).repository (of_id self.now).id))
            (held_by S.state (of_id self.now).repository) result (held_by S.state (of_id self.now).repository) }
    {
        self.repo.try_find_object(alloc, self.inner)
    }

    /// The kind and the size of the object that the id names.
    ///
    /// # Errors
    /// `NotFound` if it is not stored; `Store` if it can't be read; `NoMemory`.
    pub fn header(&self, alloc: Global) -> Result<Header, FindError>
        ensures { Means (asks (header_query (of_id self.now).id)) (held_by S.state (of_id self.now).repository)
            result (held_by S.state (of_id self.now).repository) }
    {
        self.repo.find_header(alloc, self.inner)
    }

    /// The kind and the size of the object that the id names, if it is stored.
    ///
    /// # Errors
    /// `Store` if it can't be read; `NoMemory`.
    pub fn try_header(&self, alloc: Global) -> Result<Option<Header>, TryFindError>
        ensures { Means (asks (try_header_query (of_id self.now).id)) (held_by S.state (of_id self.now).repository)
            result (held_by S.state (of_id self.now).repository) }
    {
        self.repo.try_find_header(alloc, self.inner)
    }
}

impl<'repo, S> From<Id<'repo, S>> for ObjectId {
    ghost use Rattle.std.specs.Prelude.{◌≡◌};
    ghost use Rattle.gix.specs.AttachedObjects.{of_id};

    ghost from_gives = { λ id inner. inner ≡ (of_id id).id };

    fn from(id: Id<'repo, S>) -> ObjectId {
        id.inner
    }
}

impl<'repo, S> fmt::Display for Id<'repo, S> {
    ghost use Rattle.std.specs.Prelude.{Some};
    ghost use Rattle.gx_hash.specs.ObjectId.{hex_of};

    ghost output = { λ id. Some (hex_of id.inner) };

    fn fmt<W: fmt::Write>(&self, f: &mut fmt::Formatter<W>) -> fmt::Result {
        write!(f, "{}", self.inner)
    }
}

impl<'repo, S> fmt::Debug for Id<'repo, S> {
    ghost use Rattle.std.specs.Prelude.{Some};
    ghost use Rattle.gx_hash.specs.ObjectId.{debug_text};

    ghost debug_output = { λ id. Some (debug_text id.inner) };

    fn fmt<W: fmt::Write>(&self, f: &mut fmt::Formatter<W>) -> fmt::Result {
        write!(f, "{:?}", self.inner)
    }
}
