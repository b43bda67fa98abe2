//! Entries of trees that know their repository.

use crate::object::find::FindError;
use crate::{Id, Object, Repository};
use bstr::BStr;
use gx_hash::ObjectId;
use gx_object::{EntryKind, EntryMode};
use gx_store::Store;
use std::alloc::{AllocError, Global};

/// An entry of a tree, whose name is a slice of the tree's bytes, and the repository that the tree is of.
///
/// ```
/// if let Some(entry) = tree.find_entry(b"README.md") {
///     let object = entry.object(alloc)?;
/// }
/// ```
pub struct EntryRef<'repo, 'a, S> {
    pub inner: gx_object::EntryRef<'a>,
    pub(crate) repo: &'repo Repository<S>,
}

impl<'repo, 'a, S> Clone for EntryRef<'repo, 'a, S> {
    ghost use Rattle.std.specs.Prelude.{◌≡◌};

    ghost is_clone = { λ entry copy. copy ≡ entry };

    fn clone(&self) -> Result<EntryRef<'repo, 'a, S>, AllocError> {
        Ok(*self)
    }
}

impl<'repo, 'a, S> Copy for EntryRef<'repo, 'a, S> {}

impl<'repo, 'a, S> EntryRef<'repo, 'a, S> {
    ghost use Rattle.std.specs.Prelude.{◌≡◌};
    ghost use Rattle.bstr.specs.BStr.{bstr_bytes};
    ghost use Rattle.gx_object.specs.Mode.{kind_of_mode};
    ghost use Rattle.gix.specs.AttachedObjects.{attached_id, of_id};
    ghost use Rattle.gix.specs.TreeEntries.{of_entry};

    pub fn mode(&self) -> EntryMode
        ensures { result ≡ (of_entry self.now).entry.mode }
    {
        self.inner.mode
    }

    /// What the mode's file type and execute bit say.
    pub fn kind(&self) -> EntryKind
        ensures { result ≡ kind_of_mode (of_entry self.now).entry.mode.value }
    {
        self.inner.mode.kind()
    }

    /// The name in the tree.
    pub fn filename(&self) -> BStr<'a>
        ensures { bstr_bytes result ≡ (of_entry self.now).entry.filename }
    {
        self.inner.filename
    }

    /// The id of what the entry names, with the repository.
    pub fn id(&self) -> Id<'repo, S>
        ensures { of_id result ≡ attached_id (of_entry self.now).entry.oid (of_entry self.now).repository }
    {
        Id {
            inner: self.inner.oid,
            repo: self.repo,
        }
    }

    pub fn oid(&self) -> &ObjectId
        ensures { result.now ≡ (of_entry self.now).entry.oid }
    {
        &self.inner.oid
    }

    pub fn object_id(&self) -> ObjectId
        ensures { result ≡ (of_entry self.now).entry.oid }
    {
        self.inner.oid
    }

    /// The entry without the repository.
    pub fn detach(&self) -> gx_object::EntryRef<'a>
        ensures { result ≡ self.now.inner }
    {
        self.inner
    }
}

impl<'repo, 'a, S: Store> EntryRef<'repo, 'a, S> {
    ghost use Rattle.gix.specs.Asking.{asks};
    ghost use Rattle.gix.specs.FoundObjects.{find_query};
    ghost use Rattle.gix.specs.Meaning.{Means};
    ghost use Rattle.gix.specs.Repository.{held_by};
    ghost use Rattle.gix.specs.TreeEntries.{of_entry};

    /// The object that the entry names.
    ///
    /// # Errors
    /// `NotFound` if it is not stored; `Store` if it can't be read; `NoMemory`.
    pub fn object(&self, alloc: Global) -> Result<Object<'repo, S>, FindError>
        ensures { Means (asks (find_query (of_entry self.now).repository (of_entry self.now).entry.oid))
            (held_by S.state (of_entry self.now).repository) result
            (held_by S.state (of_entry self.now).repository) }
    {
        self.repo.find_object(alloc, self.inner.oid)
    }
}
