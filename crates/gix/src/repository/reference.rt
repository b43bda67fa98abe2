//! References of a repository: found, and edited one by one.

ghost use Rattle.std.specs.Prelude.{◌≡◌, ◌∷◌, [], IfOk, IsTrue};
ghost use Rattle.gx_store.specs.State.{IfFault};
ghost use Rattle.gix.specs.FindReference.{IsFoundBy, ReadsCandidate};
ghost use Rattle.gix.specs.OneEdit.{update_of};
ghost use Rattle.gix.specs.Repository.{settings_of, store_of};
ghost use Rattle.gix.specs.View.{view_of};

use crate::Repository;
use crate::reference::iter::store_error;
use crate::reference::{RefFindError, Reference};
use crate::space::namespace_of;
use gx_hash::{Bytes, NoMemory, ObjectId};
use gx_refs::{Change, Edits, LogChange, PreviousValue, RefEdit, RefError, RefLog};
use gx_rules::{FullName, PartialName};
use gx_store::{Store, StoreError, Target};
use std::alloc::Global;

/// The reference that a part of its name means, if it means one.
fn find_meant<S: Store>(
    alloc: Global,
    repo: &Repository<S>,
    name: &PartialName,
) -> Result<Option<gx_refs::Reference>, StoreError>
    ensures found { IfOk result (IsFoundBy (settings_of repo.now) (view_of (S.state (store_of repo.now))) name.now) }
    ensures fault { IfFault result (λ fault. IsTrue ((S.state (store_of repo.now)).unreadable fault)
        × ReadsCandidate (settings_of repo.now) (view_of (S.state (store_of repo.now))) name.now fault) }
{
    match gx_refs::find(alloc, &repo.store, namespace_of(&repo.settings), name) {
        Ok(found) => Ok(found),
        Err(refusal) => Err(store_error(refusal)),
    }
}

/// The edit that lets a name itself name an object.
fn update_of(
    alloc: Global,
    name: &FullName,
    id: ObjectId,
    expected: PreviousValue,
    message: &[u8],
) -> Result<RefEdit, NoMemory>
    ensures { IfOk result (λ edit. edit ≡ update_of name.now id expected message.now) }
{
    let log = LogChange {
        mode: RefLog::AndReference,
        force_create_reflog: false,
        message: Bytes::from_slice(alloc, message)?,
    };
    let change = Change::Update {
        log,
        expected,
        new: Target::Object(id),
    };
    Ok(RefEdit {
        change,
        name: name.try_clone()?,
        deref: false,
    })
}

fn one_edit(alloc: Global, edit: RefEdit) -> Result<Edits, NoMemory>
    ensures { IfOk result (λ edits. edits ≡ edit ∷ []) }
{
    let mut edits = Vec::new(alloc);
    edits.push(edit)?;
    Ok(Edits::from_vec(edits))
}

impl<S: Store> Repository<S> {
    ghost use Rattle.std.specs.Prelude.{◌∷◌, [], IfSome};
    ghost use Rattle.gx_hash.specs.HashKind.{IsOfKind};
    ghost use Rattle.gx_refs.specs.Prepared.{AreEditsOfKind, SetsKind};
    ghost use Rattle.gix.specs.Asking.{asks};
    ghost use Rattle.gix.specs.Attached.{detached, detached_if_found, home_of};
    ghost use Rattle.gix.specs.FindReference.{find_reference_query, try_find_reference_query};
    ghost use Rattle.gix.specs.Meaning.{Means};
    ghost use Rattle.gix.specs.OneEdit.{reference_meaning, unsigned_meaning};
    ghost use Rattle.gix.specs.Repository.{held_by, store_of};

    /// The reference that a part of its name means: that name itself, or with `refs/`, `refs/tags/`, `refs/heads/` or
    /// `refs/remotes/` in front, or the `HEAD` of a remote of that name; `None` where none of them is there.
    ///
    /// # Errors
    /// `Fault` if one of these names can't be read; `NoMemory`.
    pub fn try_find_reference(
        &self,
        alloc: Global,
        name: &PartialName,
    ) -> Result<Option<Reference<'_, S>>, StoreError>
        ensures means { Means (asks (try_find_reference_query name.now)) (held_by S.state self.now)
            (detached_if_found result) (held_by S.state self.now) }
        ensures home { IfOk result (λ found. IfSome found (λ reference. home_of reference ≡ self.now)) }
    {
        match find_meant(alloc, self, name)? {
            Some(inner) => Ok(Some(Reference::from_ref(inner, self))),
            None => Ok(None),
        }
    }

    /// The same, of a name that means a reference.
    ///
    /// # Errors
    /// `NotFound` if the name means none; `Store` if one of its names can't be read; `NoMemory`.
    pub fn find_reference(
        &self,
        alloc: Global,
        name: &PartialName,
    ) -> Result<Reference<'_, S>, RefFindError>
        ensures means { Means (asks (find_reference_query name.now)) (held_by S.state self.now) (detached result)
            (held_by S.state self.now) }
        ensures home { IfOk result (λ reference. home_of reference ≡ self.now) }
    {
        match find_meant(alloc, self, name)? {
            Some(inner) => Ok(Reference::from_ref(inner, self)),
            None => {
                let name = name.try_clone()?;
                Err(RefFindError::NotFound { name })
            }
        }
    }

    /// Makes the edits of references as `edit_references_as` does, signed by nobody, since settings name no committer.
    /// New ids have to be of the repository's kind.
    ///
    /// # Errors
    /// Those of `edit_references_as`: where a log is to be told, `MissingCommitter`.
    pub fn edit_references(&mut self, alloc: Global, edits: Edits) -> Result<Edits, RefError>
        requires { AreEditsOfKind (S.state (store_of self.old)).hash edits }
        ensures { Means (unsigned_meaning edits) (held_by S.state self.old) result (held_by S.state self.new) }
    {
        self.edit_references_as(alloc, edits, None)
    }

    /// Makes one edit as `edit_references` does.
    ///
    /// # Errors
    /// Those of `edit_references_as` but `DuplicateEdit`.
    pub fn edit_reference(&mut self, alloc: Global, edit: RefEdit) -> Result<Edits, RefError>
        requires { SetsKind (S.state (store_of self.old)).hash edit.change }
        ensures { Means (unsigned_meaning (edit ∷ [])) (held_by S.state self.old) result (held_by S.state self.new) }
    {
        let edits = one_edit(alloc, edit)?;
        self.edit_references(alloc, edits)
    }

    /// Lets a name itself name an object, and answers that reference. The object's id has to be of the repository's
    /// kind; whether it is stored is not asked.
    ///
    /// # Errors
    /// Those of `edit_reference` but `Cycle` and `DepthLimitExceeded`.
    pub fn reference(
        &mut self,
        alloc: Global,
        name: &FullName,
        target: ObjectId,
        constraint: PreviousValue,
        log_message: &[u8],
    ) -> Result<gx_refs::Reference, RefError>
        requires { IsOfKind (S.state (store_of self.old)).hash target }
        ensures { Means (reference_meaning name.now target constraint log_message.now) (held_by S.state self.old)
            result (held_by S.state self.new) }
    {
        let reference = gx_refs::Reference {
            name: name.try_clone()?,
            target: Target::Object(target),
            peeled: None,
        };
        let edit = update_of(alloc, name, target, constraint, log_message)?;
        self.edit_reference(alloc, edit)?;
        Ok(reference)
    }
}
