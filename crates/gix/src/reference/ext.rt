//! Calls on references that were found, over any repository.

ghost use Rattle.std.specs.Prelude.{◌≡◌, IfOk};
ghost use Rattle.gix.specs.OneEdit.{deletion_of};

use super::{Reference, SetTargetError};
use crate::Repository;
use gx_hash::{NoMemory, ObjectId};
use gx_refs::{Change, PreviousValue, RefEdit, RefError, RefLog};
use gx_store::{Store, Target};
use std::alloc::Global;

/// What a reference that was found can do with a repository.
pub trait ReferenceExt {
    ghost use Rattle.std.specs.Prelude.{◌≡◌, OnErr, OnOk};
    ghost use Rattle.gx_hash.specs.HashKind.{IsOfKind};
    ghost use Rattle.gx_refs.specs.declared.reference.Reference.{Reference as Found};
    ghost use Rattle.gix.specs.Attached.{found_of, home_of};
    ghost use Rattle.gix.specs.Meaning.{Means};
    ghost use Rattle.gix.specs.OneEdit.{delete_meaning, naming};
    ghost use Rattle.gix.specs.Repository.{held_by, store_of};
    ghost use Rattle.gix.specs.SetTarget.{set_target_meaning};

    ghost found: { Self → Found };

    /// The reference in a repository, its names being given there.
    fn attach<'repo, S: Store>(self, repo: &'repo Repository<S>) -> Reference<'repo, S>
        ensures found { found_of result ≡ Self.found self }
        ensures home { home_of result ≡ repo.now };

    /// Lets the reference name another object, if it still has the target that is held here, and then holds that
    /// object. New ids have to be of the repository's kind.
    ///
    /// # Errors
    /// `SymbolicReference` if the reference itself is symbolic; `ReferenceEdit` if the edit is refused: the target is
    /// another by now, or a log is to be told; `Store`; `NoMemory`.
    fn set_target_id<S: Store>(
        &mut self,
        alloc: Global,
        repo: &mut Repository<S>,
        id: ObjectId,
        message: &[u8],
    ) -> Result<(), SetTargetError>
        requires { IsOfKind (S.state (store_of repo.old)).hash id }
        ensures means { Means (set_target_meaning (Self.found self.old) id message.now) (held_by S.state repo.old)
            result (held_by S.state repo.new) }
        ensures ok { OnOk result (Self.found self.new ≡ naming (Self.found self.old).name id) }
        ensures err { OnErr result (Self.found self.new ≡ Self.found self.old) };

    /// Deletes the reference and its log, if it still has the target that is held here.
    ///
    /// # Errors
    /// Those of `edit_reference`.
    fn delete<S: Store>(&self, alloc: Global, repo: &mut Repository<S>) -> Result<(), RefError>
        ensures { Means (delete_meaning (Self.found self.now)) (held_by S.state repo.old) result
            (held_by S.state repo.new) };
}

fn deletion_of(reference: &gx_refs::Reference) -> Result<RefEdit, NoMemory>
    ensures { IfOk result (λ edit. edit ≡ deletion_of reference.now) }
{
    let change = Change::Delete {
        expected: PreviousValue::MustExistAndMatch(reference.target.try_clone()?),
        log: RefLog::AndReference,
    };
    Ok(RefEdit {
        change,
        name: reference.name.try_clone()?,
        deref: false,
    })
}

impl ReferenceExt for gx_refs::Reference {
    ghost found = { λ reference. reference };

    fn attach<'repo, S: Store>(self, repo: &'repo Repository<S>) -> Reference<'repo, S> {
        Reference::from_ref(self, repo)
    }

    fn set_target_id<S: Store>(
        &mut self,
        alloc: Global,
        repo: &mut Repository<S>,
        id: ObjectId,
        message: &[u8],
    ) -> Result<(), SetTargetError> {
        let Target::Object(current) = self.target else {
            let name = self.name.try_clone()?;
            return Err(SetTargetError::SymbolicReference { name });
        };
        let expected = PreviousValue::MustExistAndMatch(Target::Object(current));
        let moved = repo.reference(alloc, &self.name, id, expected, message)?;
        *self = moved;
        Ok(())
    }

    fn delete<S: Store>(&self, alloc: Global, repo: &mut Repository<S>) -> Result<(), RefError> {
        let edit = deletion_of(self)?;
        repo.edit_reference(alloc, edit)?;
        Ok(())
    }
}
