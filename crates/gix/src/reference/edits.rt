//! Edits of references, a list at a time.

ghost use Rattle.std.specs.Prelude.{IfOk, IfErr, option_copied};
ghost use Rattle.gx_refs.specs.Prepared.{AreEditsOfKind};
ghost use Rattle.gix.specs.EditReferences.{LeavesEdits, MakeCauses, MakesEdits, terms_in};

use crate::space::namespace_of;
use crate::{Repository, Settings};
use gx_object::Signature;
use gx_refs::{Edits, RefError, prepare};
use gx_store::Store;
use std::alloc::Global;

impl<S: Store> Repository<S> {
    ghost use Rattle.std.specs.Prelude.{option_copied};
    ghost use Rattle.gx_refs.specs.Prepared.{AreEditsOfKind};
    ghost use Rattle.gix.specs.EditReferences.{edit_references_meaning};
    ghost use Rattle.gix.specs.Meaning.{Means};
    ghost use Rattle.gix.specs.Repository.{held_by, store_of};

    /// Makes the edits of references, all at once, and answers them as they were made, each with what it found.
    /// A refusal makes none of them, and a fault of writing leaves each changed name and log old or new. Lines of logs
    /// that are due are the committer's. New ids have to be of the repository's kind.
    ///
    /// # Errors
    /// `Cycle` and `DepthLimitExceeded` for an edit that follows symbolic references; `MustExist`, `MustNotExist` and
    /// `ReferenceOutOfDate` for what an edit expects; `DuplicateEdit` where two edits share a name; `NameConflict`
    /// for a new name; `MissingCommitter` and `Unwritable` for a line of a log; `Store` and `NoMemory`.
    pub fn edit_references_as(
        &mut self,
        alloc: Global,
        edits: Edits,
        committer: Option<&Signature>,
    ) -> Result<Edits, RefError>
        requires { AreEditsOfKind (S.state (store_of self.old)).hash edits }
        ensures { Means (edit_references_meaning (option_copied committer.entry) edits) (held_by S.state self.old)
            result (held_by S.state self.new) }
    {
        make_edits(alloc, &mut self.store, &self.settings, edits, committer)
    }
}

fn make_edits<S: Store>(
    alloc: Global,
    store: &mut S,
    settings: &Settings,
    edits: Edits,
    committer: Option<&Signature>,
) -> Result<Edits, RefError>
    requires { AreEditsOfKind (S.state store.old).hash edits }
    ensures ok { IfOk result (λ answer. MakesEdits (terms_in settings.now (option_copied committer.entry)) edits
        (S.state store.old) answer (S.state store.new)) }
    ensures leaves { IfErr result (LeavesEdits (terms_in settings.now (option_copied committer.entry)) edits
        (S.state store.old) (S.state store.new)) }
    ensures causes { IfErr result (MakeCauses (terms_in settings.now (option_copied committer.entry)) edits
        (S.state store.old) (S.state store.new)) }
{
    let space = namespace_of(settings);
    let prepared = prepare(alloc, store, space, edits, settings.log_mode, committer)?;
    prepared.commit(alloc, store)
}
