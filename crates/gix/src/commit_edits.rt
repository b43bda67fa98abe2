//! Commits of edits: from a request to a moved reference.

ghost use Rattle.std.specs.Prelude.{◌≡◌, [], IfOk, IfErr};
ghost use Rattle.gix.specs.CommitRequest.{asked, HaveModuleIds};
ghost use Rattle.gix.specs.CommitEdits.{Commits, Leaves};
ghost use Rattle.gix.specs.Causes.{CommitEditsCauses};
ghost use Rattle.gix.specs.MadeCommit.{IsCommitOver};

use crate::error::of_reference;
use crate::plan::{Plan, plan_commit};
use crate::request::Request;
use crate::write::write_new;
use crate::{CommitEditsError, Repository, Settings, laws};
use gx_edit::PathEdit;
use gx_hash::ObjectId;
use gx_object::Signature;
use gx_rules::FullName;
use gx_store::Store;
use std::alloc::Global;

/// The parents of a commit that begins a history.
pub const NO_PARENT_IDS: [ObjectId; 0] = [];

/// A commit that was made: its id, and that of its tree.
#[derive(Clone, Copy)]
pub struct MadeCommit {
    pub id: ObjectId,
    pub tree: ObjectId,
}

impl<S: Store> Repository<S> {
    ghost use Rattle.gix.specs.CommitRequest.{request_of, HaveModuleIds};
    ghost use Rattle.gix.specs.Machine.{commit_edits_meaning};
    ghost use Rattle.gix.specs.MadeCommit.{IsCommitOver, made_id};
    ghost use Rattle.gix.specs.Meaning.{Means};
    ghost use Rattle.gix.specs.Repository.{held_by};

    /// Makes a commit of the first parent's tree, or of the empty one, after the edits in their order, and lets the end
    /// of the reference's chain name it. Of the tree its root is read, and each directory that an edit's path runs
    /// through; these alone are written anew.
    ///
    /// Objects are stored before the reference is moved, each after all that it names. Where the store tells what it
    /// holds, an answer that is no fault and no lack of memory is one that the repository machine may give. A
    /// submodule's id must not be null.
    ///
    /// # Errors
    /// Stage by stage, and before anything is written: `FindExistingObject`, `ObjectKind` and `Decode` for the first
    /// parent and its tree; the same for a directory on the way to an edit's path, and `EmptyPathComponent` for the
    /// path; `WriteObject`, `InvalidFilename` and `MissingObject` for the new trees; `WriteObject` for an identity;
    /// `Cycle`, `DepthLimitExceeded`, `MustExist`, `MustNotExist`, `ReferenceOutOfDate` and `NameConflict` for the
    /// reference. `Store` and `NoMemory` may come at any time.
    pub fn commit_edits(
        &mut self,
        alloc: Global,
        committer: &Signature,
        author: &Signature,
        reference: &FullName,
        message: &[u8],
        parents: &[ObjectId],
        edits: &[PathEdit],
    ) -> Result<ObjectId, CommitEditsError>
        requires { HaveModuleIds edits.now }
        ensures { Means
            (commit_edits_meaning
            (request_of committer.now author.now reference.now message.now parents.now edits.now))
            (held_by S.state self.old) result (held_by S.state self.new) }
    {
        match self.make_commit(alloc, committer, author, reference, message, parents, edits) {
            Ok(made) => Ok(made.id),
            Err(refusal) => Err(refusal),
        }
    }

    /// The same as `commit_edits`, and tells the tree of the commit too.
    pub fn make_commit(
        &mut self,
        alloc: Global,
        committer: &Signature,
        author: &Signature,
        reference: &FullName,
        message: &[u8],
        parents: &[ObjectId],
        edits: &[PathEdit],
    ) -> Result<MadeCommit, CommitEditsError>
        requires { HaveModuleIds edits.now }
        ensures means { Means
            (commit_edits_meaning
            (request_of committer.now author.now reference.now message.now parents.now edits.now))
            (held_by S.state self.old) (made_id result) (held_by S.state self.new) }
        ensures tree { IfOk result (IsCommitOver (held_by S.state self.old).store.hash
            (request_of committer.now author.now reference.now message.now parents.now edits.now)) }
    {
        let request = Request {
            committer,
            author,
            reference,
            message,
            parents,
            edits,
        };
        laws::commit_is_accepted();
        commit_request(alloc, &mut self.store, &self.settings, &request)
    }
}

/// Goes through all stages, and then writes.
fn commit_request<S: Store>(
    alloc: Global,
    store: &mut S,
    settings: &Settings,
    request: &Request<'_>,
) -> Result<MadeCommit, CommitEditsError>
    requires { HaveModuleIds (asked request.now).edits }
    ensures ok { IfOk result (λ made.
        Commits settings.now (asked request.now) (S.state store.old) made.id (S.state store.new)) }
    ensures tree { IfOk result (IsCommitOver (S.state store.old).hash (asked request.now)) }
    ensures leaves { IfErr result (Leaves settings.now (asked request.now) (S.state store.old) (S.state store.new)) }
    ensures causes { IfErr result
        (CommitEditsCauses settings.now (asked request.now) (S.state store.old) (S.state store.new)) }
{
    let plan = plan_commit(alloc, store, settings, request)?;
    write_new(alloc, store, request, &plan.objects)?;
    let Plan { objects, prepared } = plan;
    let made = MadeCommit {
        id: objects.id,
        tree: objects.trees.root(),
    };
    match prepared.commit(alloc, store) {
        Ok(_) => Ok(made),
        Err(refusal) => Err(of_reference(refusal)),
    }
}
