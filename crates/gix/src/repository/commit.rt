//! Commits of trees that are there.

ghost use Rattle.std.specs.Prelude.{◌≡◌, IfOk, IfErr};
ghost use Rattle.gx_object.specs.Commit.{plain_commit_bytes};
ghost use Rattle.gix.specs.CommitAs.{CommitCauses, CommitsTree, LeavesCommit};
ghost use Rattle.gix.specs.CommitRequest.{asked};

use crate::commit::{CommitError, NewCommitError};
use crate::moving::prepare_move;
use crate::plan::commit_bytes;
use crate::request::Request;
use crate::{Repository, Settings, object_laws};
use gx_hash::{Bytes, NoMemory, ObjectId, object_id};
use gx_object::{Kind, Signature, push_commit, unwritable_identity};
use gx_rules::FullName;
use gx_store::Store;
use std::alloc::Global;

/// The bytes of a commit.
fn spelled(
    alloc: Global,
    committer: &Signature,
    author: &Signature,
    message: &[u8],
    tree: &ObjectId,
    parents: &[ObjectId],
) -> Result<Bytes, NoMemory>
    ensures { IfOk result (λ bytes. bytes
        ≡ plain_commit_bytes tree.now parents.now author.now committer.now message.now) }
{
    let mut out = Vec::new(alloc);
    push_commit(&mut out, tree, parents, author, committer, message)?;
    Ok(Bytes::from_vec(out))
}

/// Stores the commit of a request over a tree, and moves its reference.
fn commit_tree<S: Store>(
    alloc: Global,
    store: &mut S,
    settings: &Settings,
    tree: ObjectId,
    request: &Request<'_>,
) -> Result<ObjectId, CommitError>
    ensures ok { IfOk result (λ id.
        CommitsTree settings.now tree (asked request.now) (S.state store.old) id (S.state store.new)) }
    ensures leaves { IfErr result
        (LeavesCommit settings.now tree (asked request.now) (S.state store.old) (S.state store.new)) }
    ensures causes { IfErr result
        (CommitCauses settings.now tree (asked request.now) (S.state store.old) (S.state store.new)) }
{
    if let Some(field) = unwritable_identity(request.author, request.committer) {
        return Err(CommitError::Unwritable { field });
    }
    let bytes = commit_bytes(alloc, &tree, request)?;
    let id = object_id(store.hash_kind(), Kind::Commit.as_bytes(), bytes.as_slice());
    let prepared = prepare_move(alloc, store, settings, request, id)?;
    store.write(alloc, id, Kind::Commit, bytes.as_slice())?;
    prepared.commit(alloc, store)?;
    Ok(id)
}

impl<S: Store> Repository<S> {
    ghost use Rattle.std.specs.Prelude.{[]};
    ghost use Rattle.gix.specs.CommitAs.{commit_as_meaning};
    ghost use Rattle.gix.specs.CommitOverTree.{commit_writing};
    ghost use Rattle.gix.specs.CommitRequest.{request_of};
    ghost use Rattle.gix.specs.Meaning.{Means};
    ghost use Rattle.gix.specs.Repository.{held_by};
    ghost use Rattle.gix.specs.Writes.{writes};

    /// Stores a commit of a tree, and answers its id. No reference is moved, and whether the tree and the parents are
    /// stored is not asked.
    ///
    /// # Errors
    /// `Unwritable` for the first field of the identities that can't be written, the author's before the committer's;
    /// `Store` if the write failed; `NoMemory`.
    pub fn new_commit_as(
        &mut self,
        alloc: Global,
        committer: &Signature,
        author: &Signature,
        message: &[u8],
        tree: ObjectId,
        parents: &[ObjectId],
    ) -> Result<ObjectId, NewCommitError>
        ensures { Means
            (writes (commit_writing tree (request_of committer.now author.now [] message.now parents.now [])))
            (held_by S.state self.old) result (held_by S.state self.new) }
    {
        if let Some(field) = unwritable_identity(author, committer) {
            return Err(NewCommitError::Unwritable { field });
        }
        let bytes = spelled(alloc, committer, author, message, &tree, parents)?;
        object_laws::written_object_is_stored();
        Ok(gx_store::write_object(alloc, &mut self.store, Kind::Commit, bytes.as_slice())?)
    }

    /// Stores a commit of a tree, and lets the end of the reference's chain name it. Without a parent the end has to be
    /// missing. Else it has to name the first parent; where another name than `HEAD` is given, it may be missing too.
    ///
    /// # Errors
    /// `Unwritable` as `new_commit_as`; `ReferenceEdit` where the edit of the reference is refused; `Store` and
    /// `NoMemory`. But for the last two nothing has changed.
    pub fn commit_as(
        &mut self,
        alloc: Global,
        committer: &Signature,
        author: &Signature,
        reference: &FullName,
        message: &[u8],
        tree: ObjectId,
        parents: &[ObjectId],
    ) -> Result<ObjectId, CommitError>
        ensures { Means (commit_as_meaning tree
            (request_of committer.now author.now reference.now message.now parents.now []))
            (held_by S.state self.old) result (held_by S.state self.new) }
    {
        let request = Request {
            committer,
            author,
            reference,
            message,
            parents,
            edits: &[],
        };
        commit_tree(alloc, &mut self.store, &self.settings, tree, &request)
    }
}
