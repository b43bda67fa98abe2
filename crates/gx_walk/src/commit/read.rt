//! How a walk reads commits.

ghost use Rattle.std.specs.Prelude.{◌≡◌, ℕ, List, map, IfOk, IfErr, IfSome, Some, Ok};
ghost use Rattle.gx_hash.specs.ObjectId.{id_from_hex};
ghost use Rattle.gx_object.specs.declared.kind.Kind.TheVariants as object_kind;
ghost use Rattle.gx_object.specs.CommitSpelling.{CommitText, SpellsCommit};
ghost use Rattle.std.specs.FinMap.{get};
ghost use Rattle.gx_walk.specs.Causes.{CommitCauses};
ghost use Rattle.gx_walk.specs.History.{Told};
ghost use Rattle.gx_walk.specs.Read.{node_of};

use crate::WalkError;
use gx_hash::{Bytes, NoMemory, ObjectId, laws};
use gx_object::{CommitRef, CommitRefIter, DecodeError, Ids, Kind};
use gx_store::Objects;
use std::alloc::Global;

/// What a walk reads of a commit.
#[derive(Debug, Drop)]
pub(crate) struct ReadCommit {
    pub(crate) parents: Ids,
    /// The committer's time, in seconds since the Unix epoch.
    pub(crate) time: i64,
}

/// The commit at an id.
pub(crate) fn read_commit<S: Objects>(
    alloc: Global,
    store: &S,
    id: ObjectId,
) -> Result<ReadCommit, WalkError>
    ensures ok { IfOk result (λ commit. Told (S.state store.now) (λ history. history id ≡ Some (node_of commit))) }
    ensures causes { IfErr result (CommitCauses (S.state store.now) (λ one. one ≡ id)) }
{
    let bytes = commit_bytes(alloc, store, id)?;
    let hash = store.hash_kind();
    let slice = bytes.as_slice();
    match CommitRef::from_bytes(alloc, slice, hash) {
        Ok(commit) => {
            let parents = parent_ids(alloc, &CommitRefIter::from_bytes(slice, hash))?;
            Ok(ReadCommit {
                parents,
                time: commit.committer.seconds(),
            })
        }
        Err(DecodeError::NoMemory) => Err(WalkError::NoMemory),
        Err(DecodeError::Decode { .. }) => Err(WalkError::Decode { id }),
    }
}

/// The bytes of the commit at an id.
fn commit_bytes<S: Objects>(alloc: Global, store: &S, id: ObjectId) -> Result<Bytes, WalkError>
    ensures ok { IfOk result (λ bytes. IfSome (S.state store.now).content (λ content.
        get content id ≡ Some (object_kind.Commit, bytes))) }
    ensures causes { IfErr result (CommitCauses (S.state store.now) (λ one. one ≡ id)) }
{
    match store.read(alloc, &id)? {
        Some((Kind::Commit, bytes)) => Ok(bytes),
        Some(_) => Err(WalkError::NotACommit { id }),
        None if id.is_empty_tree() => Err(WalkError::NotACommit { id }),
        None => Err(WalkError::Missing { id }),
    }
}

/// The ids of the parents of a commit.
fn parent_ids(alloc: Global, commit: &CommitRefIter<'_>) -> Result<Ids, NoMemory>
    ensures { (c : CommitText) → SpellsCommit commit.now.text.hash commit.now.text.bytes c
        → IfOk result (λ ids. map id_from_hex c.parents ≡ map Ok ids) }
{
    let mut parents = Vec::new(alloc);
    for id in commit.parent_ids() {
        laws::spellings_read_back(&id);
        parents.push(id)?;
    }
    Ok(Ids::from_vec(parents))
}
