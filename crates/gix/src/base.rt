//! The first stage: what a commit starts from. Of its tree the root alone is read.

ghost use Rattle.std.specs.Prelude.{◌≡◌, Some, IfOk, IfErr, IfSome};
ghost use Rattle.gx_object.specs.declared.kind.Kind.TheVariants as object_kind;
ghost use Rattle.gx_store.specs.Content.{lookup};
ghost use Rattle.gix.specs.declared.settings.Settings.{Settings};
ghost use Rattle.gix.specs.CommitRequest.{asked};
ghost use Rattle.gix.specs.Base.{HasTree};
ghost use Rattle.gix.specs.Stages.{StageCauses, ReadCauses, IsBaseEditor};

use crate::CommitEditsError;
use crate::error::lifted;
use crate::request::Request;
use gx_edit::Editor;
use gx_hash::{Bytes, ObjectId, laws};
use gx_object::{CommitRef, DecodeError, Entries, Kind, Tree};
use gx_store::Objects;
use std::alloc::Global;

/// An editor of the first parent's tree, and without a parent of the empty one.
pub(crate) fn base_of<S: Objects>(
    alloc: Global,
    store: &S,
    request: &Request<'_>,
) -> Result<Editor, CommitEditsError>
    ensures ok { IfOk result (IsBaseEditor (asked request.now) (S.state store.now)) }
    ensures err { (settings : Settings) → IfErr result (StageCauses settings (asked request.now) (S.state store.now)) }
{
    let Some(parent) = request.parents.first() else {
        let entries = Entries::new(alloc);
        return Ok(Editor::new(alloc, Tree { entries }, store.hash_kind())?);
    };
    let tree = tree_of(alloc, store, *parent)?;
    match Editor::open(alloc, store, tree) {
        Ok(editor) => Ok(editor),
        Err(refusal) => Err(lifted(refusal)),
    }
}

/// The tree that a stored commit names. The whole commit is read, and refused where a line of it is bad.
fn tree_of<S: Objects>(
    alloc: Global,
    store: &S,
    commit: ObjectId,
) -> Result<ObjectId, CommitEditsError>
    ensures ok { IfOk result (λ tree. IfSome (S.state store.now).content
        (λ content. HasTree (S.state store.now).hash content commit tree)) }
    ensures err { IfErr result (ReadCauses (S.state store.now) object_kind.Commit commit) }
{
    let bytes = commit_at(alloc, store, commit)?;
    let hash = store.hash_kind();
    match CommitRef::from_bytes(alloc, bytes.as_slice(), hash) {
        Err(DecodeError::NoMemory) => Err(CommitEditsError::NoMemory),
        Err(DecodeError::Decode { .. }) => Err(CommitEditsError::Decode { id: commit }),
        Ok(found) => {
            let tree = ObjectId::from_digits(found.tree.as_bytes());
            laws::spellings_read_back(&tree);
            Ok(tree)
        }
    }
}

/// The bytes of the commit at an id. At the empty tree's a tree is always found.
fn commit_at<S: Objects>(alloc: Global, store: &S, id: ObjectId) -> Result<Bytes, CommitEditsError>
    ensures ok { IfOk result (λ bytes. IfSome (S.state store.now).content (λ content. lookup content id
        ≡ Some (object_kind.Commit, bytes))) }
    ensures err { IfErr result (ReadCauses (S.state store.now) object_kind.Commit id) }
{
    match store.read(alloc, &id)? {
        Some((Kind::Commit, bytes)) => Ok(bytes),
        Some((actual, _)) => Err(CommitEditsError::ObjectKind { id, actual }),
        None if id.is_empty_tree() => Err(CommitEditsError::ObjectKind {
            id,
            actual: Kind::Tree,
        }),
        None => Err(CommitEditsError::FindExistingObject { id }),
    }
}
