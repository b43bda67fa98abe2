//! What a commit writes, each object after all that it names: blobs, trees, the commit.

ghost use Rattle.std.specs.Prelude.{◌≡◌, ◌++◌, ◌∷◌, [], ℕ, ◌≤◌, false, List, length, take, IfOk, OnOk, OnErr};
ghost use Rattle.gx_hash.specs.declared.oid.ObjectId.{ObjectId};
ghost use Rattle.gx_store.specs.State.{Becomes, HasCause, IfFault, all_stored};
ghost use Rattle.gx_edit.specs.PathMap.{blobs_in, blobs_of};
ghost use Rattle.gix.specs.CommitRequest.{asked};
ghost use Rattle.gix.specs.CommitEdits.{Grows, written_objects};
ghost use Rattle.gix.specs.Stages.{AreObjects, blob_ids};

use crate::plan::NewObjects;
use crate::request::Request;
use gx_edit::PathEdit;
use gx_hash::ObjectId;
use gx_object::Kind;
use gx_store::{Objects, StoreError};
use std::alloc::Global;

/// Stores all objects of a commit.
pub(crate) fn write_new<S: Objects>(
    alloc: Global,
    store: &mut S,
    request: &Request<'_>,
    objects: &NewObjects,
) -> Result<(), StoreError>
    requires { AreObjects (S.state store.old).hash (asked request.now) objects.now }
    ensures ok { OnOk result (Becomes
        (all_stored (written_objects (asked request.now) objects.now.trees) (S.state store.old)) (S.state store.new)) }
    ensures err { OnErr result (Grows (written_objects (asked request.now) objects.now.trees) (S.state store.old)
        (S.state store.new)) }
    ensures fault { IfFault result (HasCause (S.state store.old) (S.state store.new)) }
{
    write_blobs(alloc, store, request.edits, &objects.blobs)?;
    objects.trees.store(alloc, store)?;
    store.write(alloc, objects.id, Kind::Commit, objects.commit.as_slice())
}

/// Stores the blobs of edits, whose ids are known. After an error the first of them are stored.
fn write_blobs<S: Objects>(
    alloc: Global,
    store: &mut S,
    edits: &[PathEdit],
    ids: &[ObjectId],
) -> Result<(), StoreError>
    requires { ids.now ≡ blob_ids (S.state store.old).hash edits.now }
    ensures ok { OnOk result (Becomes (all_stored (blobs_of edits.now) (S.state store.old)) (S.state store.new)) }
    ensures err { OnErr result ((n : ℕ) × (n ≤ length edits.now)
        × Becomes (all_stored (blobs_of (take n edits.now)) (S.state store.old)) (S.state store.new)) }
    ensures fault { IfFault result (HasCause (S.state store.old) (S.state store.new)) }
{
    let mut rest = ids;
    for edit in edits {
        rest = write_blob(alloc, store, edit, rest)?;
    }
    Ok(())
}

/// Stores the blob of an edit, whose id comes first, where it has one. Answers the other ids.
fn write_blob<'a, S: Objects>(
    alloc: Global,
    store: &mut S,
    edit: &PathEdit,
    ids: &'a [ObjectId],
) -> Result<&'a [ObjectId], StoreError>
    requires { (more : List ObjectId) × (ids.now ≡ blob_ids (S.state store.old).hash (edit.now ∷ []) ++ more) }
    ensures ok { OnOk result (Becomes (all_stored (blobs_in edit.now) (S.state store.old)) (S.state store.new)) }
    ensures rest { (more : List ObjectId) → ids.now ≡ blob_ids (S.state store.old).hash (edit.now ∷ []) ++ more
        → IfOk result (λ rest. rest.now ≡ more) }
    ensures err { OnErr result (Becomes (S.state store.old) (S.state store.new)) }
    ensures fault { IfFault result (HasCause (S.state store.old) (S.state store.new)) }
{
    match edit {
        PathEdit::File { bytes, .. } | PathEdit::Link { bytes, .. } => {
            let [id, rest @ ..] = ids else { unreachable!() };
            store.write(alloc, *id, Kind::Blob, bytes.as_slice())?;
            Ok(rest)
        }
        _ => Ok(ids),
    }
}
