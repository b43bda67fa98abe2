// What edits leave at a path, and the blobs that they bring.
ghost use Rattle.std.specs.Prelude.{◌≡◌, ◌++◌, IfOk, OnOk};
ghost use Rattle.gx_object.specs.Mode.{mode_of};
ghost use Rattle.gx_edit.specs.PathMap.{PathMap, no_paths, put, dropped, blob_id, file_mode, with_edit, edited, blobs_in, blobs_of};

use crate::names::{components, is_same_path, leads_to};
use gx_edit::{Leaf, PathEdit};
use gx_hash::{Bytes, HashKind, NoMemory, ObjectId, object_id};
use gx_object::{EntryKind, EntryMode, Kind};
use std::alloc::Global;

fn blob_id(hash: HashKind, bytes: &[u8]) -> ObjectId
    ensures { result ≡ blob_id hash bytes.now }
{
    object_id(hash, Kind::Blob.as_bytes(), bytes)
}

fn leaf_of(kind: EntryKind, id: ObjectId) -> Leaf
    ensures { result ≡ record { mode = record { value = mode_of kind }; id = id } }
{
    Leaf {
        mode: EntryMode::from(kind),
        id,
    }
}

fn file_kind(executable: bool) -> EntryKind
    ensures { mode_of result ≡ file_mode executable }
{
    if executable {
        EntryKind::BlobExecutable
    } else {
        EntryKind::Blob
    }
}

/// The leaf at `path` after a put at another, where `old` stood before.
fn put(old: Option<Leaf>, at: &[Bytes], leaf: Leaf, path: &[Bytes]) -> Option<Leaf>
    ensures { (m : PathMap) → m path.now ≡ old → result ≡ put m at.now leaf path.now }
{
    if is_same_path(at, path) {
        return Some(leaf);
    }
    let above = leads_to(at, path);
    let below = leads_to(path, at);
    if above || below { None } else { old }
}

/// The leaf at `path` after another path was dropped, where `old` stood before.
fn dropped(old: Option<Leaf>, at: &[Bytes], path: &[Bytes]) -> Option<Leaf>
    ensures { (m : PathMap) → m path.now ≡ old → result ≡ dropped m at.now path.now }
{
    if leads_to(at, path) { None } else { old }
}

/// The leaf at `path` after the edit, where `old` stood before.
fn with_edit(
    alloc: Global,
    hash: HashKind,
    old: Option<Leaf>,
    edit: &PathEdit,
    path: &[Bytes],
) -> Result<Option<Leaf>, NoMemory>
    ensures { IfOk result (λ leaf. (m : PathMap) → m path.now ≡ old → leaf ≡ with_edit hash m edit.now path.now) }
{
    let at = components(alloc, edit.path().as_slice())?;
    match edit {
        PathEdit::File {
            bytes,
            executable,
            ..
        } => {
            let id = blob_id(hash, bytes.as_slice());
            Ok(put(old, &at, leaf_of(file_kind(*executable), id), path))
        }
        PathEdit::Link { bytes, .. } => {
            let id = blob_id(hash, bytes.as_slice());
            Ok(put(old, &at, leaf_of(EntryKind::Link, id), path))
        }
        PathEdit::Module { id, .. } => Ok(put(old, &at, leaf_of(EntryKind::Commit, *id), path)),
        PathEdit::Remove { .. } => Ok(dropped(old, &at, path)),
    }
}

/// The leaf at `path` after edits of the empty tree.
pub fn edited(
    alloc: Global,
    hash: HashKind,
    edits: &[PathEdit],
    path: &[Bytes],
) -> Result<Option<Leaf>, NoMemory>
    ensures { IfOk result (λ leaf. leaf ≡ edited hash no_paths edits.now path.now) }
{
    let mut leaf = None;
    for edit in edits {
        leaf = with_edit(alloc, hash, leaf, edit, path)?;
    }
    Ok(leaf)
}

fn push_blobs_in(blobs: &mut Vec<(Kind, Bytes)>, edit: &PathEdit) -> Result<(), NoMemory>
    ensures { OnOk result (blobs.new.items ≡ blobs.old.items ++ blobs_in edit.now) }
{
    match edit {
        PathEdit::File { bytes, .. } => {
            blobs.push((Kind::Blob, bytes.try_clone()?))?;
            Ok(())
        }
        PathEdit::Link { bytes, .. } => {
            blobs.push((Kind::Blob, bytes.try_clone()?))?;
            Ok(())
        }
        PathEdit::Module { .. } => Ok(()),
        PathEdit::Remove { .. } => Ok(()),
    }
}

/// The blobs that the edits bring.
pub fn blobs_of(alloc: Global, edits: &[PathEdit]) -> Result<Vec<(Kind, Bytes)>, NoMemory>
    ensures { IfOk result (λ blobs. blobs.items ≡ blobs_of edits.now) }
{
    let mut blobs = Vec::new(alloc);
    for edit in edits {
        push_blobs_in(&mut blobs, edit)?;
    }
    Ok(blobs)
}
