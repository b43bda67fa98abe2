//! Edits of path maps, as rows write them: `file PATH BYTES`, `exec PATH BYTES`, `link PATH BYTES`, `module PATH ID`
//! and `remove PATH`, with a comma between two edits.

use crate::store::only;
use crate::values::{id_in, word_in};
use gx_edit::{EditError, PathEdit, PathMap};
use gx_hash::{Bytes, HashKind, ObjectId, object_id};
use gx_object::{EntryKind, Kind};
use probe_rows::ProbeError;
use std::alloc::Global;

/// The edits that stand between commas.
pub fn edits_in(alloc: Global, words: &[Vec<u8>]) -> Result<Vec<PathEdit>, ProbeError> {
    let mut edits = Vec::new(alloc);
    if words.is_empty() {
        return Ok(edits);
    }
    for edit in words.split(|field| field.as_slice() == b",".as_slice()) {
        edits.push(edit_in(alloc, edit)?)?;
    }
    Ok(edits)
}

fn edit_in(alloc: Global, words: &[Vec<u8>]) -> Result<PathEdit, ProbeError> {
    let [edit, path, content @ ..] = words else {
        return Err(ProbeError::BadLine);
    };
    match word_in(edit)? {
        "file" => file_in(alloc, path, content, false),
        "exec" => file_in(alloc, path, content, true),
        "link" => link_in(alloc, path, content),
        "module" => module_in(alloc, path, content),
        "remove" if content.is_empty() => removal_of(alloc, path),
        _ => Err(ProbeError::BadLine),
    }
}

fn file_in(
    alloc: Global,
    path: &[u8],
    content: &[Vec<u8>],
    executable: bool,
) -> Result<PathEdit, ProbeError> {
    let path = Bytes::from_slice(alloc, path)?;
    let bytes = Bytes::from_slice(alloc, only(content)?)?;
    Ok(PathEdit::File {
        path,
        bytes,
        executable,
    })
}

fn link_in(alloc: Global, path: &[u8], content: &[Vec<u8>]) -> Result<PathEdit, ProbeError> {
    let path = Bytes::from_slice(alloc, path)?;
    let bytes = Bytes::from_slice(alloc, only(content)?)?;
    Ok(PathEdit::Link { path, bytes })
}

fn module_in(alloc: Global, path: &[u8], content: &[Vec<u8>]) -> Result<PathEdit, ProbeError> {
    let id = id_in(only(content)?)?;
    let path = Bytes::from_slice(alloc, path)?;
    Ok(PathEdit::Module { path, id })
}

fn removal_of(alloc: Global, path: &[u8]) -> Result<PathEdit, ProbeError> {
    let path = Bytes::from_slice(alloc, path)?;
    Ok(PathEdit::Remove { path })
}

/// Makes the edits of the map in turn, up to one that is refused.
pub fn make_edits(map: &mut PathMap, hash: HashKind, edits: &[PathEdit]) -> Result<(), EditError> {
    for edit in edits {
        make_edit(map, hash, edit)?;
    }
    Ok(())
}

fn make_edit(map: &mut PathMap, hash: HashKind, edit: &PathEdit) -> Result<(), EditError> {
    match edit {
        PathEdit::File {
            path,
            bytes,
            executable,
        } => put(map, path, file_kind(*executable), blob_id(hash, bytes)),
        PathEdit::Link { path, bytes } => put(map, path, EntryKind::Link, blob_id(hash, bytes)),
        PathEdit::Module { path, id } => put(map, path, EntryKind::Commit, *id),
        PathEdit::Remove { path } => map.remove(path.as_slice()),
    }
}

fn file_kind(executable: bool) -> EntryKind {
    if executable {
        EntryKind::BlobExecutable
    } else {
        EntryKind::Blob
    }
}

fn blob_id(hash: HashKind, bytes: &Bytes) -> ObjectId {
    object_id(hash, Kind::Blob.as_bytes(), bytes.as_slice())
}

/// Puts a leaf. The null id, which none may have, is passed over.
fn put(map: &mut PathMap, path: &Bytes, kind: EntryKind, id: ObjectId) -> Result<(), EditError> {
    if id.is_null() || matches!(kind, EntryKind::Tree) {
        return Ok(());
    }
    map.put(path.as_slice(), kind, id)
}
