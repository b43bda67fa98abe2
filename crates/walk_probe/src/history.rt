//! Small histories, as the fields of a row spell them.
//!
//! A commit is `LABEL:TIME` or `LABEL:TIME:PARENT,PARENT`, parents first; `LABEL:blob` is a blob, and `LABEL:bad` a
//! commit that spells none. A label that no field spells names nothing that is stored, and `EMPTY` the empty tree.
//! Then come words, most of them with labels after them. In all rows `sha256` asks for ids of that kind, and the
//! objects after `broken` can't be read.

use crate::errors::named_in;
use gx_hash::{Bytes, HashKind, ObjectId, object_id};
use gx_object::{Commit, Headers, Ids, Kind, Signature, Time, WriteTo};
use gx_store::{Memory, Objects, write_object};
use gx_walk::WalkError;
use probe_rows::ProbeError;
use probe_rows::answers::{push_field, push_word, signed_of};
use std::alloc::Global;

/// Objects with their labels. Those that no field spells come last.
#[derive(Drop)]
pub(crate) struct History {
    pub(crate) store: Memory,
    labels: Vec<(Vec<u8>, ObjectId)>,
    pub(crate) commits: Vec<ObjectId>,
}

// ---- words

/// Whether the field is a word that ends what stands before it.
fn is_word(field: &[u8]) -> bool {
    matches!(
        field,
        b"tips"
            | b"hide"
            | b"boundary"
            | b"shallow"
            | b"first"
            | b"infos"
            | b"refuse"
            | b"names"
            | b"fallback"
            | b"long"
            | b"sha256"
            | b"broken"
    )
}

/// Whether one of the fields is the word.
pub(crate) fn has_word(fields: &[Vec<u8>], word: &[u8]) -> bool {
    fields.iter().any(|field| field.as_slice() == word)
}

/// The fields between a word and the next one.
pub(crate) fn fields_after<'a>(
    alloc: Global,
    fields: &'a [Vec<u8>],
    word: &[u8],
) -> Result<Vec<&'a [u8]>, ProbeError> {
    let mut found = Vec::new(alloc);
    let mut is_after = false;
    for field in fields {
        if is_word(field) {
            is_after = field.as_slice() == word;
        } else if is_after {
            found.push(field.as_slice())?;
        }
    }
    Ok(found)
}

/// The ids of the labels between a word and the next one.
pub(crate) fn ids_after(
    alloc: Global,
    history: &History,
    fields: &[Vec<u8>],
    word: &[u8],
) -> Result<Ids, ProbeError> {
    let labels = fields_after(alloc, fields, word)?;
    let mut ids = Vec::new(alloc);
    for label in &labels {
        ids.push(id_of(history, label))?;
    }
    Ok(Ids::from_vec(ids))
}

// ---- labels

/// The id of a label.
pub(crate) fn id_of(history: &History, label: &[u8]) -> ObjectId {
    for (known, id) in &history.labels {
        if known.as_slice() == label {
            return *id;
        }
    }
    unspelled(history.store.hash_kind(), label)
}

/// The id of a label that no field spells.
fn unspelled(hash: HashKind, label: &[u8]) -> ObjectId {
    match label {
        b"EMPTY" => ObjectId::empty_tree(hash),
        _ => object_id(hash, b"commit", label),
    }
}

/// Appends the first label that the id has.
pub(crate) fn push_label(
    answer: &mut Vec<u8>,
    history: &History,
    id: &ObjectId,
) -> Result<(), ProbeError> {
    for (label, known) in &history.labels {
        if known == id {
            return push_field(answer, label);
        }
    }
    push_word(answer, "unknown")
}

/// Appends the word of an error, and the label of the object that it names.
pub(crate) fn push_error(
    answer: &mut Vec<u8>,
    history: &History,
    error: &WalkError,
) -> Result<(), ProbeError> {
    let Some((word, id)) = named_in(error) else {
        return Err(ProbeError::NoMemory);
    };
    push_word(answer, word)?;
    push_label(answer, history, id)
}

// ---- objects

/// The objects that the fields before the first word spell.
pub(crate) fn history_of(alloc: Global, fields: &[Vec<u8>]) -> Result<History, ProbeError> {
    let mut history = new_history(alloc, hash_in(fields))?;
    for field in fields {
        if is_word(field) {
            break;
        }
        store(alloc, &mut history, field)?;
    }
    name_others(alloc, &mut history, fields)?;
    let broken = ids_after(alloc, &history, fields, b"broken")?;
    for id in broken.as_slice() {
        history.store.break_object(*id)?;
    }
    Ok(history)
}

/// The kind of ids that a row asks for.
pub(crate) fn hash_in(fields: &[Vec<u8>]) -> HashKind {
    if has_word(fields, b"sha256") {
        return HashKind::Sha256;
    }
    HashKind::Sha1
}

pub(crate) fn new_history(alloc: Global, hash: HashKind) -> Result<History, ProbeError> {
    let store = Memory::new(alloc, hash)?;
    Ok(History {
        store,
        labels: Vec::new(alloc),
        commits: Vec::new(alloc),
    })
}

/// Gives each part of the fields, which may be a label that no field spells, the id of one.
pub(crate) fn name_others(
    alloc: Global,
    history: &mut History,
    fields: &[Vec<u8>],
) -> Result<(), ProbeError> {
    let hash = history.store.hash_kind();
    for field in fields {
        for part in field.split(|byte| matches!(*byte, b':' | b',')) {
            let label = Vec::from_slice(alloc, part)?;
            history.labels.push((label, unspelled(hash, part)))?;
        }
    }
    Ok(())
}

fn store(alloc: Global, history: &mut History, field: &[u8]) -> Result<(), ProbeError> {
    let mut parts = field.split(|byte| *byte == b':');
    let label = parts.next().unwrap_or(b"");
    let time = parts.next().unwrap_or(b"");
    let parents = parts.next().unwrap_or(b"");
    match time {
        b"blob" => {
            put(alloc, history, label, Kind::Blob, label)?;
        }
        b"bad" => {
            put(alloc, history, label, Kind::Commit, label)?;
        }
        _ => {
            let bytes = commit_bytes(alloc, history, label, time, parents)?;
            let id = put(alloc, history, label, Kind::Commit, bytes.as_slice())?;
            history.commits.push(id)?;
        }
    }
    Ok(())
}

/// Stores an object under a label.
fn put(
    alloc: Global,
    history: &mut History,
    label: &[u8],
    kind: Kind,
    bytes: &[u8],
) -> Result<ObjectId, ProbeError> {
    let written = write_object(alloc, &mut history.store, kind, bytes);
    let id = written.map_err(|_| ProbeError::NoMemory)?;
    let label = Vec::from_slice(alloc, label)?;
    history.labels.push((label, id))?;
    Ok(id)
}

/// A commit whose message is its label, so that no two commits are one.
fn commit_bytes(
    alloc: Global,
    history: &History,
    label: &[u8],
    time: &[u8],
    parents: &[u8],
) -> Result<Bytes, ProbeError> {
    let seconds = signed_of(time).unwrap_or(0);
    let parents = parents_in(alloc, history, parents)?;
    let author = signature(alloc, seconds)?;
    let committer = signature(alloc, seconds)?;
    let message = Bytes::from_slice(alloc, label)?;
    let commit = Commit {
        tree: ObjectId::empty_tree(history.store.hash_kind()),
        parents,
        author,
        committer,
        encoding: None,
        message,
        extra_headers: Headers::from_vec(Vec::new(alloc)),
    };
    Ok(commit.to_bytes(alloc)?)
}

/// The ids of labels with commas between them.
pub(crate) fn parents_in(
    alloc: Global,
    history: &History,
    labels: &[u8],
) -> Result<Ids, ProbeError> {
    let mut ids = Vec::new(alloc);
    for label in labels.split(|byte| *byte == b',') {
        if !label.is_empty() {
            ids.push(id_of(history, label))?;
        }
    }
    Ok(Ids::from_vec(ids))
}

pub(crate) fn signature(alloc: Global, seconds: i64) -> Result<Signature, ProbeError> {
    let name = Bytes::from_slice(alloc, b"A")?;
    let email = Bytes::from_slice(alloc, b"a@x")?;
    Ok(Signature {
        name,
        email,
        time: Time { seconds, offset: 0 },
    })
}
