//! Rows on trees, their entries and their modes. An entry's fields are its mode in octal, its name and its id.

use crate::fields::{hash_in, id_in};
use crate::objects::{Cuts, rewrite_tree, size_and_id, spelled};
use gx_hash::{Bytes, HashKind};
use gx_object::{
    Blob, EncodeError, Entries, Entry, EntryKind, EntryMode, EntryRef, Kind, Tree, TreeRef,
    TreeRefIter, WriteTo, push_entry, push_tree,
};
use probe_rows::ProbeError;
use probe_rows::answers::{
    again, push_failure, push_field, push_id, push_word, quoted, shown, word,
};
use std::alloc::Global;

/// The answers to rows on trees.
pub fn answer(alloc: Global, call: &str, fields: &[Vec<u8>]) -> Result<Vec<u8>, ProbeError> {
    let [first, others @ ..] = fields else {
        return Err(ProbeError::UnknownCall);
    };
    match call {
        "encode_message" => answer_encode_message(alloc, first),
        "mode" => answer_mode(alloc, first),
        "mode_of" => answer_mode_of(alloc, first),
        "kind" => answer_kind(alloc, first),
        "entry" => answer_entry(alloc, fields),
        _ => answer_in(alloc, call, hash_in(first)?, others),
    }
}

fn answer_in(
    alloc: Global,
    call: &str,
    hash: HashKind,
    fields: &[Vec<u8>],
) -> Result<Vec<u8>, ProbeError> {
    match call {
        "write_tree" => answer_written(alloc, fields),
        "push_tree" => answer_pushed(alloc, fields),
        "tree_id" => answer_tree_id(alloc, hash, fields),
        _ => match fields {
            [bytes] => answer_read(alloc, call, hash, bytes),
            _ => Err(ProbeError::UnknownCall),
        },
    }
}

fn answer_read(
    alloc: Global,
    call: &str,
    hash: HashKind,
    bytes: &[u8],
) -> Result<Vec<u8>, ProbeError> {
    match call {
        "blob_id" => blob_id(alloc, hash, bytes),
        "tree" => read_tree(alloc, hash, bytes),
        "tree_items" => items(alloc, hash, bytes),
        "tree_again" => read_again(alloc, hash, bytes),
        "decode_message" => decode_message(alloc, hash, bytes),
        "tree_cuts" => cuts(alloc, hash, bytes),
        _ => Err(ProbeError::UnknownCall),
    }
}

fn read_again(alloc: Global, hash: HashKind, bytes: &[u8]) -> Result<Vec<u8>, ProbeError> {
    again(alloc, bytes, &rewrite_tree(alloc, bytes, hash)?)
}

fn read_tree(alloc: Global, hash: HashKind, bytes: &[u8]) -> Result<Vec<u8>, ProbeError> {
    let tree = TreeRef::from_bytes(alloc, bytes, hash)?;
    shown_entries(alloc, tree.entries.as_slice())
}

fn shown_entries(alloc: Global, entries: &[EntryRef<'_>]) -> Result<Vec<u8>, ProbeError> {
    let mut answer = Vec::new(alloc);
    for entry in entries {
        push_ref(alloc, &mut answer, entry)?;
    }
    Ok(answer)
}

fn push_ref(alloc: Global, answer: &mut Vec<u8>, entry: &EntryRef<'_>) -> Result<(), ProbeError> {
    let mode = octal(alloc, entry.mode.value())?;
    push_field(answer, &mode)?;
    push_field(answer, entry.filename.as_bytes())?;
    push_id(answer, &entry.oid)
}

/// The entries that the iterator gives, and `end`, or the error after them and what comes after that.
fn items(alloc: Global, hash: HashKind, bytes: &[u8]) -> Result<Vec<u8>, ProbeError> {
    let mut answer = Vec::new(alloc);
    for item in TreeRefIter::from_bytes(bytes, hash) {
        match item {
            Ok(entry) => push_ref(alloc, &mut answer, &entry)?,
            Err(error) => push_failure(alloc, &mut answer, ProbeError::from(error))?,
        }
    }
    push_word(&mut answer, "end")?;
    Ok(answer)
}

/// For each number of the first bytes, how they are read.
fn cuts(alloc: Global, hash: HashKind, bytes: &[u8]) -> Result<Vec<u8>, ProbeError> {
    let mut cuts = Cuts::new(alloc);
    for end in 0..=bytes.len() {
        let front = bytes.get(..end).unwrap_or(bytes);
        cuts.add(read_tree(alloc, hash, front).map(|_| ()))?;
    }
    cuts.into_answer()
}

fn answer_written(alloc: Global, entries: &[Vec<u8>]) -> Result<Vec<u8>, ProbeError> {
    let tree = tree_in(alloc, entries)?;
    spelled(alloc, tree.to_bytes(alloc))
}

/// The bytes of the entries, whatever their names are.
fn answer_pushed(alloc: Global, entries: &[Vec<u8>]) -> Result<Vec<u8>, ProbeError> {
    let tree = tree_in(alloc, entries)?;
    pushed(alloc, tree.entries.as_slice())
}

fn pushed(alloc: Global, entries: &[Entry]) -> Result<Vec<u8>, ProbeError> {
    let mut out = Vec::new(alloc);
    push_tree(&mut out, entries)?;
    quoted(alloc, &out)
}

fn blob_id(alloc: Global, hash: HashKind, bytes: &[u8]) -> Result<Vec<u8>, ProbeError> {
    let blob = Blob {
        bytes: Bytes::from_slice(alloc, bytes)?,
    };
    size_and_id(alloc, hash, blob.kind(), blob.to_bytes(alloc))
}

fn answer_tree_id(
    alloc: Global,
    hash: HashKind,
    entries: &[Vec<u8>],
) -> Result<Vec<u8>, ProbeError> {
    let tree = tree_in(alloc, entries)?;
    size_and_id(alloc, hash, tree.kind(), tree.to_bytes(alloc))
}

fn tree_in(alloc: Global, fields: &[Vec<u8>]) -> Result<Tree, ProbeError> {
    let mut entries = Vec::new(alloc);
    for fields in fields.chunks(3) {
        entries.push(entry_in(alloc, fields)?)?;
    }
    Ok(Tree {
        entries: Entries::from_vec(entries),
    })
}

/// The entry that three fields are.
fn entry_in(alloc: Global, fields: &[Vec<u8>]) -> Result<Entry, ProbeError> {
    let [mode, name, id] = fields else {
        return Err(ProbeError::UnknownCall);
    };
    Ok(Entry {
        mode: mode_in(mode)?,
        oid: id_in(id)?,
        filename: Bytes::from_slice(alloc, name)?,
    })
}

fn mode_in(digits: &[u8]) -> Result<EntryMode, ProbeError> {
    mode_from(digits).ok_or(ProbeError::UnknownCall)
}

fn mode_from(digits: &[u8]) -> Option<EntryMode> {
    let value = u16::from_str_radix(std::str::from_utf8(digits).ok()?, 8).ok()?;
    Some(EntryMode { value })
}

/// The bytes of the entry alone, whatever its name is.
fn answer_entry(alloc: Global, fields: &[Vec<u8>]) -> Result<Vec<u8>, ProbeError> {
    let entry = entry_in(alloc, fields)?;
    let mut out = Vec::new(alloc);
    push_entry(&mut out, &entry)?;
    quoted(alloc, &out)
}

/// What the mode says that the entry is: in a listing's word, and by each question.
fn answer_mode(alloc: Global, digits: &[u8]) -> Result<Vec<u8>, ProbeError> {
    let mode = mode_in(digits)?;
    let mut answer = word(alloc, mode.as_str())?;
    push_word(&mut answer, mode.kind().as_octal_str())?;
    push_where(&mut answer, mode.is_tree(), "is-tree")?;
    push_where(&mut answer, mode.is_blob(), "is-blob")?;
    push_where(&mut answer, mode.is_link(), "is-link")?;
    push_where(&mut answer, mode.is_commit(), "is-commit")?;
    Ok(answer)
}

fn push_where(answer: &mut Vec<u8>, holds: bool, text: &str) -> Result<(), ProbeError> {
    if holds {
        push_word(answer, text)?;
    }
    Ok(())
}

/// The mode of such an entry.
fn answer_mode_of(alloc: Global, name: &[u8]) -> Result<Vec<u8>, ProbeError> {
    match kind_of(name) {
        Some(kind) => octal(alloc, EntryMode::from(kind).value()),
        None => word(alloc, "none"),
    }
}

fn kind_of(name: &[u8]) -> Option<EntryKind> {
    match str::from_utf8(name).ok()? {
        "tree" => Some(EntryKind::Tree),
        "blob" => Some(EntryKind::Blob),
        "exe" => Some(EntryKind::BlobExecutable),
        "link" => Some(EntryKind::Link),
        "commit" => Some(EntryKind::Commit),
        _ => None,
    }
}

fn octal(alloc: Global, mode: u16) -> Result<Vec<u8>, ProbeError> {
    Ok(format!(in alloc; "{mode:o}")?.into_bytes())
}

/// The name of the kind of objects that has this name.
fn answer_kind(alloc: Global, name: &[u8]) -> Result<Vec<u8>, ProbeError> {
    match Kind::from_bytes(name) {
        Some(kind) => quoted(alloc, kind.as_bytes()),
        None => word(alloc, "none"),
    }
}

/// The words on why the bytes are no tree.
fn decode_message(alloc: Global, hash: HashKind, bytes: &[u8]) -> Result<Vec<u8>, ProbeError> {
    match TreeRef::from_bytes(alloc, bytes, hash) {
        Ok(_) => Err(ProbeError::UnknownCall),
        Err(error) => shown(alloc, &error),
    }
}

/// The words on why no tree has an entry of the name.
fn answer_encode_message(alloc: Global, name: &[u8]) -> Result<Vec<u8>, ProbeError> {
    let tree = tree_with(alloc, name)?;
    unwritten(alloc, tree.to_bytes(alloc))
}

fn unwritten(alloc: Global, written: Result<Bytes, EncodeError>) -> Result<Vec<u8>, ProbeError> {
    match written {
        Ok(_) => Err(ProbeError::UnknownCall),
        Err(error) => shown(alloc, &error),
    }
}

/// The tree of an empty file of the name.
fn tree_with(alloc: Global, name: &[u8]) -> Result<Tree, ProbeError> {
    let entry = Entry {
        mode: EntryMode::from(EntryKind::Blob),
        filename: Bytes::from_slice(alloc, name)?,
        oid: HashKind::Sha1.empty_blob(),
    };
    let mut entries = Vec::new(alloc);
    entries.push(entry)?;
    Ok(Tree {
        entries: Entries::from_vec(entries),
    })
}
