//! Rows on traversals of trees: `traverse ORDER TREE .. root LABEL`, and then words with what they say after them.
//!
//! The order is `depth` or `breadth`. A tree is `LABEL:` and its entries, with commas between them: `NAME` is a file,
//! `NAME>LABEL` a tree, `NAME@LABEL` a submodule and `NAME~LABEL` a symbolic link. `LABEL:blob` is a blob, and
//! `LABEL:bad` a tree that spells none. The id of an object is the digest of its label, so that a tree can contain
//! itself; `EMPTY` is the empty tree, which no field has to spell.
//!
//! The visitor skips the paths after `skip`, and cancels at those after `cancel`. The objects after `broken` can't be
//! read, and `sha256` asks for ids of that kind. The answer has the paths that are visited, with a slash after those
//! that are shown as trees, and after them the error, if there is one. With `record` a `Recorder` is shown the entries,
//! and the answer has the mode, the path and the id of each, by its label (`file` for those of files).

mod lister;

use crate::errors::named_in;
use gx_hash::{HashKind, ObjectId, object_id};
use gx_object::Kind;
use gx_store::{Memory, Objects};
use gx_walk::{Record, Recorder, Visit, WalkError, breadthfirst, depthfirst};
use lister::Lister;
use probe_rows::ProbeError;
use probe_rows::answers::{push_field, push_word};
use std::alloc::Global;

/// Trees, and the first one.
#[derive(Drop)]
struct Forest {
    store: Memory,
    root: ObjectId,
    bytes: Vec<u8>,
}

/// The answers to rows on traversals.
pub fn answer(alloc: Global, fields: &[Vec<u8>]) -> Result<Vec<u8>, ProbeError> {
    let Some((order, fields)) = fields.split_first() else {
        return Err(ProbeError::BadLine);
    };
    let forest = forest_of(alloc, fields)?;
    let mut answer = if has_word(fields, b"record") {
        recorded(alloc, &forest, order, fields)?
    } else {
        listed(alloc, &forest, order, fields)?
    };
    if answer.is_empty() {
        push_word(&mut answer, "none")?;
    }
    Ok(answer)
}

/// The paths that are visited.
fn listed(
    alloc: Global,
    forest: &Forest,
    order: &[u8],
    fields: &[Vec<u8>],
) -> Result<Vec<u8>, ProbeError> {
    let mut lister = Lister::new(alloc, fields);
    let ended = traverse(alloc, forest, order, &mut lister);
    let mut answer = lister.into_answer();
    push_end(&mut answer, forest, fields, ended)?;
    Ok(answer)
}

/// The entries that are recorded.
fn recorded(
    alloc: Global,
    forest: &Forest,
    order: &[u8],
    fields: &[Vec<u8>],
) -> Result<Vec<u8>, ProbeError> {
    let mut recorder = Recorder::new(alloc);
    let ended = traverse(alloc, forest, order, &mut recorder);
    let mut answer = Vec::new(alloc);
    for record in &recorder.records {
        push_record(&mut answer, forest, fields, record)?;
    }
    push_end(&mut answer, forest, fields, ended)?;
    Ok(answer)
}

fn traverse<V: Visit>(
    alloc: Global,
    forest: &Forest,
    order: &[u8],
    visit: &mut V,
) -> Result<(), WalkError> {
    match order {
        b"breadth" => breadthfirst(alloc, &forest.store, forest.root, &forest.bytes, visit),
        _ => depthfirst(alloc, &forest.store, forest.root, &forest.bytes, visit),
    }
}

// ---- answers

fn push_record(
    answer: &mut Vec<u8>,
    forest: &Forest,
    fields: &[Vec<u8>],
    record: &Record,
) -> Result<(), ProbeError> {
    push_word(answer, record.mode.kind().as_octal_str())?;
    push_field(answer, record.filepath.as_slice())?;
    push_label(answer, forest, fields, &record.oid)
}

/// Appends why the traversal ended early, if it did.
fn push_end(
    answer: &mut Vec<u8>,
    forest: &Forest,
    fields: &[Vec<u8>],
    ended: Result<(), WalkError>,
) -> Result<(), ProbeError> {
    let Err(error) = ended else {
        return Ok(());
    };
    if matches!(error, WalkError::Cancelled) {
        return push_word(answer, "cancelled");
    }
    let Some((word, id)) = named_in(&error) else {
        return Err(ProbeError::NoMemory);
    };
    push_word(answer, word)?;
    push_label(answer, forest, fields, id)
}

/// Appends the label in the fields that the id is of.
fn push_label(
    answer: &mut Vec<u8>,
    forest: &Forest,
    fields: &[Vec<u8>],
    id: &ObjectId,
) -> Result<(), ProbeError> {
    let hash = forest.store.hash_kind();
    if *id == ObjectId::empty_blob(hash) {
        return push_word(answer, "file");
    }
    for field in fields {
        for label in field.split(|byte| b":,>@~".contains(byte)) {
            if id_of(hash, label) == *id {
                return push_field(answer, label);
            }
        }
    }
    push_word(answer, "unknown")
}

// ---- words

/// Whether the field is a word that ends what stands before it.
fn is_word(field: &[u8]) -> bool {
    matches!(
        field,
        b"root" | b"skip" | b"cancel" | b"record" | b"broken" | b"sha256"
    )
}

/// Whether one of the fields is the word.
fn has_word(fields: &[Vec<u8>], word: &[u8]) -> bool {
    fields.iter().any(|field| field.as_slice() == word)
}

/// Whether the text is among the fields between a word and the next one.
fn is_after(fields: &[Vec<u8>], word: &[u8], text: &[u8]) -> bool {
    let mut is_here = false;
    for field in fields {
        if is_word(field) {
            is_here = field.as_slice() == word;
        } else if is_here && field.as_slice() == text {
            return true;
        }
    }
    false
}

/// The label after the word `root`.
fn root_of(fields: &[Vec<u8>]) -> Option<&[u8]> {
    let place = fields
        .iter()
        .position(|field| field.as_slice() == b"root".as_slice())?;
    Some(fields.get(place.checked_add(1)?)?.as_slice())
}

// ---- trees

fn id_of(hash: HashKind, label: &[u8]) -> ObjectId {
    match label {
        b"EMPTY" => ObjectId::empty_tree(hash),
        _ => object_id(hash, b"tree", label),
    }
}

/// The trees that the fields before the first word spell.
fn forest_of(alloc: Global, fields: &[Vec<u8>]) -> Result<Forest, ProbeError> {
    let hash = if has_word(fields, b"sha256") {
        HashKind::Sha256
    } else {
        HashKind::Sha1
    };
    let mut store = Memory::new(alloc, hash)?;
    for field in fields {
        if is_word(field) {
            break;
        }
        let (label, entries) = parts_of(field).ok_or(ProbeError::BadLine)?;
        put(alloc, &mut store, label, entries)?;
    }
    let root = id_of(hash, root_of(fields).ok_or(ProbeError::BadLine)?);
    let bytes = bytes_of(alloc, &store, &root)?;
    break_named(&mut store, fields)?;
    Ok(Forest { store, root, bytes })
}

/// The label before a colon, and what follows it.
fn parts_of(field: &[u8]) -> Option<(&[u8], &[u8])> {
    let mut parts = field.splitn(2, |byte| *byte == b':');
    Some((parts.next()?, parts.next()?))
}

/// The bytes at an id. The empty tree has none.
fn bytes_of(alloc: Global, store: &Memory, id: &ObjectId) -> Result<Vec<u8>, ProbeError> {
    if *id == ObjectId::empty_tree(store.hash_kind()) {
        return Ok(Vec::new(alloc));
    }
    let found = store.read(alloc, id)?;
    let Some((_, bytes)) = found else {
        return Err(ProbeError::BadLine);
    };
    Ok(bytes.into_vec())
}

/// Breaks the objects after the word `broken`.
fn break_named(store: &mut Memory, fields: &[Vec<u8>]) -> Result<(), ProbeError> {
    let hash = store.hash_kind();
    for field in fields {
        if is_after(fields, b"broken", field) {
            store.break_object(id_of(hash, field))?;
        }
    }
    Ok(())
}

fn put(alloc: Global, store: &mut Memory, label: &[u8], entries: &[u8]) -> Result<(), ProbeError> {
    let hash = store.hash_kind();
    let id = id_of(hash, label);
    match entries {
        b"blob" => store.put_raw(id, Kind::Blob, label)?,
        b"bad" => store.put_raw(id, Kind::Tree, label)?,
        _ => {
            let bytes = tree_bytes(alloc, hash, entries)?;
            store.put_raw(id, Kind::Tree, &bytes)?;
        }
    }
    Ok(())
}

/// The bytes of a tree with these entries, in this order.
fn tree_bytes(alloc: Global, hash: HashKind, entries: &[u8]) -> Result<Vec<u8>, ProbeError> {
    let mut bytes = Vec::new(alloc);
    for entry in entries.split(|byte| *byte == b',') {
        if !entry.is_empty() {
            push_entry(&mut bytes, hash, entry)?;
        }
    }
    Ok(bytes)
}

fn push_entry(bytes: &mut Vec<u8>, hash: HashKind, entry: &[u8]) -> Result<(), ProbeError> {
    let place = entry.iter().position(|byte| b">@~".contains(byte));
    let Some((name, [sign, label @ ..])) = place.and_then(|place| entry.split_at_checked(place))
    else {
        return push_parts(bytes, b"100644 ", entry, &ObjectId::empty_blob(hash));
    };
    let id = id_of(hash, label);
    match sign {
        b'@' => push_parts(bytes, b"160000 ", name, &id),
        b'~' => push_parts(bytes, b"120000 ", name, &id),
        _ => push_parts(bytes, b"40000 ", name, &id),
    }
}

fn push_parts(
    bytes: &mut Vec<u8>,
    mode: &[u8],
    name: &[u8],
    id: &ObjectId,
) -> Result<(), ProbeError> {
    bytes.extend_from_slice(mode)?;
    bytes.extend_from_slice(name)?;
    bytes.push(0)?;
    Ok(bytes.extend_from_slice(id.as_bytes())?)
}
