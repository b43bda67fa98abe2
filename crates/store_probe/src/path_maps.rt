//! Rows of path maps.
//!
//! `edits KIND EDIT , EDIT ..` answers the root of what edits of the empty tree leave, and the modes and paths of its
//! leaves. They are made by a path map, written and read again, and by the definitions; the answers must agree.
//! `path_map KIND STEP ; STEP ..` answers each step on a new path map and a new store in memory. Steps of `store`
//! rows are steps here too, but for `list`, which tells the map here.

use crate::directories;
use crate::edits::{edits_in, make_edits};
use crate::faults::edit_error;
use crate::store::{answer_step, only, push_answer, written};
use crate::values::{hash_in, id_in, word_in};
use gx_edit::{EditError, Output, PathEdit, PathMap, read_map, write_plain};
use gx_hash::{HashKind, ObjectId, ObjectIds};
use gx_object::Kind;
use gx_rules::Protect;
use gx_store::{Memory, Objects};
use probe_rows::ProbeError;
use probe_rows::answers::{hex, push_field, push_id, push_word, shown, word};
use std::alloc::Global;

/// The answer of `edits`.
pub fn answer_edits(alloc: Global, fields: &[Vec<u8>]) -> Result<Vec<u8>, ProbeError> {
    let Some((kind, words)) = fields.split_first() else {
        return Err(ProbeError::BadLine);
    };
    edited(alloc, hash_in(kind)?, &edits_in(alloc, words)?)
}

fn edited(alloc: Global, hash: HashKind, edits: &[PathEdit]) -> Result<Vec<u8>, ProbeError> {
    let mut map = PathMap::new(alloc);
    let root = match written_again(alloc, hash, &mut map, edits) {
        Ok(root) => root,
        Err(error) => return edit_error(alloc, &error),
    };
    if directories::root_of(alloc, hash, edits)? != Some(root) {
        return word(alloc, "the definitions differ");
    }
    let mut answer = hex(alloc, &root)?;
    push_leaves(&mut answer, &map)?;
    Ok(answer)
}

/// Makes the edits, writes the map, replaces it by what is read of its root, and writes that to another store.
fn written_again(
    alloc: Global,
    hash: HashKind,
    map: &mut PathMap,
    edits: &[PathEdit],
) -> Result<ObjectId, EditError> {
    make_edits(map, hash, edits)?;
    reread(alloc, hash, map)?;
    let mut other = Memory::new(alloc, hash)?;
    write_plain(alloc, &mut other, map, None)
}

fn reread(alloc: Global, hash: HashKind, map: &mut PathMap) -> Result<(), EditError> {
    let mut store = Memory::new(alloc, hash)?;
    let root = write_plain(alloc, &mut store, map, None)?;
    *map = read_map(alloc, &store, root)?;
    Ok(())
}

fn push_leaves(answer: &mut Vec<u8>, map: &PathMap) -> Result<(), ProbeError> {
    for entry in map.iter() {
        push_word(answer, entry.mode.kind().as_octal_str())?;
        push_field(answer, entry.path)?;
    }
    Ok(())
}

/// The answer of `path_map`.
pub fn answer_steps(alloc: Global, fields: &[Vec<u8>]) -> Result<Vec<u8>, ProbeError> {
    let Some((kind, words)) = fields.split_first() else {
        return Err(ProbeError::BadLine);
    };
    let mut store = Memory::new(alloc, hash_in(kind)?)?;
    let mut map = PathMap::new(alloc);
    let mut given = ObjectIds::new(alloc);
    let mut answers = Vec::new(alloc);
    for step in words.split(|field| field.as_slice() == b";".as_slice()) {
        let answer = answer_map_step(alloc, &mut store, &mut map, &mut given, step)?;
        push_answer(&mut answers, &answer)?;
    }
    Ok(answers)
}

fn answer_map_step(
    alloc: Global,
    store: &mut Memory,
    map: &mut PathMap,
    given: &mut ObjectIds,
    step: &[Vec<u8>],
) -> Result<Vec<u8>, ProbeError> {
    let Some((call, fields)) = step.split_first() else {
        return Err(ProbeError::BadLine);
    };
    match word_in(call)? {
        "edit" => edit(alloc, store.hash_kind(), map, fields),
        "list" => list(alloc, map),
        "len" => shown(alloc, &map.len()),
        "get" => get(alloc, map, only(fields)?),
        "read_map" => read(alloc, store, map, fields),
        "tree" => tree(alloc, store, fields),
        "given" => give(alloc, given, fields),
        "write_plain" => write(alloc, store, map, fields),
        "check_plain" => check(alloc, store, map, given, fields),
        _ => answer_step(alloc, store, step),
    }
}

fn edit(
    alloc: Global,
    hash: HashKind,
    map: &mut PathMap,
    words: &[Vec<u8>],
) -> Result<Vec<u8>, ProbeError> {
    match make_edits(map, hash, &edits_in(alloc, words)?) {
        Ok(()) => word(alloc, "ok"),
        Err(error) => edit_error(alloc, &error),
    }
}

fn list(alloc: Global, map: &PathMap) -> Result<Vec<u8>, ProbeError> {
    if map.is_empty() {
        return word(alloc, "none");
    }
    let mut answer = Vec::new(alloc);
    push_leaves(&mut answer, map)?;
    Ok(answer)
}

fn get(alloc: Global, map: &PathMap, path: &[u8]) -> Result<Vec<u8>, ProbeError> {
    match map.get(path) {
        Some(leaf) => {
            let mut answer = word(alloc, leaf.mode.kind().as_octal_str())?;
            push_id(&mut answer, &leaf.id)?;
            Ok(answer)
        }
        None => word(alloc, "none"),
    }
}

/// Reads the map of a stored tree, in place of the one that was there.
fn read(
    alloc: Global,
    store: &Memory,
    map: &mut PathMap,
    fields: &[Vec<u8>],
) -> Result<Vec<u8>, ProbeError> {
    match read_map(alloc, store, id_in(only(fields)?)?) {
        Ok(found) => {
            *map = found;
            word(alloc, "ok")
        }
        Err(error) => edit_error(alloc, &error),
    }
}

/// Stores a tree that has the entries in this order, each with its mode as it stands. Answers its id.
pub fn tree(alloc: Global, store: &mut Memory, words: &[Vec<u8>]) -> Result<Vec<u8>, ProbeError> {
    let mut bytes = Vec::new(alloc);
    for entry in words.split(|field| field.as_slice() == b",".as_slice()) {
        push_entry(&mut bytes, entry)?;
    }
    written(alloc, store, Kind::Tree, &bytes)
}

fn push_entry(bytes: &mut Vec<u8>, words: &[Vec<u8>]) -> Result<(), ProbeError> {
    let [mode, name, id] = words else {
        return Err(ProbeError::BadLine);
    };
    bytes.extend_from_slice(mode)?;
    bytes.push(b' ')?;
    bytes.extend_from_slice(name)?;
    bytes.push(0)?;
    Ok(bytes.extend_from_slice(id_in(id)?.as_bytes())?)
}

/// Lets the ids be given beside those that are stored.
fn give(alloc: Global, given: &mut ObjectIds, ids: &[Vec<u8>]) -> Result<Vec<u8>, ProbeError> {
    for id in ids {
        given.insert(id_in(id)?)?;
    }
    word(alloc, "ok")
}

/// The protections that the words name.
pub fn protect_in(words: &[Vec<u8>]) -> Result<Protect, ProbeError> {
    let mut protect = Protect {
        hfs: false,
        ntfs: false,
        windows: false,
    };
    for word in words {
        add_protection(&mut protect, word_in(word)?)?;
    }
    Ok(protect)
}

fn add_protection(protect: &mut Protect, word: &str) -> Result<(), ProbeError> {
    match word {
        "default" => *protect = Protect::default(),
        "none" => {}
        "hfs" => protect.hfs = true,
        "ntfs" => protect.ntfs = true,
        "windows" => protect.windows = true,
        _ => return Err(ProbeError::BadLine),
    }
    Ok(())
}

/// Writes the map. Without words no protections are given.
fn write(
    alloc: Global,
    store: &mut Memory,
    map: &PathMap,
    words: &[Vec<u8>],
) -> Result<Vec<u8>, ProbeError> {
    let protect = if words.is_empty() {
        None
    } else {
        Some(protect_in(words)?)
    };
    match write_plain(alloc, store, map, protect) {
        Ok(root) => hex(alloc, &root),
        Err(error) => edit_error(alloc, &error),
    }
}

/// Plans the map's trees, and answers the root where they may be written.
fn check(
    alloc: Global,
    store: &Memory,
    map: &PathMap,
    given: &ObjectIds,
    words: &[Vec<u8>],
) -> Result<Vec<u8>, ProbeError> {
    let protect = protect_in(words)?;
    match map.plan(alloc, store.hash_kind()) {
        Ok(output) => check_output(alloc, store, &output, protect, given),
        Err(error) => edit_error(alloc, &error),
    }
}

fn check_output(
    alloc: Global,
    store: &Memory,
    output: &Output,
    protect: Protect,
    given: &ObjectIds,
) -> Result<Vec<u8>, ProbeError> {
    match output.check(alloc, store, protect, given) {
        Ok(()) => hex(alloc, &output.root()),
        Err(error) => edit_error(alloc, &error),
    }
}
