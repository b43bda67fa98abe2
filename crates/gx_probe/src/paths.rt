use crate::fields::split_once;
use gx_edit::{PathMap, read_map, write_plain};
use gx_hash::{HashKind, NoMemory, ObjectId};
use gx_object::EntryKind;
use gx_store::Memory;
use probe_rows::ProbeError;
use std::alloc::Global;

/// The root of the path map that the lines list, on a line.
pub fn write_root(alloc: Global, input: &[u8], hash: HashKind) -> Result<Vec<u8>, ProbeError> {
    let mut store = Memory::new(alloc, hash)?;
    let root = stored_root(alloc, &mut store, input, hash)?;
    Ok(line_of(alloc, &root)?)
}

fn line_of(alloc: Global, id: &ObjectId) -> Result<Vec<u8>, NoMemory> {
    let mut line = Vec::new(alloc);
    id.push_hex(&mut line)?;
    line.push(b'\n')?;
    Ok(line)
}

/// The lines of the path map that the stored root of the lines has.
pub fn reread(alloc: Global, input: &[u8], hash: HashKind) -> Result<Vec<u8>, ProbeError> {
    let mut store = Memory::new(alloc, hash)?;
    let root = stored_root(alloc, &mut store, input, hash)?;
    let map = read_map(alloc, &store, root)?;
    Ok(listed(alloc, &map)?)
}

fn stored_root(
    alloc: Global,
    store: &mut Memory,
    input: &[u8],
    hash: HashKind,
) -> Result<ObjectId, ProbeError> {
    let mut map = PathMap::new(alloc);
    for line in input
        .strip_suffix(b"\n")
        .unwrap_or(input)
        .split(|byte| *byte == b'\n')
    {
        put_line(&mut map, line, hash)?;
    }
    Ok(write_plain(alloc, store, &map, None)?)
}

/// Puts a line's leaf. A line is a mode, a space, an id, a tab and a path, and may be empty.
fn put_line(map: &mut PathMap, line: &[u8], hash: HashKind) -> Result<(), ProbeError> {
    if line.is_empty() {
        return Ok(());
    }
    match leaf_in(line, hash) {
        Some((kind, id, path)) => put(map, path, kind, id),
        None => Err(ProbeError::BadLine),
    }
}

fn leaf_in(line: &[u8], hash: HashKind) -> Option<(EntryKind, ObjectId, &[u8])> {
    let (head, path) = split_once(line, b'\t')?;
    let (mode, digits) = split_once(head, b' ')?;
    let kind = kind_of(mode)?;
    let id = ObjectId::from_hex(digits).ok()?;
    if id.kind() != hash {
        return None;
    }
    Some((kind, id, path))
}

fn put(map: &mut PathMap, path: &[u8], kind: EntryKind, id: ObjectId) -> Result<(), ProbeError> {
    if id.is_null() || matches!(kind, EntryKind::Tree) {
        return Err(ProbeError::BadLine);
    }
    Ok(map.put(path, kind, id)?)
}

/// The kind of a leaf with this mode.
fn kind_of(mode: &[u8]) -> Option<EntryKind> {
    for kind in [
        EntryKind::Blob,
        EntryKind::BlobExecutable,
        EntryKind::Link,
        EntryKind::Commit,
    ] {
        if kind.as_octal_str().as_bytes() == mode {
            return Some(kind);
        }
    }
    None
}

fn listed(alloc: Global, map: &PathMap) -> Result<Vec<u8>, NoMemory> {
    let mut lines = Vec::new(alloc);
    for entry in map.iter() {
        lines.extend_from_slice(entry.mode.kind().as_octal_str().as_bytes())?;
        lines.push(b' ')?;
        entry.id.push_hex(&mut lines)?;
        lines.push(b'\t')?;
        lines.extend_from_slice(entry.path)?;
        lines.push(b'\n')?;
    }
    Ok(lines)
}
