use gx_edit::{EditError, PathMap, read_map, write_plain};
use gx_hash::{HashKind, ObjectId, ObjectIds, object_id};
use gx_object::{EntryKind, Kind};
use gx_rules::Protect;
use gx_store::{Memory, Objects, StoreError, What, write_object};
use std::alloc::Global;

/// The trees of `a/b/c/x`, `a/b/y`, `a/z` and `w`, which are empty files, children first: `git ls-tree -r -t` tells
/// their ids.
const TREES: [&[u8]; 4] = [
    b"5805b676e247eb9a8046ad0c4d249cd2fb2513df",
    b"2654eb375afe967c58e98c714c2ad3c5a0cc2ccf",
    b"dab2bbceb351c8f10ffc75ac6ad406f7cdf526f3",
    b"2223293d5083751e8c2299a9e7d45c1fb127cd18",
];

fn put(map: &mut PathMap, path: &[u8], id: ObjectId) -> Result<(), EditError> {
    if id.is_null() {
        return Ok(());
    }
    map.put(path, EntryKind::Blob, id)
}

fn deep_map(alloc: Global) -> Result<PathMap, EditError> {
    let mut map = PathMap::new(alloc);
    for path in [b"a/b/c/x".as_slice(), b"a/b/y", b"a/z", b"w"] {
        put(&mut map, path, HashKind::Sha1.empty_blob())?;
    }
    Ok(map)
}

/// Whether the tree is stored, as it is where it comes before those that are not.
fn is_stored(alloc: Global, store: &Memory, digits: &[u8]) -> Result<bool, StoreError> {
    match ObjectId::from_hex(digits) {
        Ok(id) => store.exists(alloc, &id),
        Err(_) => Ok(false),
    }
}

/// Whether just the first trees are stored.
fn are_stored(alloc: Global, store: &Memory, count: usize) -> Result<bool, StoreError> {
    for (at, digits) in TREES.iter().enumerate() {
        if is_stored(alloc, store, digits)? != (at < count) {
            return Ok(false);
        }
    }
    Ok(true)
}

/// Whether a fault of that write is told, after which the trees before it are stored.
fn is_write_told(alloc: Global, trees: usize) -> Result<bool, EditError> {
    let mut store = Memory::new(alloc, HashKind::Sha1)?;
    store.fail_write((trees as u64).saturating_add(1))?;
    let refusal = write_plain(alloc, &mut store, &deep_map(alloc)?, None).err();
    let what = What::Write;
    Ok(refusal == Some(EditError::Store { what }) && are_stored(alloc, &store, trees)?)
}

fn each_write_is_told(alloc: Global) -> Result<bool, EditError> {
    for trees in 0..4 {
        if !is_write_told(alloc, trees)? {
            return Ok(false);
        }
    }
    Ok(true)
}

#[test]
fn a_fault_of_each_write_is_told(rt: HostRuntime) {
    assert!(rt; each_write_is_told(rt.alloc()).unwrap_or(false));
}

/// Whether a tree that can't be read is told.
fn is_read_told(alloc: Global, digits: &[u8]) -> Result<bool, EditError> {
    let Ok(id) = ObjectId::from_hex(digits) else {
        return Ok(false);
    };
    let mut store = Memory::new(alloc, HashKind::Sha1)?;
    let root = write_plain(alloc, &mut store, &deep_map(alloc)?, None)?;
    store.break_object(id)?;
    let what = What::Object(id);
    Ok(read_map(alloc, &store, root).err() == Some(EditError::Store { what }))
}

fn each_read_is_told(alloc: Global) -> Result<bool, EditError> {
    for digits in TREES {
        if !is_read_told(alloc, digits)? {
            return Ok(false);
        }
    }
    Ok(true)
}

#[test]
fn a_tree_that_cannot_be_read_is_told(rt: HostRuntime) {
    assert!(rt; each_read_is_told(rt.alloc()).unwrap_or(false));
}

/// The files `x`, `y` and `z`, whose bytes are their names.
fn three_files(alloc: Global) -> Result<PathMap, EditError> {
    let mut map = PathMap::new(alloc);
    for name in [b"x".as_slice(), b"y", b"z"] {
        put(&mut map, name, blob_id(name))?;
    }
    Ok(map)
}

fn blob_id(bytes: &[u8]) -> ObjectId {
    object_id(HashKind::Sha1, Kind::Blob.as_bytes(), bytes)
}

/// Why the three files are refused, where the blob of one of them can't be looked for.
fn refusal_of(alloc: Global, broken: ObjectId) -> Result<Option<EditError>, EditError> {
    let mut store = Memory::new(alloc, HashKind::Sha1)?;
    for bytes in [b"x".as_slice(), b"y", b"z"] {
        write_object(alloc, &mut store, Kind::Blob, bytes)?;
    }
    store.break_object(broken)?;
    let given = ObjectIds::new(alloc);
    let output = three_files(alloc)?.plan(alloc, HashKind::Sha1)?;
    Ok(
        output
            .check(alloc, &store, Protect::default(), &given)
            .err(),
    )
}

fn each_blob_is_told(alloc: Global) -> Result<bool, EditError> {
    for name in [b"x".as_slice(), b"y", b"z"] {
        let id = blob_id(name);
        let what = What::Object(id);
        if refusal_of(alloc, id)? != Some(EditError::Store { what }) {
            return Ok(false);
        }
    }
    Ok(true)
}

#[test]
fn an_object_that_cannot_be_looked_for_is_told(rt: HostRuntime) {
    assert!(rt; each_blob_is_told(rt.alloc()).unwrap_or(false));
}
