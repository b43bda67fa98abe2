//! Folders that are made, and opened again.

use crate::samples::{create, is_gone, lead, leads, name_of, replace};
use gx_folder::{Folder, OpenError};
use gx_hash::{HashKind, ObjectId};
use gx_object::Kind;
use gx_store::{Header, Store, StoreError, write_object};
use std::alloc::Global;
use std::fs;
use std::test::Fail;

fn fails_to_open(rt: &HostRuntime, path: &str, error: OpenError) -> Result<bool, Fail> {
    let opened = Folder::open(rt.clone()?, path);
    Ok(opened.err() == Some(error))
}

fn fails_to_create(rt: &HostRuntime, path: &str, error: OpenError) -> Result<bool, Fail> {
    let made = Folder::create(rt.clone()?, path, HashKind::Sha1);
    Ok(made.err() == Some(error))
}

/// Writes an object and, twice, a reference. Gives the object's id.
fn fill<S: Store>(alloc: Global, store: &mut S) -> Result<ObjectId, StoreError> {
    let id = write_object(alloc, store, Kind::Blob, b"hello world")?;
    lead(alloc, store, b"HEAD", b"refs/heads/\xc3\xa9")?;
    lead(alloc, store, b"HEAD", b"refs/heads/b")?;
    Ok(id)
}

/// Makes a folder, which can't be opened as long as its store lives. Gives the object's id.
fn fill_held(rt: &HostRuntime) -> Result<Option<ObjectId>, Fail> {
    let mut store = create(rt, "again", HashKind::Sha256)?;
    let id = fill(rt.alloc(), &mut store)?;
    let is_held = fails_to_open(rt, "again", OpenError::Fault)?;
    match is_held {
        true => Ok(Some(id)),
        false => Ok(None),
    }
}

fn has_object<S: Store>(alloc: Global, store: &S, id: &ObjectId) -> Result<bool, StoreError> {
    let kind = Kind::Blob;
    let is_header_right = store.header(alloc, id)? == Some(Header { kind, size: 11 });
    let read = store.read(alloc, id)?;
    let is_read = read.is_some_and(|object| object.1.as_slice() == b"hello world".as_slice());
    Ok(is_header_right && is_read)
}

fn has_all<S: Store>(alloc: Global, store: &S, id: &ObjectId) -> Result<bool, StoreError> {
    let is_kind_right = store.hash_kind() == HashKind::Sha256;
    let is_object_there = has_object(alloc, store, id)?;
    let is_reference_there = leads(alloc, store, b"HEAD", b"refs/heads/b", 2);
    Ok(is_kind_right && is_object_there && is_reference_there)
}

fn opens_with_all(rt: &HostRuntime, id: &ObjectId) -> Result<bool, Fail> {
    let store = Folder::open(rt.clone()?, "again")?;
    let has_all = has_all(rt.alloc(), &store, id)?;
    Ok(has_all)
}

fn is_held_and_kept(rt: &HostRuntime) -> Result<bool, Fail> {
    match fill_held(rt)? {
        Some(id) => opens_with_all(rt, &id),
        None => Ok(false),
    }
}

#[test]
fn a_folder_opened_again_has_what_was_written(rt: HostRuntime) -> Result<(), Fail> {
    let is_kept = is_held_and_kept(&rt)?;
    let is_refused = fails_to_create(&rt, "again", OpenError::NotARepository)?;
    fs::remove_dir_all(&rt, "again")?;
    assert!(rt; is_kept && is_refused);
    Ok(())
}

fn is_kind_unknown(rt: &HostRuntime) -> Result<bool, Fail> {
    fs::write(rt, "other/format", b"gx 2 sha1\n")?;
    fails_to_open(rt, "other", OpenError::NotARepository)
}

fn is_kind_known(rt: &HostRuntime) -> Result<bool, Fail> {
    fs::write(rt, "other/format", b"gx 1 sha1\n")?;
    let opened = Folder::open(rt.clone()?, "other");
    Ok(opened.is_ok())
}

fn is_absent_or_empty_refused(rt: &HostRuntime) -> Result<bool, Fail> {
    let is_absent = fails_to_open(rt, "absent", OpenError::NotARepository)?;
    fs::create_dir(rt, "other")?;
    let is_empty = fails_to_open(rt, "other", OpenError::NotARepository)?;
    Ok(is_absent && is_empty)
}

fn is_kind_read(rt: &HostRuntime) -> Result<bool, Fail> {
    let is_unknown = is_kind_unknown(rt)?;
    let is_known = is_kind_known(rt)?;
    Ok(is_unknown && is_known)
}

#[test]
fn another_folder_is_no_repository(rt: HostRuntime) -> Result<(), Fail> {
    let is_refused = is_absent_or_empty_refused(&rt)?;
    let is_read = is_kind_read(&rt)?;
    fs::remove_dir_all(&rt, "other")?;
    assert!(rt; is_refused && is_read);
    Ok(())
}

const NAMES: [&[u8]; 6] = [
    b"logs/HEAD",
    b"objects/aa/bb",
    b"refs/heads/\xc3\xa9/\xff",
    b"refs/heads/\xc3\xa9/x",
    b"refs/heads/a",
    b"refs/heads/a-b",
];

fn write_names<S: Store>(alloc: Global, store: &mut S) -> Result<(), StoreError> {
    for name in NAMES {
        lead(alloc, store, name, name)?;
    }
    Ok(())
}

fn has_names<S: Store>(alloc: Global, store: &S) -> bool {
    for name in NAMES {
        if !leads(alloc, store, name, name, 1) {
            return false;
        }
    }
    true
}

/// Whether the names are listed, with `HEAD`.
fn lists_names<S: Store>(alloc: Global, store: &S) -> Result<bool, StoreError> {
    let names = store.list(alloc, b"")?;
    Ok(names.as_slice().len() == 7)
}

fn lists_two<S: Store>(alloc: Global, store: &S) -> Result<bool, StoreError> {
    let names = store.list(alloc, b"refs/heads/a")?;
    match names.as_slice() {
        [first, _] => Ok(first.as_slice() == b"refs/heads/a".as_slice()),
        _ => Ok(false),
    }
}

fn has_conflict<S: Store>(alloc: Global, store: &S, name: &[u8]) -> Result<bool, StoreError> {
    let name = name_of(alloc, name)?;
    let found = store.find_conflict(alloc, &name)?;
    Ok(found.is_some())
}

fn are_names_apart<S: Store>(alloc: Global, store: &S) -> bool {
    let has_names = has_names(alloc, store);
    let lists_names = lists_names(alloc, store).unwrap_or(false);
    let lists_two = lists_two(alloc, store).unwrap_or(false);
    has_names && lists_names && lists_two
}

fn are_conflicts_found<S: Store>(alloc: Global, store: &S) -> bool {
    let is_above_found = has_conflict(alloc, store, b"refs/heads/a/b").unwrap_or(false);
    let is_below_found = has_conflict(alloc, store, b"refs/heads/\xc3\xa9").unwrap_or(false);
    is_above_found && is_below_found
}

fn keeps_names<S: Store>(alloc: Global, store: &mut S) -> bool {
    let are_written = write_names(alloc, store).is_ok();
    let are_apart = are_names_apart(alloc, store);
    let are_found = are_conflicts_found(alloc, store);
    are_written && are_apart && are_found
}

fn is_each_name_kept(rt: &HostRuntime) -> Result<bool, Fail> {
    let mut store = create(rt, "names", HashKind::Sha1)?;
    Ok(keeps_names(rt.alloc(), &mut store))
}

#[test]
fn names_never_share_a_file(rt: HostRuntime) -> Result<(), Fail> {
    let is_right = is_each_name_kept(&rt)?;
    fs::remove_dir_all(&rt, "names")?;
    assert!(rt; is_right);
    Ok(())
}

fn replaces<S: Store>(alloc: Global, store: &mut S) -> bool {
    let is_led = lead(alloc, store, b"refs/heads/a/b", b"HEAD").is_ok();
    let is_replaced = replace(alloc, store, b"refs/heads/a/b", b"refs/heads/a").is_ok();
    let is_made = leads(alloc, store, b"refs/heads/a", b"HEAD", 1);
    let is_gone = is_gone(alloc, store, b"refs/heads/a/b").unwrap_or(false);
    is_led && is_replaced && is_made && is_gone
}

/// Makes a directory in the place of a reference.
fn make_directory(rt: &HostRuntime) -> Result<(), Fail> {
    fs::create_dir_all(rt, "place/refs/heads/empty/below")?;
    fs::remove_dir(rt, "place/refs/heads/empty/below")?;
    Ok(())
}

fn takes_the_place<S: Store>(alloc: Global, store: &mut S) -> bool {
    let is_led = lead(alloc, store, b"refs/heads/empty", b"HEAD").is_ok();
    is_led && leads(alloc, store, b"refs/heads/empty", b"HEAD", 1)
}

fn is_place_taken(rt: &HostRuntime) -> Result<bool, Fail> {
    let mut store = create(rt, "place", HashKind::Sha1)?;
    let is_replaced = replaces(rt.alloc(), &mut store);
    make_directory(rt)?;
    let is_taken = takes_the_place(rt.alloc(), &mut store);
    Ok(is_replaced && is_taken)
}

#[test]
fn a_reference_takes_the_place_of_a_directory(rt: HostRuntime) -> Result<(), Fail> {
    let is_right = is_place_taken(&rt)?;
    fs::remove_dir_all(&rt, "place")?;
    assert!(rt; is_right);
    Ok(())
}
