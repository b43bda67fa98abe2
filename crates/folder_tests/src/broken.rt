//! Files that are no part of a store.

use crate::samples::{create, lead, leads, name_of};
use gx_hash::{HashKind, ObjectId};
use gx_object::Kind;
use gx_rules::FullName;
use gx_store::{Store, StoreError, What, write_object};
use std::alloc::Global;
use std::fs;
use std::test::Fail;

/// The file of the blob `hello world`.
const OBJECT: &str = "objects-broken/objects/95/d09f2b10159347eece71399a7e2e907ea3df4f";

const BROKEN_OBJECTS: [&[u8]; 4] = [
    b"",
    b"blob 11\0hello worlD",
    b"blob 12\0hello world",
    b"tree 11\0hello world",
];

fn is_unreadable<S: Store>(alloc: Global, store: &S, id: &ObjectId) -> bool {
    let what = What::Object(*id);
    let error = store.read(alloc, id).err();
    error == Some(StoreError::Fault { what })
}

fn are_objects_unreadable<S: Store>(
    rt: &HostRuntime,
    store: &S,
    id: &ObjectId,
) -> Result<bool, Fail> {
    for text in BROKEN_OBJECTS {
        fs::write(rt, OBJECT, text)?;
        if !is_unreadable(rt.alloc(), store, id) {
            return Ok(false);
        }
    }
    Ok(true)
}

fn is_absent<S: Store>(rt: &HostRuntime, store: &S, id: &ObjectId) -> Result<bool, Fail> {
    fs::remove_file(rt, OBJECT)?;
    let found = store.read(rt.alloc(), id)?;
    Ok(found.is_none())
}

fn are_objects_told<S: Store>(rt: &HostRuntime, store: &mut S) -> Result<bool, Fail> {
    let id = write_object(rt.alloc(), store, Kind::Blob, b"hello world")?;
    let are_unreadable = are_objects_unreadable(rt, store, &id)?;
    let is_absent = is_absent(rt, store, &id)?;
    Ok(are_unreadable && is_absent)
}

fn is_object_told(rt: &HostRuntime) -> Result<bool, Fail> {
    let mut store = create(rt, "objects-broken", HashKind::Sha1)?;
    are_objects_told(rt, &mut store)
}

#[test]
fn a_broken_object_is_unreadable(rt: HostRuntime) -> Result<(), Fail> {
    let is_right = is_object_told(&rt)?;
    fs::remove_dir_all(&rt, "objects-broken")?;
    assert!(rt; is_right);
    Ok(())
}

const BROKEN_REFERENCES: [&[u8]; 4] = [
    b"",
    b"ref: refs/heads/a",
    b"ref: refs/heads/..\n",
    b"0000\n",
];

fn are_references_unreadable<S: Store>(
    rt: &HostRuntime,
    store: &S,
    head: &FullName,
) -> Result<bool, Fail> {
    for text in BROKEN_REFERENCES {
        fs::write(rt, "references-broken/HEAD", text)?;
        if store.find(rt.alloc(), head).is_ok() {
            return Ok(false);
        }
    }
    Ok(true)
}

/// Whether a log with a line that is none is there, and can't be read.
fn is_log_unreadable<S: Store>(rt: &HostRuntime, store: &S, head: &FullName) -> Result<bool, Fail> {
    fs::write(rt, "references-broken/logs/HEAD", b"no line\n")?;
    let is_there = store.log_exists(rt.alloc(), head)?;
    Ok(is_there && store.log(rt.alloc(), head).is_err())
}

fn is_head_unreadable<S: Store>(rt: &HostRuntime, store: &S) -> Result<bool, Fail> {
    let head = name_of(rt.alloc(), b"HEAD")?;
    let is_target_right = are_references_unreadable(rt, store, &head)?;
    let is_log_right = is_log_unreadable(rt, store, &head)?;
    Ok(is_target_right && is_log_right)
}

fn is_head_told(rt: &HostRuntime) -> Result<bool, Fail> {
    let mut store = create(rt, "references-broken", HashKind::Sha1)?;
    let is_led = lead(rt.alloc(), &mut store, b"HEAD", b"refs/heads/a").is_ok();
    let is_told = is_head_unreadable(rt, &store)?;
    Ok(is_led && is_told)
}

#[test]
fn a_broken_reference_or_log_is_unreadable(rt: HostRuntime) -> Result<(), Fail> {
    let is_right = is_head_told(&rt)?;
    fs::remove_dir_all(&rt, "references-broken")?;
    assert!(rt; is_right);
    Ok(())
}

/// Puts the begin of a line at the end of a log.
fn cut_off(rt: &HostRuntime) -> Result<(), Fail> {
    let mut text = fs::read(rt, "cut-off/logs/HEAD")?;
    text.extend_from_slice(b"0000000000000000000000000000000000000000 00")?;
    fs::write(rt, "cut-off/logs/HEAD", &text)?;
    Ok(())
}

/// Whether the log has the one line that is whole, and gets a second one.
fn are_lines_whole<S: Store>(alloc: Global, store: &mut S) -> bool {
    let has_one = leads(alloc, store, b"HEAD", b"refs/heads/a", 1);
    let is_led = lead(alloc, store, b"HEAD", b"refs/heads/b").is_ok();
    let has_two = leads(alloc, store, b"HEAD", b"refs/heads/b", 2);
    has_one && is_led && has_two
}

fn is_cut_off_line_none(rt: &HostRuntime) -> Result<bool, Fail> {
    let mut store = create(rt, "cut-off", HashKind::Sha1)?;
    let is_led = lead(rt.alloc(), &mut store, b"HEAD", b"refs/heads/a").is_ok();
    cut_off(rt)?;
    let are_whole = are_lines_whole(rt.alloc(), &mut store);
    Ok(is_led && are_whole)
}

#[test]
fn a_line_that_was_cut_off_is_none(rt: HostRuntime) -> Result<(), Fail> {
    let is_right = is_cut_off_line_none(&rt)?;
    fs::remove_dir_all(&rt, "cut-off")?;
    assert!(rt; is_right);
    Ok(())
}
