//! What a folder says of all its objects together, beside a store in memory that has the same ones.

use crate::samples::create;
use gx_hash::{HashKind, ObjectId, object_id};
use gx_object::Kind;
use gx_store::{Memory, Objects, Store, StoreError, write_object};
use std::alloc::Global;
use std::fs;
use std::test::Fail;

/// So many that some share four digits.
const BLOBS: u32 = 500;

fn id_of(alloc: Global, hash: HashKind, number: u32) -> Result<ObjectId, StoreError> {
    let text = format!(in alloc; "{number}")?;
    Ok(object_id(hash, b"blob", text.as_bytes()))
}

/// Writes as blobs the numbers from this one on, every other one.
fn fill<S: Store>(alloc: Global, store: &mut S, from: u32, to: u32) -> Result<(), StoreError> {
    for number in from..to {
        if number % 2 == 0 {
            let text = format!(in alloc; "{number}")?;
            write_object(alloc, store, Kind::Blob, text.as_bytes())?;
        }
    }
    Ok(())
}

/// Whether both stores say the same of so many ids, every other one of which is stored.
fn are_alike<S: Store, T: Store>(
    alloc: Global,
    one: &S,
    other: &T,
    to: u32,
) -> Result<bool, StoreError> {
    for number in 0..to {
        let id = id_of(alloc, one.hash_kind(), number)?;
        if one.longest_shared(alloc, &id)? != other.longest_shared(alloc, &id)? {
            return Ok(false);
        }
    }
    Ok(one.count(alloc)? == other.count(alloc)?)
}

/// Fills both, first with few objects, and compares them each time.
fn are_filled_alike<S: Store, T: Store>(
    alloc: Global,
    one: &mut S,
    other: &mut T,
) -> Result<bool, StoreError> {
    let mut from = 0;
    for to in [0, 4, 40, BLOBS] {
        fill(alloc, one, from, to)?;
        fill(alloc, other, from, to)?;
        if !are_alike(alloc, one, other, to)? {
            return Ok(false);
        }
        from = to;
    }
    Ok(true)
}

fn is_index_right(rt: &HostRuntime, hash: HashKind) -> Result<bool, Fail> {
    let mut folder = create(rt, "index", hash)?;
    let mut memory = Memory::new(rt.alloc(), hash)?;
    let is_right = are_filled_alike(rt.alloc(), &mut folder, &mut memory)?;
    fs::remove_dir_all(rt, "index")?;
    Ok(is_right)
}

#[test]
fn a_folder_counts_as_a_store_in_memory(rt: HostRuntime) -> Result<(), Fail> {
    let is_sha1_right = is_index_right(&rt, HashKind::Sha1)?;
    let is_sha256_right = is_index_right(&rt, HashKind::Sha256)?;
    assert!(rt; is_sha1_right && is_sha256_right);
    Ok(())
}

/// Files and directories in the place of objects that are none are passed over.
fn are_others_passed_over(rt: &HostRuntime) -> Result<bool, Fail> {
    let mut folder = create(rt, "others", HashKind::Sha1)?;
    fill(rt.alloc(), &mut folder, 0, 2)?;
    fs::create_dir_all(rt, "others/objects/info")?;
    fs::create_dir_all(rt, "others/objects/00")?;
    fs::write(rt, "others/objects/00/~object", b"")?;
    let none = folder.longest_shared(rt.alloc(), &ObjectId::null(HashKind::Sha1))?;
    Ok(folder.count(rt.alloc())? == 1 && none == 0)
}

#[test]
fn what_is_no_object_is_not_counted(rt: HostRuntime) -> Result<(), Fail> {
    let is_right = are_others_passed_over(&rt)?;
    fs::remove_dir_all(&rt, "others")?;
    assert!(rt; is_right);
    Ok(())
}
