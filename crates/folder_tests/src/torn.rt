//! Changes in whose course a call of files fails.

use crate::failing::{Calls, Failing};
use crate::samples::{delete, is_gone, lead, leads};
use gx_folder::Folder;
use gx_hash::HashKind;
use gx_object::Kind;
use gx_store::{Store, StoreError, write_object};
use std::alloc::Global;
use std::fs;
use std::test::Fail;

const NAME: &[u8] = b"refs/heads/a/b";

const ABOVE: &[u8] = b"refs/heads/a";

const OLD: &[u8] = b"refs/heads/old";

const NEW: &[u8] = b"refs/heads/new";

/// A new store in a folder, whose calls of files are these.
fn create<'a>(
    rt: &HostRuntime,
    path: &str,
    hash: HashKind,
    calls: &'a Calls,
) -> Result<Folder<Failing<'a>>, Fail> {
    let host = rt.clone()?;
    let store = Folder::create(Failing { host, calls }, path, hash)?;
    Ok(store)
}

/// Whether the answer to a change tells if a call failed.
fn is_failure_told<S: Store>(alloc: Global, store: &mut S, calls: &Calls) -> bool {
    calls.start();
    let outcome = lead(alloc, store, NAME, NEW);
    calls.stop();
    outcome.is_err() == calls.has_failed()
}

/// Whether the change was made whole or, if a call failed, in part or not at all.
fn is_old_or_new<S: Store>(alloc: Global, store: &S, has_failed: bool) -> bool {
    let is_old = leads(alloc, store, NAME, OLD, 1);
    let is_between = leads(alloc, store, NAME, OLD, 2);
    let is_new = leads(alloc, store, NAME, NEW, 2);
    is_new || (has_failed && (is_old || is_between))
}

fn leaves_no_lock(rt: &HostRuntime) -> Result<bool, Fail> {
    let is_there = fs::exists(rt, "torn/refs/heads/a/b.lock")?;
    fs::remove_dir_all(rt, "torn")?;
    Ok(!is_there)
}

fn is_change_right<S: Store>(alloc: Global, store: &mut S, calls: &Calls) -> bool {
    let is_made = lead(alloc, store, NAME, OLD).is_ok();
    let is_told = is_failure_told(alloc, store, calls);
    let is_whole = is_old_or_new(alloc, store, calls.has_failed());
    is_made && is_told && is_whole
}

fn is_changed_or_not(rt: &HostRuntime, nth: u64) -> Result<bool, Fail> {
    let calls = Calls::new(nth);
    let mut store = create(rt, "torn", HashKind::Sha1, &calls)?;
    let is_right = is_change_right(rt.alloc(), &mut store, &calls);
    let is_counted = (store.fault_count() == 1) == calls.has_failed();
    Ok(is_right && is_counted)
}

fn is_change_right_at(rt: &HostRuntime, nth: u64) -> Result<bool, Fail> {
    let is_right = is_changed_or_not(rt, nth)?;
    let is_unlocked = leaves_no_lock(rt)?;
    Ok(is_right && is_unlocked)
}

#[test]
fn a_change_that_fails_leaves_each_file_old_or_new(rt: HostRuntime) -> Result<(), Fail> {
    for nth in 1..12 {
        let is_right = is_change_right_at(&rt, nth)?;
        assert!(rt; is_right, "call {nth}");
    }
    Ok(())
}

/// Whether a removal tells that a call failed, or the reference and its log are gone.
fn fails_or_removes<S: Store>(alloc: Global, store: &mut S, calls: &Calls) -> bool {
    calls.start();
    let outcome = delete(alloc, store, NAME);
    calls.stop();
    outcome.is_err() || is_gone(alloc, store, NAME).unwrap_or(false)
}

/// Whether, after another removal, a reference can take the place of the directory.
fn is_place_free<S: Store>(alloc: Global, store: &mut S) -> bool {
    let is_removed = delete(alloc, store, NAME).is_ok();
    let is_made = lead(alloc, store, ABOVE, NEW).is_ok();
    is_removed && is_made && leads(alloc, store, ABOVE, NEW, 1)
}

fn is_removal_right<S: Store>(alloc: Global, store: &mut S, calls: &Calls) -> bool {
    let is_made = lead(alloc, store, NAME, OLD).is_ok();
    let is_told = fails_or_removes(alloc, store, calls);
    let is_free = is_place_free(alloc, store);
    is_made && is_told && is_free
}

fn is_removed_or_not(rt: &HostRuntime, nth: u64) -> Result<bool, Fail> {
    let calls = Calls::new(nth);
    let mut store = create(rt, "cut", HashKind::Sha1, &calls)?;
    Ok(is_removal_right(rt.alloc(), &mut store, &calls))
}

fn is_removal_right_at(rt: &HostRuntime, nth: u64) -> Result<bool, Fail> {
    let is_right = is_removed_or_not(rt, nth)?;
    fs::remove_dir_all(rt, "cut")?;
    Ok(is_right)
}

#[test]
fn a_removal_that_fails_leaves_each_file_or_none(rt: HostRuntime) -> Result<(), Fail> {
    for nth in 1..10 {
        let is_right = is_removal_right_at(&rt, nth)?;
        assert!(rt; is_right, "call {nth}");
    }
    Ok(())
}

/// Whether a write fails only where a call did. A directory that is there need not be made, so a failed call may do no
/// harm.
fn fails_with_a_call<S: Store>(alloc: Global, store: &mut S, calls: &Calls) -> bool {
    calls.start();
    let outcome = write_object(alloc, store, Kind::Blob, b"hello world");
    calls.stop();
    outcome.is_ok() || calls.has_failed()
}

fn is_read_once_written<S: Store>(alloc: Global, store: &mut S) -> Result<bool, StoreError> {
    let id = write_object(alloc, store, Kind::Blob, b"hello world")?;
    let found = store.read(alloc, &id)?;
    Ok(found.is_some())
}

fn is_write_right<S: Store>(alloc: Global, store: &mut S, calls: &Calls) -> bool {
    let is_told = fails_with_a_call(alloc, store, calls);
    let is_read = is_read_once_written(alloc, store).unwrap_or(false);
    is_told && is_read
}

fn is_whole_or_absent(rt: &HostRuntime, nth: u64) -> Result<bool, Fail> {
    let calls = Calls::new(nth);
    let mut store = create(rt, "whole", HashKind::Sha256, &calls)?;
    Ok(is_write_right(rt.alloc(), &mut store, &calls))
}

fn is_write_right_at(rt: &HostRuntime, nth: u64) -> Result<bool, Fail> {
    let is_right = is_whole_or_absent(rt, nth)?;
    fs::remove_dir_all(rt, "whole")?;
    Ok(is_right)
}

#[test]
fn an_object_whose_write_fails_is_whole_or_absent(rt: HostRuntime) -> Result<(), Fail> {
    for nth in 1..8 {
        let is_right = is_write_right_at(&rt, nth)?;
        assert!(rt; is_right, "call {nth}");
    }
    Ok(())
}
