//! What the tests share.
ghost use Rattle.std.specs.Prelude.{IfOk};
ghost use Rattle.gx_store.specs.Kinds.{IsLineOfKind};

use gx_folder::Folder;
use gx_hash::{Bytes, HashKind, NoMemory, ObjectId};
use gx_object::{Signature, Time};
use gx_rules::FullName;
use gx_store::{LogAct, LogLine, RefChange, Store, StoreError, Target, TargetChange};
use std::alloc::Global;
use std::test::Fail;

/// A new store in a folder.
pub(crate) fn create(
    rt: &HostRuntime,
    path: &str,
    hash: HashKind,
) -> Result<Folder<HostRuntime>, Fail> {
    let store = Folder::create(rt.clone()?, path, hash)?;
    Ok(store)
}

pub(crate) fn name_of(alloc: Global, bytes: &[u8]) -> Result<FullName, NoMemory> {
    match FullName::new(alloc, bytes) {
        Ok(name) => Ok(name),
        Err(_) => Err(NoMemory),
    }
}

/// A line from the null id to that of the empty blob.
pub(crate) fn line(alloc: Global, hash: HashKind) -> Result<LogLine, NoMemory>
    ensures { IfOk result (IsLineOfKind hash) }
{
    Ok(LogLine {
        previous: ObjectId::null(hash),
        new: ObjectId::empty_blob(hash),
        signature: Signature {
            name: Bytes::from_slice(alloc, b"A U Thor")?,
            email: Bytes::from_slice(alloc, b"author@example.com")?,
            time: Time {
                seconds: 1,
                offset: 3600,
            },
        },
        message: Bytes::from_slice(alloc, b"commit: a message")?,
    })
}

/// Makes a reference symbolic to another, with a line in its log.
pub(crate) fn lead<S: Store>(
    alloc: Global,
    store: &mut S,
    name: &[u8],
    to: &[u8],
) -> Result<(), StoreError> {
    let hash = store.hash_kind();
    let changes = [RefChange {
        name: name_of(alloc, name)?,
        target: TargetChange::Set(Target::Symbolic(name_of(alloc, to)?)),
        log: LogAct::Append(line(alloc, hash)?),
    }];
    store.apply(alloc, &changes)
}

/// Removes a reference and its log.
pub(crate) fn delete<S: Store>(
    alloc: Global,
    store: &mut S,
    name: &[u8],
) -> Result<(), StoreError> {
    let changes = [RefChange {
        name: name_of(alloc, name)?,
        target: TargetChange::Remove,
        log: LogAct::Remove,
    }];
    store.apply(alloc, &changes)
}

/// Removes a reference and its log, and makes another one, in one change.
pub(crate) fn replace<S: Store>(
    alloc: Global,
    store: &mut S,
    old: &[u8],
    new: &[u8],
) -> Result<(), StoreError> {
    let hash = store.hash_kind();
    let old = name_of(alloc, old)?;
    let new = name_of(alloc, new)?;
    if old == new {
        return Ok(());
    }
    let changes = [
        RefChange {
            name: new,
            target: TargetChange::Set(Target::Symbolic(name_of(alloc, b"HEAD")?)),
            log: LogAct::Append(line(alloc, hash)?),
        },
        RefChange {
            name: old,
            target: TargetChange::Remove,
            log: LogAct::Remove,
        },
    ];
    store.apply(alloc, &changes)
}

fn has_target<S: Store>(
    alloc: Global,
    store: &S,
    name: &FullName,
    to: &[u8],
) -> Result<bool, StoreError> {
    let wanted = Target::Symbolic(name_of(alloc, to)?);
    let found = store.find(alloc, name)?;
    Ok(found == Some(wanted))
}

fn has_lines<S: Store>(
    alloc: Global,
    store: &S,
    name: &FullName,
    count: usize,
) -> Result<bool, StoreError> {
    let lines = store.log(alloc, name)?;
    Ok(lines.is_some_and(|lines| lines.as_slice().len() == count))
}

/// Whether a reference is symbolic to another, and its log has so many lines.
pub(crate) fn leads<S: Store>(
    alloc: Global,
    store: &S,
    name: &[u8],
    to: &[u8],
    count: usize,
) -> bool {
    let Ok(name) = name_of(alloc, name) else {
        return false;
    };
    let is_there = has_target(alloc, store, &name, to).unwrap_or(false);
    let is_logged = has_lines(alloc, store, &name, count).unwrap_or(false);
    is_there && is_logged
}

/// Whether there is neither a reference nor a log of the name.
pub(crate) fn is_gone<S: Store>(alloc: Global, store: &S, name: &[u8]) -> Result<bool, StoreError> {
    let name = name_of(alloc, name)?;
    let found = store.find(alloc, &name)?;
    let is_logged = store.log_exists(alloc, &name)?;
    Ok(found.is_none() && !is_logged)
}
