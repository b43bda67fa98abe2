use crate::samples::{name_of, person};
use gx_hash::{HashKind, NoMemory, ObjectId};
use gx_refs::{RefError, WriteReflog, chain, move_end, resolve};
use gx_rules::FullName;
use gx_store::{
    LogAct, Memory, Objects, RefChange, References, StoreError, Target, TargetChange, What,
};
use std::alloc::Global;

/// The tag whose short name is the digit. A line is due for it only where it has a log.
fn tag(alloc: Global, digit: u8) -> Result<FullName, NoMemory> {
    let mut name = Vec::from_slice(alloc, b"refs/tags/")?;
    name.push(digit)?;
    name_of(alloc, &name)
}

fn lead(alloc: Global, store: &mut Memory, from: u8, to: u8) -> Result<(), StoreError> {
    let changes = [RefChange {
        name: tag(alloc, from)?,
        target: TargetChange::Set(Target::Symbolic(tag(alloc, to)?)),
        log: LogAct::Keep,
    }];
    store.apply(alloc, &changes)
}

/// A store in which four tags lead from one to the next.
fn leading(alloc: Global) -> Result<Memory, StoreError> {
    let mut store = Memory::new(alloc, HashKind::Sha1)?;
    lead(alloc, &mut store, b'1', b'2')?;
    lead(alloc, &mut store, b'2', b'3')?;
    lead(alloc, &mut store, b'3', b'4')?;
    Ok(store)
}

/// Whether the refusal of the first tag's chain names the broken one.
fn is_told(alloc: Global, digit: u8) -> Result<bool, RefError> {
    let mut store = leading(alloc)?;
    store.break_name(tag(alloc, digit)?)?;
    let what = What::Name(tag(alloc, digit)?);
    let refusal = chain(alloc, &store, &tag(alloc, b'1')?).err();
    Ok(refusal == Some(RefError::Store { what }))
}

fn each_is_told(alloc: Global) -> Result<bool, RefError> {
    for digit in b'1'..b'5' {
        if !is_told(alloc, digit)? {
            return Ok(false);
        }
    }
    Ok(true)
}

#[test]
fn a_fault_on_the_way_tells_the_name(rt: HostRuntime) {
    assert!(rt; each_is_told(rt.alloc()).unwrap_or(false));
}

/// Whether the refusal to move the first tag's chain, which was found before, names the tag that is broken then.
fn is_told_by_move(alloc: Global, digit: u8) -> Result<bool, RefError> {
    let mut store = leading(alloc)?;
    let chain = resolve(alloc, &store, &tag(alloc, b'1')?)?;
    store.break_name(tag(alloc, digit)?)?;
    let id = ObjectId::empty_blob(store.hash_kind());
    let who = person(alloc)?;
    let refusal = move_end(alloc, &store, WriteReflog::Normal, &chain, id, &who, b"m").err();
    let what = What::Name(tag(alloc, digit)?);
    Ok(refusal == Some(StoreError::Fault { what }))
}

fn each_is_told_by_move(alloc: Global) -> Result<bool, RefError> {
    for digit in b'1'..b'5' {
        if !is_told_by_move(alloc, digit)? {
            return Ok(false);
        }
    }
    Ok(true)
}

#[test]
fn a_fault_of_a_log_tells_the_name(rt: HostRuntime) {
    assert!(rt; each_is_told_by_move(rt.alloc()).unwrap_or(false));
}
