ghost use Rattle.std.specs.Prelude.{OnOk};
ghost use Rattle.gx_store.specs.Change.{applied, HaveDistinctNames};
ghost use Rattle.gx_store.specs.Kinds.{AreChangesOfKind};
ghost use Rattle.gx_store.specs.State.{Becomes, all_stored};

use crate::samples::name_of;
use gx_hash::{Bytes, HashKind, NoMemory, ObjectId};
use gx_object::Kind;
use gx_store::{
    LogAct, Memory, Objects, RefChange, References, Store, StoreError, Target, TargetChange,
    write_objects,
};
use std::alloc::Global;

fn objects(alloc: Global) -> Result<Vec<(Kind, Bytes)>, NoMemory> {
    let mut objects = Vec::new(alloc);
    push_object(alloc, &mut objects, Kind::Blob, b"a")?;
    push_object(alloc, &mut objects, Kind::Tree, b"")?;
    push_object(alloc, &mut objects, Kind::Blob, b"b")?;
    Ok(objects)
}

fn push_object(
    alloc: Global,
    objects: &mut Vec<(Kind, Bytes)>,
    kind: Kind,
    bytes: &[u8],
) -> Result<(), NoMemory> {
    let bytes = Bytes::from_slice(alloc, bytes)?;
    Ok(objects.push((kind, bytes))?)
}

/// How many of the three objects are there, where each stands before the next: 9 where not. The ids are those of
/// `git hash-object`.
fn count_stored(alloc: Global, store: &Memory) -> Result<u64, StoreError> {
    let first = is_stored(alloc, store, b"2e65efe2a145dda7ee51d1741299f848e5bf752e")?;
    let second = is_stored(alloc, store, b"4b825dc642cb6eb9a060e54bf8d69288fbee4904")?;
    let third = is_stored(alloc, store, b"63d8dbd40c23542e740659a7168a0ce3138ea748")?;
    Ok(match (first, second, third) {
        (false, false, false) => 0,
        (true, false, false) => 1,
        (true, true, false) => 2,
        (true, true, true) => 3,
        _ => 9,
    })
}

fn is_stored(alloc: Global, store: &Memory, digits: &[u8]) -> Result<bool, StoreError> {
    match ObjectId::from_hex(digits) {
        Ok(id) => store.exists(alloc, &id),
        Err(_) => Ok(false),
    }
}

/// Whether the objects before the call that fails are stored, and no others.
fn are_first_stored(alloc: Global, call: u64) -> Result<bool, StoreError> {
    let mut store = Memory::new(alloc, HashKind::Sha1)?;
    store.fail_write(call)?;
    let failed = write_objects(alloc, &mut store, &objects(alloc)?).is_err();
    let stored = count_stored(alloc, &store)?;
    Ok(failed == (call <= 3) && stored == call.saturating_sub(1).min(3))
}

fn at_each_call(alloc: Global) -> Result<bool, StoreError> {
    for call in 1..6 {
        if !are_first_stored(alloc, call)? {
            return Ok(false);
        }
    }
    Ok(true)
}

#[test]
fn objects_before_a_fault_are_stored(rt: HostRuntime) {
    assert!(rt; at_each_call(rt.alloc()).unwrap_or(false));
}

/// Any store holds what was written to it and then changed.
fn carry_out<S: Store>(
    alloc: Global,
    store: &mut S,
    objects: &[(Kind, Bytes)],
    changes: &[RefChange],
) -> Result<(), StoreError>
    requires names { HaveDistinctNames changes.now }
    requires kinds { AreChangesOfKind (S.state store.old).hash changes.now }
    ensures { OnOk result (
        Becomes (applied changes.now (all_stored objects.now (S.state store.old))) (S.state store.new)) }
{
    write_objects(alloc, store, objects)?;
    store.apply(alloc, changes)
}

fn is_carried_out(alloc: Global) -> Result<bool, StoreError> {
    let mut store = Memory::new(alloc, HashKind::Sha1)?;
    let changes = [RefChange {
        name: name_of(alloc, b"refs/heads/a")?,
        target: TargetChange::Set(Target::Object(store.hash_kind().empty_blob())),
        log: LogAct::Keep,
    }];
    carry_out(alloc, &mut store, &objects(alloc)?, &changes)?;
    let is_set = store
        .find(alloc, &name_of(alloc, b"refs/heads/a")?)?
        .is_some();
    Ok(is_set && count_stored(alloc, &store)? == 3)
}

#[test]
fn any_store_is_written_to_and_changed(rt: HostRuntime) {
    assert!(rt; is_carried_out(rt.alloc()).unwrap_or(false));
}
