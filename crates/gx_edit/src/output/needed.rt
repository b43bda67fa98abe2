// What the entries of planned trees name, before the trees are stored.
ghost use Rattle.std.specs.Prelude.{◌≡◌, IfOk, IfErr, OnOk, map};
ghost use Rattle.std.specs.List.{AllByRecursion};
ghost use Rattle.gx_hash.specs.declared.oid.ObjectId.{ObjectId};
ghost use Rattle.gx_hash.specs.ObjectIds.{has_id};
ghost use Rattle.gx_edit.specs.Checking.{IsCompleteOutside, IsMissingOutside, OneOf};

use super::PlannedTree;
use super::store::check_entry;
use crate::EditError;
use gx_hash::{NoMemory, ObjectIds};
use gx_object::Entry;
use gx_store::Objects;
use std::alloc::Global;

/// The ids of planned trees.
pub(super) fn ids_of(alloc: Global, trees: &[PlannedTree]) -> Result<ObjectIds, NoMemory>
    ensures { IfOk result (λ ids. (id : ObjectId) → has_id ids id ≡ has_id (map (λ tree. tree.id) trees.now) id) }
{
    let mut ids = ObjectIds::new(alloc);
    for tree in trees {
        ids.insert(tree.id)?;
    }
    Ok(ids)
}

fn check_outside<S: Objects>(
    alloc: Global,
    store: &S,
    entry: &Entry,
    given: &ObjectIds,
    trees: &ObjectIds,
) -> Result<(), EditError>
    ensures ok { OnOk result (IsCompleteOutside (S.state store.now) given.now trees.now entry.now) }
    ensures err { IfErr result (IsMissingOutside (S.state store.now) given.now trees.now entry.now) }
{
    if given.contains(&entry.oid) {
        return Ok(());
    }
    if trees.contains(&entry.oid) {
        return Ok(());
    }
    check_entry(alloc, store, entry)
}

/// Refuses an entry, no submodule, that names neither one of the ids nor what is stored.
pub(super) fn check_needed<S: Objects>(
    alloc: Global,
    store: &S,
    entries: &[Entry],
    given: &ObjectIds,
    trees: &ObjectIds,
) -> Result<(), EditError>
    ensures ok { OnOk result (AllByRecursion (IsCompleteOutside (S.state store.now) given.now trees.now) entries.now) }
    ensures err { IfErr result (OneOf entries.now (IsMissingOutside (S.state store.now) given.now trees.now)) }
{
    for entry in entries {
        check_outside(alloc, store, entry, given, trees)?;
    }
    Ok(())
}
