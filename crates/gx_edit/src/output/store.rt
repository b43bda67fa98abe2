// Trees stored, and what their entries name looked for.
ghost use Rattle.std.specs.Prelude.{◌<◌, ◌↔◌, ℕ, length, take, IsTrue, IsSome, IfOk, IfErr, IfSome, OnOk, OnErr};
ghost use Rattle.std.specs.List.{AllByRecursion};
ghost use Rattle.gx_store.specs.Content.{IsStored};
ghost use Rattle.gx_store.specs.State.{Becomes, HasCause, IfFault, IsUnreadable, all_stored};
ghost use Rattle.gx_store.specs.declared.error.What.TheVariants as part;
ghost use Rattle.gx_edit.specs.Planning.{ArePlanned, objects_of};
ghost use Rattle.gx_edit.specs.Entries.{IsComplete};
ghost use Rattle.gx_edit.specs.Checking.{IsMissing, OneOf};

use super::PlannedTree;
use crate::EditError;
use gx_hash::ObjectId;
use gx_object::{Entry, Kind};
use gx_rules::Protect;
use gx_store::{Objects, StoreError};
use std::alloc::Global;

/// Stores planned trees in order. After an error the first of them are stored, and one at least is left.
pub(super) fn store_trees<S: Objects>(
    alloc: Global,
    store: &mut S,
    trees: &[PlannedTree],
) -> Result<(), StoreError>
    requires { ArePlanned (S.state store.old).hash trees.now }
    ensures ok { OnOk result (Becomes (all_stored (objects_of trees.now) (S.state store.old)) (S.state store.new)) }
    ensures err { OnErr result ((n : ℕ) × (n < length trees.now)
        × Becomes (all_stored (take n (objects_of trees.now)) (S.state store.old)) (S.state store.new)) }
    ensures fault { IfFault result (HasCause (S.state store.old) (S.state store.new)) }
{
    gx_store::laws::after();
    for tree in trees {
        store.write(alloc, tree.id, Kind::Tree, tree.bytes.as_slice())?;
    }
    Ok(())
}

/// Whether the object is stored, as the empty tree always is.
fn is_stored<S: Objects>(alloc: Global, store: &S, id: &ObjectId) -> Result<bool, StoreError>
    ensures found { IfOk result (λ found. IfSome (S.state store.now).content
        (λ content. IsTrue found ↔ IsStored content id.now)) }
    ensures fault { IfFault result (IsUnreadable (S.state store.now) (part.Object id.now)) }
{
    if id.is_empty_tree() {
        return Ok(true);
    }
    store.exists(alloc, id)
}

pub(super) fn check_entry<S: Objects>(
    alloc: Global,
    store: &S,
    entry: &Entry,
) -> Result<(), EditError>
    ensures ok { OnOk result (IsComplete (S.state store.now) entry.now) }
    ensures err { IfErr result (IsMissing (S.state store.now) entry.now) }
{
    if entry.mode.is_commit() {
        return Ok(());
    }
    if is_stored(alloc, store, &entry.oid)? {
        return Ok(());
    }
    Err(EditError::MissingObject {
        filename: entry.filename.try_clone()?,
        kind: entry.mode.kind(),
        id: entry.oid,
    })
}

fn check_each_entry<S: Objects>(
    alloc: Global,
    store: &S,
    entries: &[Entry],
) -> Result<(), EditError>
    ensures ok { OnOk result (AllByRecursion (IsComplete (S.state store.now)) entries.now) }
    ensures err { IfErr result (OneOf entries.now (IsMissing (S.state store.now))) }
{
    for entry in entries {
        check_entry(alloc, store, entry)?;
    }
    Ok(())
}

/// Refuses an entry, no submodule, that names what is not stored, where protections are given.
pub(super) fn check_stored<S: Objects>(
    alloc: Global,
    store: &S,
    entries: &[Entry],
    protect: Option<Protect>,
) -> Result<(), EditError>
    ensures ok { OnOk result (IsSome protect → AllByRecursion (IsComplete (S.state store.now)) entries.now) }
    ensures err { IfErr result (OneOf entries.now (IsMissing (S.state store.now))) }
    ensures asked { IfErr result (λ _. IsSome protect) }
{
    match protect {
        None => Ok(()),
        Some(_) => check_each_entry(alloc, store, entries),
    }
}
