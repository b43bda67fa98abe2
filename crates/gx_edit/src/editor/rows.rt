// The entries that are written of a loaded directory.
ghost use Rattle.std.specs.Prelude.{◌≡◌, ◌++◌, slice_get, option_map, IfOk, OnOk};
ghost use Rattle.std.specs.List.Sorted.{IsStrictlySortedBy, IsPermutation, IsSorted};
ghost use Rattle.gx_rules.specs.Name.{name_cmp};
ghost use Rattle.gx_edit.specs.EditorPlan.{id_done, id_for, row_for, option_list, rows_by_name, names_in, AreRows};
ghost use Rattle.gx_edit.specs.Nodes.{map_in};
ghost use Rattle.gx_edit.specs.Written.{entry_cmp, entry_with};

use super::item::Item;
use super::nodes::{Node, place_in};
use crate::stored_tree::compare_keys;
use gx_hash::{Bytes, NoMemory, ObjectId};
use gx_object::Entry;
use std::alloc::Global;
use std::cmp::Ordering;

/// The id that is planned of the directory at a place, none where nothing is written of it.
fn id_done(done: &[Option<ObjectId>], place: usize) -> Option<ObjectId>
    ensures { result ≡ id_done (slice_get done.now place) }
{
    *done.get(place)?
}

/// The id that is written of an item: none of a placeholder, nor of a directory of which nothing is written.
fn id_for(item: &Item, inner: Option<usize>, done: &[Option<ObjectId>]) -> Option<ObjectId>
    ensures { result ≡ id_for item.now inner done.now }
{
    match inner {
        Some(place) => id_done(done, place),
        None if item.id.is_null() => None,
        None => Some(item.id),
    }
}

/// Adds the entry of a name, where an id is written of it.
fn push_row(
    alloc: Global,
    rows: &mut Vec<Entry>,
    name: &[u8],
    item: &Item,
    id: Option<ObjectId>,
) -> Result<(), NoMemory>
    ensures { OnOk result (rows.new.items ≡ rows.old.items
        ++ option_list (option_map (entry_with name.now item.now) id)) }
{
    let Some(oid) = id else {
        return Ok(());
    };
    let filename = Bytes::from_slice(alloc, name)?;
    rows.push(Entry {
        mode: item.mode,
        filename,
        oid,
    })?;
    Ok(())
}

/// Adds what is written of a name of the directory.
fn push_name(
    alloc: Global,
    rows: &mut Vec<Entry>,
    node: &Node,
    done: &[Option<ObjectId>],
    name: &[u8],
    item: &Item,
) -> Result<(), NoMemory>
    ensures { OnOk result (rows.new.items ≡ rows.old.items ++ option_list (row_for (map_in node.now.inner) done.now
        (name.now, item.now))) }
{
    let inner = place_in(&node.inner, name);
    push_row(alloc, rows, name, item, id_for(item, inner, done))
}

/// The entries of a directory, in the order of its names.
fn rows_by_name(
    alloc: Global,
    node: &Node,
    done: &[Option<ObjectId>],
) -> Result<Vec<Entry>, NoMemory>
    ensures rows { IfOk result (λ rows. rows.items ≡ rows_by_name node.now done.now) }
    ensures ordered { IsStrictlySortedBy name_cmp (names_in node.now) }
{
    let mut rows = Vec::new(alloc);
    for (name, item) in node.names.iter() {
        push_name(alloc, &mut rows, node, done, name, item)?;
    }
    Ok(rows)
}

fn compare_entries(a: &Entry, b: &Entry) -> Ordering
    ensures { result ≡ entry_cmp a.now b.now }
{
    match compare_keys(a, b) {
        Ordering::Equal => a.filename.as_slice().cmp(b.filename.as_slice()),
        apart => apart,
    }
}

fn sort_rows(rows: &mut Vec<Entry>)
    ensures moved { IsPermutation rows.old.items rows.new.items }
    ensures sorted { IsSorted entry_cmp rows.new.items }
{
    rows.sort_unstable_by(|a, b| compare_entries(a, b));
}

/// The entries that are written of a directory, in the order of a tree, once the directories that are loaded in it are
/// planned.
pub(super) fn rows_of(
    alloc: Global,
    node: &Node,
    done: &[Option<ObjectId>],
) -> Result<Vec<Entry>, NoMemory>
    ensures { IfOk result (λ rows. AreRows node.now done.now rows.items) }
{
    let mut rows = rows_by_name(alloc, node, done)?;
    sort_rows(&mut rows);
    Ok(rows)
}
