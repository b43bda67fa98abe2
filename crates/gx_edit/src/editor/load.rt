// Directories loaded from a store.
ghost use Rattle.std.specs.Prelude.{◌≡◌, None, Some, IfOk, IfErr, OnOk, if◌then◌else◌};
ghost use Rattle.std.specs.FinMap as fin;
ghost use Rattle.gx_hash.specs.declared.oid.ObjectId.{ObjectId};
ghost use Rattle.gx_edit.specs.OpenTree.{LoadCauses};
ghost use Rattle.gx_edit.specs.Nodes.{place_of, tree_in, IsLoaded, IsNotLoaded};
ghost use Rattle.gx_edit.specs.View.{WhereLoaded, names_of, is_null};

use super::item::Item;
use super::nodes::{Node, new_node};
use crate::EditError;
use crate::stored_tree::read_tree;
use gx_hash::{HashKind, NoMemory, ObjectId};
use gx_object::{Entry, Tree};
use gx_store::Objects;
use std::alloc::Global;

fn put_entry(node: &mut Node, entry: Entry) -> Result<(), NoMemory>
    ensures { OnOk result (place_of node.new ≡ record {
      names = fin.insert (place_of node.old).names entry.filename
          (record { mode = entry.mode; id = entry.oid });
      inner = (place_of node.old).inner;
    }) }
{
    let item = Item {
        mode: entry.mode,
        id: entry.oid,
    };
    node.names.insert(entry.filename.into_vec(), item)?;
    Ok(())
}

/// The directory of a tree. Of entries with one name the first counts.
pub(super) fn node_of(alloc: Global, tree: Tree) -> Result<Node, NoMemory>
    ensures { IfOk result (λ node. place_of node ≡ record { names = names_of tree.entries; inner = fin.empty }) }
{
    let mut node = new_node(alloc);
    let mut entries = tree.entries.into_vec();
    while let Some(entry) = entries.pop() {
        put_entry(&mut node, entry)?;
    }
    Ok(node)
}

/// The directory of the tree at an id.
fn node_at<S: Objects>(
    alloc: Global,
    store: &S,
    hash: HashKind,
    id: ObjectId,
) -> Result<Node, EditError>
    requires kind { hash ≡ (S.state store.now).hash }
    ensures none_inside { IfOk result (λ node. (place_of node).inner ≡ fin.empty) }
    ensures names { IfOk result (λ node. WhereLoaded (S.state store.now) (λ load. (place_of node).names ≡ load id)) }
    ensures refused { IfErr result (LoadCauses (S.state store.now) id) }
{
    let tree = read_tree(alloc, store, hash, id)?;
    Ok(node_of(alloc, tree)?)
}

fn stored_id(id: ObjectId) -> Option<ObjectId>
    ensures { result ≡ (if is_null id then None else Some id) }
{
    if id.is_null() { None } else { Some(id) }
}

/// The id of the tree that a directory's item has: none where a leaf stands, or nothing, or a placeholder.
fn tree_in(item: Option<Item>) -> Option<ObjectId>
    ensures { result ≡ tree_in item }
{
    match item {
        None => None,
        Some(item) => {
            if item.mode.is_tree() {
                stored_id(item.id)
            } else {
                None
            }
        }
    }
}

/// What a directory holds once it is loaded: nothing where it has no tree.
pub(super) fn load<S: Objects>(
    alloc: Global,
    store: &S,
    hash: HashKind,
    item: Option<Item>,
) -> Result<Node, EditError>
    requires kind { hash ≡ (S.state store.now).hash }
    ensures loaded { IfOk result (λ node. IsLoaded (S.state store.now) item (place_of node)) }
    ensures refused { IfErr result (IsNotLoaded (S.state store.now) item) }
{
    match tree_in(item) {
        None => Ok(new_node(alloc)),
        Some(id) => node_at(alloc, store, hash, id),
    }
}
