//! The path map of a stored tree.

ghost use Rattle.std.specs.Prelude.{IfOk, IfErr, IfSome};
ghost use Rattle.gx_edit.specs.CanonicalTree.{Represents};
ghost use Rattle.gx_edit.specs.PathList.{map_of};
ghost use Rattle.gx_edit.specs.ReadMapCauses.{ReadMapCauses};
ghost use Rattle.gx_edit.specs.SharedIds.{HasIdsOf, HasNoNullId};

mod leaves;
mod listing;
mod open_tree;
mod sort_key;

use crate::{EditError, PathMap};
use gx_hash::ObjectId;
use gx_store::Objects;
use leaves::{has_leaf, insert_leaf};
pub(crate) use open_tree::read_tree;
use open_tree::{OpenTree, is_open, open_tree};
pub(crate) use sort_key::compare_keys;
use std::alloc::Global;
use std::collections::BTreeMap;

/// The path map of the tree at an id, which may be the empty tree. However deep the tree is, a call takes no more of
/// the stack: the trees that are begun stand in a list.
///
/// # Errors
/// `FindExistingObject` and `ObjectKind` name an id at or below the root where no object is stored, or one that is no
/// tree. `Decode` names a tree at or below the root that Git would not have written there: its bytes are not the
/// canonical spelling of its entries, it is stored under another id than its own, it is empty below the root, or it
/// stands below itself. Then `Store` and `NoMemory`.
pub fn read_map<S: Objects>(alloc: Global, store: &S, root: ObjectId) -> Result<PathMap, EditError>
    ensures represents { IfOk result (λ map. IfSome (S.state store.now).content (λ content.
        Represents (S.state store.now).hash content root (map_of map))) }
    ensures ids { IfOk result (λ map. HasIdsOf (S.state store.now).hash (map_of map)) }
    ensures own { IfOk result (λ map. HasNoNullId (S.state store.now).hash (map_of map)) }
    ensures refused { IfErr result (ReadMapCauses (S.state store.now) root) }
{
    let mut leaves = BTreeMap::new(alloc);
    let mut path = Vec::new(alloc);
    let mut levels: Vec<OpenTree> = Vec::new(alloc);
    let mut mark = 0;
    let mut tree = open_tree(alloc, store, root, 0)?;
    loop {
        let Some(entry) = tree.entries.get(tree.place) else {
            match levels.pop() {
                None => return Ok(PathMap::from_leaves(alloc, leaves)),
                Some(above) => {
                    path.truncate(above.at);
                    tree = above;
                    continue;
                }
            }
        };
        if !entry.mode.is_tree() {
            insert_leaf(alloc, &mut leaves, &path, entry)?;
            tree.place += 1;
            continue;
        }
        if is_open(&levels, mark, &tree, &entry.oid) {
            return Err(EditError::Decode { id: entry.oid });
        }
        path.extend_from_slice(entry.filename.as_slice())?;
        if has_leaf(&leaves, &path) {
            return Err(EditError::Decode { id: tree.id });
        }
        path.push(b'/')?;
        let inner = open_tree(alloc, store, entry.oid, path.len())?;
        if inner.entries.is_empty() {
            return Err(EditError::Decode { id: inner.id });
        }
        mark = next_mark(mark, levels.len());
        tree.place += 1;
        levels.push(tree)?;
        tree = inner;
    }
}

/// Which of the trees that are begun is compared with those below it, once this many are begun. It moves where the
/// depth doubles, and where its tree is closed: so a tree that stands below itself is found, after a few rounds at
/// most, by one comparison a tree.
fn next_mark(mark: usize, depth: usize) -> usize {
    if mark < depth / 2 || depth < mark {
        depth
    } else {
        mark
    }
}
