//! Trees, depth first.

ghost use Rattle.std.specs.Prelude.{◌≡◌, OnOk, IfErr};
ghost use Rattle.gx_walk.specs.Traversal.Order.{DepthFirst};
ghost use Rattle.gx_walk.specs.Stops.{IsWhole, TraversalCauses};

use crate::tree::above::Above;
use crate::tree::open_tree::{OpenTree, entries_of, open_tree};
use crate::tree::visit::{is_cancel, is_entered, visit_entry};
use crate::{Visit, WalkError};
use gx_hash::ObjectId;
use gx_store::Objects;
use std::alloc::Global;

/// Visits every entry at or below the tree with this id and these bytes. The entries of a subtree come right after the
/// subtree's own entry.
///
/// It takes no more of the call stack for a deep tree. To look whether a tree contains itself costs the logarithm of
/// its depth: the ids of the trees that contain it are kept in order.
pub fn depthfirst<S: Objects, V: Visit>(
    alloc: Global,
    store: &S,
    root: ObjectId,
    bytes: &[u8],
    visit: &mut V,
) -> Result<(), WalkError>
    ensures ok { OnOk result (IsWhole (S.state store.now) DepthFirst root bytes.now
        (V.visits visit.old) (V.visits visit.new)) }
    ensures count { OnOk result (V.cancels visit.new ≡ V.cancels visit.old) }
    ensures causes { IfErr result (TraversalCauses (S.state store.now) DepthFirst root bytes.now
        (V.visits visit.old) (V.visits visit.new) (V.cancels visit.old) (V.cancels visit.new)) }
{
    let Some(entries) = entries_of(alloc, store.hash_kind(), bytes)? else {
        return Err(WalkError::Decode { id: root });
    };
    let mut path = Vec::new(alloc);
    let mut entered = Above::of(alloc, root)?;
    let mut levels: Vec<OpenTree> = Vec::new(alloc);
    let mut tree = OpenTree {
        id: root,
        entries,
        place: 0,
        at: 0,
    };
    loop {
        let Some(entry) = tree.entries.get(tree.place) else {
            match levels.pop() {
                None => return Ok(()),
                Some(above) => {
                    path.truncate(above.at);
                    entered.leave();
                    tree = above;
                    continue;
                }
            }
        };
        path.extend_from_slice(entry.filename.as_slice())?;
        let action = visit_entry(visit, &path, entry)?;
        if is_cancel(action) {
            return Err(WalkError::Cancelled);
        }
        if !is_entered(entry, action) {
            path.truncate(tree.at);
            tree.place += 1;
            continue;
        }
        if !entered.enter(entry.oid)? {
            return Err(WalkError::TreeCycle { id: entry.oid });
        }
        path.push(b'/')?;
        let inner = open_tree(alloc, store, entry.oid, path.len())?;
        tree.place += 1;
        levels.push(tree)?;
        tree = inner;
    }
}
