//! Trees, breadth first.

ghost use Rattle.std.specs.Prelude.{◌≡◌, ◌↔◌, [], ◌∷◌, ◌++◌, IfOk, OnOk, IfErr, Contains, IsTrue};
ghost use Rattle.std.specs.List.{list_any};
ghost use Rattle.gx_hash.specs.ObjectIds.{id_eq};
ghost use Rattle.gx_walk.specs.Traversal.Order.{BreadthFirst};
ghost use Rattle.gx_walk.specs.Stops.{IsWhole, TraversalCauses};
ghost use Rattle.gx_walk.specs.Breadth.{Waits, HasEntered, EnterCauses};

use crate::tree::open_tree::{entries_of, open_tree};
use crate::tree::visit::{is_cancel, is_entered, visit_entry};
use crate::{Visit, WalkError};
use gx_hash::{NoMemory, ObjectId};
use gx_object::Entry;
use gx_store::Objects;
use std::alloc::Global;
use std::collections::VecDeque;

/// A tree that waits to be entered.
#[derive(Drop)]
pub(super) struct Waiting {
    /// The trees that contain it, from the root down.
    pub(super) above: Vec<ObjectId>,
    /// Its path, followed by a slash.
    pub(super) path: Vec<u8>,
    pub(super) id: ObjectId,
}

/// The tree that is being visited.
#[derive(Drop)]
pub(super) struct Entered {
    /// The trees that contain it, from the root down, and itself.
    pub(super) above: Vec<ObjectId>,
    /// Its path, followed by a slash.
    pub(super) path: Vec<u8>,
    pub(super) entries: Vec<Entry>,
    /// How many of its entries were visited.
    pub(super) place: usize,
}

fn has_id(ids: &[ObjectId], id: &ObjectId) -> bool
    ensures { result ≡ list_any (λ one. id_eq one id.now) ids.now }
{
    ids.iter().any(|one| *one == *id)
}

fn is_above(ids: &[ObjectId], id: &ObjectId) -> bool
    ensures { IsTrue result ↔ Contains ids.now id.now }
{
    has_id(ids, id)
}

/// The path of an entry.
fn path_to(alloc: Global, directory: &[u8], name: &[u8]) -> Result<Vec<u8>, NoMemory>
    ensures { IfOk result (λ path. path.items ≡ directory.now ++ name.now) }
{
    let mut path = Vec::from_slice(alloc, directory)?;
    path.extend_from_slice(name)?;
    Ok(path)
}

/// The tree of an entry at a path.
fn make_waiting(
    alloc: Global,
    above: &[ObjectId],
    path: Vec<u8>,
    id: ObjectId,
) -> Result<Waiting, NoMemory>
    ensures { IfOk result (λ waiting. Waits above.now (path.items ++ 47 ∷ []) id waiting) }
{
    let mut path = path;
    path.push(b'/')?;
    Ok(Waiting {
        above: Vec::from_slice(alloc, above)?,
        path,
        id,
    })
}

/// Enters a tree.
fn enter<S: Objects>(alloc: Global, store: &S, tree: Waiting) -> Result<Entered, WalkError>
    ensures ok { IfOk result (λ entered. HasEntered (S.state store.now) tree entered) }
    ensures causes { IfErr result (EnterCauses (S.state store.now) tree) }
{
    if is_above(&tree.above, &tree.id) {
        return Err(WalkError::TreeCycle { id: tree.id });
    }
    let opened = open_tree(alloc, store, tree.id, 0)?;
    let mut above = tree.above;
    above.push(tree.id)?;
    Ok(Entered {
        above,
        path: tree.path,
        entries: opened.entries,
        place: 0,
    })
}

/// Visits every entry at or below the tree with this id and these bytes: first its own entries, then those of its
/// subtrees in the order in which these were visited, and so on.
///
/// Each tree that waits keeps its path and the ids of the trees that contain it, and is compared with each of them when
/// it is entered: that takes time and memory in proportion to its depth, as its path does.
pub fn breadthfirst<S: Objects, V: Visit>(
    alloc: Global,
    store: &S,
    root: ObjectId,
    bytes: &[u8],
    visit: &mut V,
) -> Result<(), WalkError>
    ensures ok { OnOk result (IsWhole (S.state store.now) BreadthFirst root bytes.now
        (V.visits visit.old) (V.visits visit.new)) }
    ensures count { OnOk result (V.cancels visit.new ≡ V.cancels visit.old) }
    ensures causes { IfErr result (TraversalCauses (S.state store.now) BreadthFirst root bytes.now
        (V.visits visit.old) (V.visits visit.new) (V.cancels visit.old) (V.cancels visit.new)) }
{
    let Some(entries) = entries_of(alloc, store.hash_kind(), bytes)? else {
        return Err(WalkError::Decode { id: root });
    };
    let mut queue: VecDeque<Waiting> = VecDeque::new(alloc);
    let mut tree = Entered {
        above: vec![in alloc; root]?,
        path: Vec::new(alloc),
        entries,
        place: 0,
    };
    loop {
        let Some(entry) = tree.entries.get(tree.place) else {
            match queue.pop_front() {
                None => return Ok(()),
                Some(next) => {
                    tree = enter(alloc, store, next)?;
                    continue;
                }
            }
        };
        let path = path_to(alloc, &tree.path, entry.filename.as_slice())?;
        let action = visit_entry(visit, &path, entry)?;
        if is_cancel(action) {
            return Err(WalkError::Cancelled);
        }
        if !is_entered(entry, action) {
            tree.place += 1;
            continue;
        }
        let next = make_waiting(alloc, &tree.above, path, entry.oid)?;
        queue.push_back(next)?;
        tree.place += 1;
    }
}
