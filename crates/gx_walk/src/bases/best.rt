//! The best of common ancestors.

ghost use Rattle.std.specs.Prelude.{◌≡◌, not, ◌&&◌, ◌||◌, filter, map, IfOk, OnOk};
ghost use Rattle.std.specs.List.Sorted.{IsStrictlySortedBy};
ghost use Rattle.gx_hash.specs.declared.oid.ObjectId.{ObjectId};
ghost use Rattle.gx_hash.specs.ObjectIds.{id_eq, has_id};
ghost use Rattle.gx_walk.specs.Best.{AreUnmarked, IsBestOf, has_child, key_cmp, rank_at};
ghost use Rattle.gx_walk.specs.Graph.{history_in};

use crate::commit::{Found, followed_in, rank};
use crate::{CommitTimeOrder, Graph, Parents, Sorting};
use gx_hash::{NoMemory, ObjectId, ObjectIds};
use gx_object::Ids;
use std::alloc::{AllocError, Global};
use std::collections::BTreeSet;

/// The ids of a list that are in a set.
fn common(alloc: Global, list: &[ObjectId], set: &ObjectIds) -> Result<Vec<ObjectId>, AllocError>
    ensures { IfOk result (λ both. both.items ≡ filter (has_id set.now) list.now) }
{
    list.iter()
        .copied()
        .filter(|id| set.contains(id))
        .collect(alloc)
}

/// Marks the parents of a commit, but for the commit itself.
fn mark_parents(marked: &mut ObjectIds, id: ObjectId, parents: &[ObjectId]) -> Result<(), NoMemory>
    ensures { OnOk result ((q : ObjectId) → has_id marked.new q
        ≡ (has_id marked.old q || (not (id_eq id q) && has_id parents.now q))) }
{
    for parent in parents {
        if *parent == id {
            continue;
        }
        marked.insert(*parent)?;
    }
    Ok(())
}

/// The parents of these commits, each but for its own commit.
fn mark(
    alloc: Global,
    graph: &Graph<()>,
    shallow: &ObjectIds,
    ids: &[ObjectId],
) -> Result<ObjectIds, NoMemory>
    ensures { IfOk result (λ marked. (q : ObjectId)
        → has_id marked q ≡ has_child (history_in graph.now) (has_id shallow.now) ids.now q) }
{
    let mut marked = ObjectIds::new(alloc);
    for id in ids {
        mark_parents(
            &mut marked,
            *id,
            followed_in(graph, Parents::All, shallow, id),
        )?;
    }
    Ok(marked)
}

/// A number that falls as the time of the commit rises.
fn rank_in(graph: &Graph<()>, id: &ObjectId) -> i64
    ensures { result ≡ rank_at (history_in graph.now) id.now }
{
    let time = match graph.get(id) {
        Some(commit) => commit.commit_time,
        None => 0,
    };
    rank(Sorting::ByCommitTime(CommitTimeOrder::NewestFirst), time)
}

/// The commits that are not marked, the newest first.
fn unmarked(
    alloc: Global,
    graph: &Graph<()>,
    ids: &[ObjectId],
    marked: &ObjectIds,
) -> Result<BTreeSet<(i64, ObjectId)>, AllocError>
    ensures { IfOk result (λ keys. AreUnmarked (rank_at (history_in graph.now)) (has_id marked.now) ids.now keys) }
{
    let mut keys = BTreeSet::new(alloc);
    for id in ids {
        if marked.contains(id) {
            continue;
        }
        keys.insert((rank_in(graph, id), *id))?;
    }
    Ok(keys)
}

/// The ids of keys, in their order.
fn ids_of(alloc: Global, keys: &BTreeSet<(i64, ObjectId)>) -> Result<Vec<ObjectId>, AllocError>
    ensures ids { IfOk result (λ ids. ids.items ≡ map (λ key. key.1) keys.now.keys) }
    ensures ordered { IsStrictlySortedBy key_cmp keys.now.keys }
{
    let _ = keys.len();
    keys.iter().map(|key| key.1).collect(alloc)
}

/// Those ids of both that are no parent of another one of these, in the order of merge bases. All of them are in the
/// graph.
pub(crate) fn best_of(
    alloc: Global,
    graph: &Graph<()>,
    shallow: &ObjectIds,
    of_one: &Found,
    of_others: &Found,
) -> Result<Ids, NoMemory>
    ensures { IfOk result (IsBestOf (history_in graph.now) (has_id shallow.now)
        (filter (has_id of_one.now.set) of_others.now.list.items)) }
{
    let both = common(alloc, &of_others.list, &of_one.set)?;
    let marked = mark(alloc, graph, shallow, &both)?;
    let keys = unmarked(alloc, graph, &both, &marked)?;
    Ok(Ids::from_vec(ids_of(alloc, &keys)?))
}
