//! The commits that ids reach.

ghost use Rattle.std.specs.Prelude.{◌≡◌, ◌↔◌, true, if◌then◌else◌, List, [], ◌∷◌, ◌++◌, IfOk, IfErr, OnOk, IsSome};
ghost use Rattle.gx_hash.specs.declared.oid.ObjectId.{ObjectId};
ghost use Rattle.gx_walk.specs.Causes.{CommitCauses};
ghost use Rattle.gx_walk.specs.Graph.{Extends, IsGraphIn, history_in};
ghost use Rattle.gx_walk.specs.History.{Told, Reaches, cut, followed};
ghost use Rattle.gx_hash.specs.ObjectIds.{has_id};
ghost use Rattle.gx_walk.specs.Reaching.{AreListed, AreRead, IsReaching, Nears};

use crate::commit::read::read_commit;
use crate::{Graph, GraphCommit, Parents, WalkError};
use gx_hash::{ObjectId, ObjectIds};
use gx_object::Ids;
use gx_store::Objects;
use std::alloc::Global;

/// The parents that are followed from a commit.
pub(crate) fn follow(
    alloc: Global,
    parents: Parents,
    shallow: &ObjectIds,
    id: &ObjectId,
    all: Ids,
) -> Ids
    ensures { result ≡ (if has_id shallow.now id.now then [] else cut parents all) }
{
    if shallow.contains(id) {
        return Ids::new(alloc);
    }
    match parents {
        Parents::All => all,
        Parents::First => {
            let mut ids = all.into_vec();
            ids.truncate(1);
            Ids::from_vec(ids)
        }
    }
}

/// The parents that are followed from a commit of a graph.
pub(crate) fn followed_in<'g>(
    graph: &'g Graph<()>,
    parents: Parents,
    shallow: &ObjectIds,
    id: &ObjectId,
) -> &'g [ObjectId]
    ensures { result.now ≡ followed (history_in graph.now) parents (has_id shallow.now) id.now }
{
    if shallow.contains(id) {
        return &[];
    }
    let Some(commit) = graph.get(id) else {
        return &[];
    };
    let all = commit.parents.as_slice();
    match parents {
        Parents::All => all,
        Parents::First => &all[..all.len().min(1)],
    }
}

/// Reads the commit at an id into a graph, unless it is there.
fn load<S: Objects>(
    alloc: Global,
    store: &S,
    graph: &mut Graph<()>,
    id: ObjectId,
) -> Result<(), WalkError>
    requires { IsGraphIn (S.state store.now) graph.old }
    ensures ok { OnOk result (IsSome (history_in graph.new id)) }
    ensures graph { IsGraphIn (S.state store.now) graph.new }
    ensures keeps { Extends graph.old graph.new }
    ensures causes { IfErr result (CommitCauses (S.state store.now) (λ one. one ≡ id)) }
{
    if graph.get(&id).is_some() {
        return Ok(());
    }
    let commit = read_commit(alloc, store, id)?;
    let entry = GraphCommit {
        parents: commit.parents,
        commit_time: commit.time,
        payload: (),
    };
    graph.insert(id, entry)?;
    Ok(())
}

/// Ids that were found, as a set and, in the order in which they were found, as a list.
#[derive(Drop)]
pub(crate) struct Found {
    pub(crate) set: ObjectIds,
    pub(crate) list: Vec<ObjectId>,
}

/// Reads the commit at an id that was not found before, and makes its parents pending.
fn visit<S: Objects>(
    alloc: Global,
    store: &S,
    graph: &mut Graph<()>,
    parents: Parents,
    shallow: &ObjectIds,
    found: &mut Found,
    pending: &mut Vec<ObjectId>,
    id: ObjectId,
) -> Result<(), WalkError>
    requires { IsGraphIn (S.state store.now) graph.old }
    ensures kept { OnOk result (Told (S.state store.now) (λ history. (ids : List ObjectId)
        → IsReaching history (followed history parents (has_id shallow.now)) ids
        found.old.set (pending.old.items ++ id ∷ [])
        → IsReaching history (followed history parents (has_id shallow.now)) ids found.new.set pending.new.items)) }
    ensures listed { OnOk result (AreListed found.old → AreListed found.new) }
    ensures read { OnOk result (AreRead graph.old found.old.set → AreRead graph.new found.new.set) }
    ensures smaller { OnOk result (Nears found.old.set pending.old.items found.new.set pending.new.items) }
    ensures graph { IsGraphIn (S.state store.now) graph.new }
    ensures keeps { Extends graph.old graph.new }
    ensures causes { IfErr result (CommitCauses (S.state store.now) (λ one. one ≡ id)) }
{
    if !found.set.insert(id)? {
        return Ok(());
    }
    // Ids that are found are fewer than 2^64, by which the search ends.
    let _found = found.set.len();
    found.list.push(id)?;
    load(alloc, store, graph, id)?;
    pending.extend_from_slice(followed_in(graph, parents, shallow, &id))?;
    Ok(())
}

/// All that some ids reach. Each commit of it is in the graph then; what was there before is not read again.
pub(crate) fn reached<S: Objects>(
    alloc: Global,
    store: &S,
    graph: &mut Graph<()>,
    parents: Parents,
    shallow: &ObjectIds,
    ids: &[ObjectId],
) -> Result<Found, WalkError>
    requires { IsGraphIn (S.state store.now) graph.old }
    ensures exact { IfOk result (λ found. Told (S.state store.now) (λ history. (id : ObjectId)
        → (has_id found.set id ≡ true) ↔ Reaches (followed history parents (has_id shallow.now)) ids.now id)) }
    ensures commits { IfOk result (λ found. Told (S.state store.now) (λ history. (id : ObjectId)
        → has_id found.set id ≡ true → IsSome (history id))) }
    ensures listed { IfOk result (λ found. AreListed found) }
    ensures read { IfOk result (λ found. AreRead graph.new found.set) }
    ensures graph { IsGraphIn (S.state store.now) graph.new }
    ensures keeps { Extends graph.old graph.new }
    ensures causes { IfErr result (CommitCauses (S.state store.now) (λ id. Told (S.state store.now)
        (λ history. Reaches (followed history parents (has_id shallow.now)) ids.now id))) }
{
    let mut found = Found {
        set: ObjectIds::new(alloc),
        list: Vec::new(alloc),
    };
    let mut pending = ids.to_vec(alloc)?;
    while let Some(id) = pending.pop() {
        visit(
            alloc,
            store,
            graph,
            parents,
            shallow,
            &mut found,
            &mut pending,
            id,
        )?;
    }
    Ok(found)
}
