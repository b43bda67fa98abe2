//! Commits that were read before.

ghost use Rattle.std.specs.Prelude.{◌≡◌, ◌↔◌, ◌+◌, if◌then◌else◌, IsTrue, IfOk, OnOk, OnErr};
ghost use Rattle.std.specs.Option.{is_some, option_copied};

use gx_hash::{NoMemory, ObjectId};
use gx_object::Ids;
use std::alloc::Global;
use std::collections::BTreeMap;

/// A commit of a graph, with a value of the caller.
#[derive(Debug, Drop)]
pub struct GraphCommit<T> {
    pub parents: Ids,
    /// In seconds since the Unix epoch.
    pub commit_time: i64,
    pub payload: T,
}

/// Commits by id.
#[derive(Drop)]
pub struct Graph<T> {
    commits: BTreeMap<ObjectId, GraphCommit<T>>,
}

impl<T> Graph<T> {
    ghost use Rattle.gx_hash.specs.declared.oid.ObjectId.{ObjectId};
    ghost use Rattle.gx_store.specs.State.{StoreState};
    ghost use Rattle.gx_walk.specs.Graph.{commit_in, graph_len, IsEmpty, IsGraphIn, Puts};

    pub fn new(alloc: Global) -> Graph<T>
        ensures empty { IsEmpty result }
        ensures known { (state : StoreState) → IsGraphIn state result }
    {
        Graph {
            commits: BTreeMap::new(alloc),
        }
    }

    pub fn get(&self, id: &ObjectId) -> Option<&GraphCommit<T>>
        ensures { option_copied result ≡ commit_in self.now id.now }
    {
        self.commits.get(id)
    }

    /// Adds a commit, and answers the commit that it replaces.
    pub fn insert(
        &mut self,
        id: ObjectId,
        commit: GraphCommit<T>,
    ) -> Result<Option<GraphCommit<T>>, NoMemory>
    where
        T: Drop,
        ensures replaced { IfOk result (λ replaced. replaced ≡ commit_in self.old id) }
        ensures ok { OnOk result (Puts self.old self.new id commit) }
        ensures len { IfOk result (λ replaced.
            graph_len self.new ≡ graph_len self.old + (if is_some replaced then 0 else 1)) }
        ensures leaves { OnErr result ((one : ObjectId) → commit_in self.new one ≡ commit_in self.old one) }
    {
        Ok(self.commits.insert(id, commit)?)
    }

    /// How many commits there are.
    pub fn len(&self) -> usize
        ensures { result ≡ graph_len self.now }
    {
        self.commits.len()
    }

    pub fn is_empty(&self) -> bool
        ensures { IsTrue result ↔ IsEmpty self.now }
    {
        self.commits.is_empty()
    }

    pub fn clear(&mut self)
    where
        T: Drop,
        ensures empty { IsEmpty self.new }
        ensures known { (state : StoreState) → IsGraphIn state self.new }
    {
        self.commits.clear()
    }
}
