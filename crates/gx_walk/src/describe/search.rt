//! The candidates for the nearest name, and how near they are.

ghost use Rattle.std.specs.Prelude.{◌≡◌, true, List, [], ◌∷◌, ◌++◌, filter, IfOk, IfErr, OnOk};
ghost use Rattle.gx_hash.specs.declared.oid.ObjectId.{ObjectId};
ghost use Rattle.gx_walk.specs.Causes.{CommitCauses};
ghost use Rattle.gx_walk.specs.Describe.{AreCandidates, is_named};
ghost use Rattle.gx_walk.specs.History.{Told, time_of};
ghost use Rattle.gx_hash.specs.ObjectIds.{has_id};
ghost use Rattle.gx_walk.specs.Search.{search_options, follow, IfReached, IsFound, IsMeasured, IsNearestOf, IsReached};
ghost use Rattle.gx_walk.specs.Simple.{fresh};

use crate::describe::NameMap;
use crate::{All, CommitTimeOrder, Parents, Simple, Sorting, WalkError};
use gx_hash::{NoMemory, ObjectId, ObjectIds};
use gx_object::Ids;
use gx_store::Objects;
use std::alloc::Global;

/// Where a search begins, and which parents it follows.
#[derive(Drop)]
pub(crate) struct Search {
    pub(crate) id: ObjectId,
    pub(crate) parents: Parents,
    /// These count as commits without parents.
    pub(crate) shallow: Ids,
}

/// The nearest candidate so far.
#[derive(Drop)]
pub(crate) struct Nearest {
    pub(crate) id: ObjectId,
    pub(crate) depth: u64,
    /// The commits that the described one reaches and this one does not.
    pub(crate) beyond: ObjectIds,
}

impl Search {
    /// The first named commits of the walk from the id, newest first, at most so many.
    pub(crate) fn candidates<S: Objects>(
        &self,
        alloc: Global,
        store: &S,
        names: &NameMap,
        most: usize,
    ) -> Result<Vec<ObjectId>, WalkError>
        ensures ok { IfOk result (λ found. Told (S.state store.now) (λ history.
            AreCandidates (follow history self.now) (time_of history) self.now.id names.now most found.items)) }
        ensures reached { IfOk result (λ found. Told (S.state store.now) (λ history. (x : ObjectId)
            → has_id found.items x ≡ true → IsReached history self.now x)) }
        ensures causes { IfErr result (CommitCauses (S.state store.now) (λ one. Told (S.state store.now) (λ history.
            IsReached history self.now one))) }
    {
        let newest = Sorting::ByCommitTime(CommitTimeOrder::NewestFirst);
        let mut walk = self.walk(alloc, store)?.sorting(newest);
        let mut candidates = Vec::new(alloc);
        while candidates.len() < most {
            let Some(item) = walk.next() else {
                return Ok(candidates);
            };
            push_named(names, &mut candidates, item?.id)?;
        }
        Ok(candidates)
    }

    /// The nearest of the candidates. One that a nearer one reaches is not measured, since it is no nearer.
    pub(crate) fn nearest<S: Objects>(
        &self,
        alloc: Global,
        store: &S,
        candidates: &[ObjectId],
    ) -> Result<Option<Nearest>, WalkError>
        ensures ok { IfOk result (λ found. IfReached (S.state store.now) self.now candidates.now (λ history.
            IsFound history self.now candidates.now found)) }
        ensures causes { IfErr result (CommitCauses (S.state store.now) (λ one.
            IfReached (S.state store.now) self.now candidates.now (λ history. IsReached history self.now one))) }
    {
        let Some((first, others)) = candidates.split_first() else {
            return Ok(None);
        };
        let mut nearest = self.measure(alloc, store, *first)?;
        for other in others {
            nearest = self.nearer(alloc, store, nearest, *other)?;
        }
        Ok(Some(nearest))
    }

    /// The nearer of the nearest candidate so far and the next one; the former, if both are as near.
    fn nearer<S: Objects>(
        &self,
        alloc: Global,
        store: &S,
        nearest: Nearest,
        other: ObjectId,
    ) -> Result<Nearest, WalkError>
        ensures ok { IfOk result (λ found. IfReached (S.state store.now) self.now (other ∷ []) (λ history.
            (before : List ObjectId) → IsNearestOf history self.now before nearest
            → IsNearestOf history self.now (before ++ other ∷ []) found)) }
        ensures causes { IfErr result (CommitCauses (S.state store.now) (λ one.
            IfReached (S.state store.now) self.now (other ∷ []) (λ history. IsReached history self.now one))) }
    {
        if !nearest.beyond.contains(&other) {
            return Ok(nearest);
        }
        let next = self.measure(alloc, store, other)?;
        if next.depth < nearest.depth {
            return Ok(next);
        }
        Ok(nearest)
    }

    /// How near a candidate is.
    fn measure<S: Objects>(
        &self,
        alloc: Global,
        store: &S,
        candidate: ObjectId,
    ) -> Result<Nearest, WalkError>
        ensures id { IfOk result (λ nearest. nearest.id ≡ candidate) }
        ensures ok { IfOk result (λ nearest. Told (S.state store.now) (λ history.
            IsMeasured history self.now nearest)) }
        ensures causes { IfErr result (CommitCauses (S.state store.now) (λ one.
            IfReached (S.state store.now) self.now (candidate ∷ []) (λ history. IsReached history self.now one))) }
    {
        let mut walk = self.walk(alloc, store)?.hide(only(alloc, candidate)?);
        let mut beyond = ObjectIds::new(alloc);
        while let Some(item) = walk.next() {
            beyond.insert(item?.id)?;
        }
        Ok(Nearest {
            id: candidate,
            depth: walk.listed().len() as u64,
            beyond,
        })
    }

    /// The walk from the id, breadth first.
    fn walk<'s, S: Objects>(
        &self,
        alloc: Global,
        store: &'s S,
    ) -> Result<Simple<'s, S, All>, NoMemory>
        ensures { IfOk result (λ walk. walk ≡ fresh store.now walk.filter (search_options self.now)) }
    {
        let walk = Simple::new(alloc, only(alloc, self.id)?, store)
            .parents(self.parents)
            .shallow(self.shallow.try_clone()?);
        Ok(walk)
    }
}

/// This id alone.
fn only(alloc: Global, id: ObjectId) -> Result<Ids, NoMemory>
    ensures { IfOk result (λ ids. ids ≡ id ∷ []) }
{
    let mut ids = Vec::new(alloc);
    ids.push(id)?;
    Ok(Ids::from_vec(ids))
}

/// Adds an id that has a name.
fn push_named(names: &NameMap, candidates: &mut Vec<ObjectId>, id: ObjectId) -> Result<(), NoMemory>
    ensures { OnOk result (candidates.new.items ≡ candidates.old.items ++ filter (is_named names.now) (id ∷ [])) }
{
    if names.get(&id).is_some() {
        candidates.push(id)?;
    }
    Ok(())
}
