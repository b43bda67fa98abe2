//! What a walk has mentioned and not listed yet.

ghost use Rattle.std.specs.Prelude.{◌≡◌, ◌+◌, ◌||◌, [], ◌∷◌, IfOk, IfErr, OnOk, OnErr, IfSome, IfNone};
ghost use Rattle.gx_walk.specs.Causes.{CommitCauses};
ghost use Rattle.gx_walk.specs.History.{Told, time_of};
ghost use Rattle.gx_walk.specs.Rank.{rank_of};
ghost use Rattle.gx_walk.specs.Walk.{IsInTime};
ghost use Rattle.gx_walk.specs.Simple.{Asks};
ghost use Rattle.gx_walk.specs.Frontier.{is_excluded, Enqueues, IsAdmittedOf, IsAnswered, IsAskedBy, IsEmpty, IsKept, IsReadFor, Mentions, TakesBest, TakesNone};

use crate::commit::read::read_commit;
use crate::commit::sorting::{is_in_time, rank};
use crate::{Filter, Sorting, WalkError};
use gx_hash::{NoMemory, ObjectId, ObjectIds};
use gx_store::Objects;
use std::alloc::Global;
use std::collections::BTreeMap;

/// The sets that a walk looks ids up in.
#[derive(Drop)]
pub(crate) struct Sets {
    pub(crate) shallow: ObjectIds,
    pub(crate) boundary: ObjectIds,
    /// All that the hidden ids reach.
    pub(crate) hidden: ObjectIds,
}

impl Sets {
    pub(crate) fn new(alloc: Global) -> Sets {
        Sets {
            shallow: ObjectIds::new(alloc),
            boundary: ObjectIds::new(alloc),
            hidden: ObjectIds::new(alloc),
        }
    }

    /// Whether the id is never listed.
    fn exclude(&self, id: &ObjectId) -> bool
        ensures { result ≡ is_excluded self.now id.now }
    {
        self.boundary.contains(id) || self.hidden.contains(id)
    }
}

/// The ids mentioned and not listed yet, by rank and then by the place of their first mention.
#[derive(Drop)]
pub(crate) struct Frontier {
    pub(crate) queue: BTreeMap<(i64, u64), ObjectId>,
    /// What was mentioned and not excluded: the filter was asked about it.
    pub(crate) seen: ObjectIds,
    /// The ids that the filter was asked about, in order, with its answers.
    pub(crate) asked: Vec<(ObjectId, bool)>,
    /// How many mentions there were.
    pub(crate) count: u64,
}

impl Frontier {
    pub(crate) fn new(alloc: Global) -> Frontier
        ensures { IsEmpty result }
    {
        Frontier {
            queue: BTreeMap::new(alloc),
            seen: ObjectIds::new(alloc),
            asked: Vec::new(alloc),
            count: 0,
        }
    }

    /// Counts one more mention, and answers its place.
    fn next_place(&mut self) -> Result<u64, NoMemory>
        ensures place { IfOk result (λ place. place ≡ self.old.count) }
        ensures ok { OnOk result (self.new ≡ record self.old { count = self.old.count + 1 }) }
        ensures err { OnErr result (self.new ≡ self.old) }
    {
        let place = self.count;
        let Some(count) = place.checked_add(1) else {
            return Err(NoMemory);
        };
        self.count = count;
        Ok(place)
    }

    /// Takes the best of the mentions.
    pub(crate) fn take_first(&mut self) -> Option<ObjectId>
        ensures best { IfSome result (TakesBest self.old self.new) }
        ensures none { IfNone result (TakesNone self.old self.new) }
        ensures asked { self.new.asked.items ≡ self.old.asked.items }
        ensures seen { self.new.seen ≡ self.old.seen }
    {
        let Some((_, id)) = self.queue.pop_first() else {
            return None;
        };
        Some(id)
    }
}

/// The rank of a commit, if it is not older than the cutoff. Breadth first, nothing is read.
fn rank_in_time<S: Objects>(
    alloc: Global,
    store: &S,
    sorting: Sorting,
    id: ObjectId,
) -> Result<Option<i64>, WalkError>
    ensures rank { IfOk result (λ found. IfSome found (λ rank. Told (S.state store.now) (λ history.
        (rank ≡ rank_of sorting (time_of history id)) × IsInTime sorting (time_of history id)))) }
    ensures older { IfOk result (λ found. IfNone found (Told (S.state store.now) (λ history.
        ¬ IsInTime sorting (time_of history id)))) }
    ensures read { OnOk result (Told (S.state store.now) (λ history. IsReadFor sorting history id)) }
    ensures causes { IfErr result (CommitCauses (S.state store.now) (λ one. one ≡ id)) }
{
    if let Sorting::BreadthFirst = sorting {
        return Ok(Some(0));
    }
    let commit = read_commit(alloc, store, id)?;
    if !is_in_time(sorting, commit.time) {
        return Ok(None);
    }
    Ok(Some(rank(sorting, commit.time)))
}

/// Asks the filter about an id, if it was not asked before. Answers whether the id is new and admitted.
fn ask<F: Filter>(filter: &mut F, frontier: &mut Frontier, id: ObjectId) -> Result<bool, NoMemory>
    requires ready { F.can_admit filter.old }
    requires asked { IsAskedBy frontier.old }
    ensures ready { F.can_admit filter.new }
    ensures asks { Asks F.admit_gives frontier.old.asked.items frontier.new.asked.items filter.old filter.new }
    ensures asked { IsAskedBy frontier.new }
    ensures answered { IfOk result (IsAnswered frontier.old frontier.new id) }
{
    if !frontier.seen.insert(id)? {
        return Ok(false);
    }
    frontier.asked.reserve(1)?;
    let answer = filter.admit(&id);
    frontier.asked.push_reserved((id, answer));
    Ok(answer)
}

/// Queues an id for its place, unless its commit is older than the cutoff.
fn enqueue<S: Objects>(
    alloc: Global,
    store: &S,
    sorting: Sorting,
    frontier: &mut Frontier,
    place: u64,
    id: ObjectId,
) -> Result<(), WalkError>
    ensures queued { OnOk result (Told (S.state store.now) (λ history.
        Enqueues history sorting place id frontier.old frontier.new)) }
    ensures kept { IsKept frontier.old frontier.new }
    ensures causes { IfErr result (CommitCauses (S.state store.now) (λ one. one ≡ id)) }
{
    let Some(rank) = rank_in_time(alloc, store, sorting, id)? else {
        return Ok(());
    };
    frontier.queue.insert((rank, place), id)?;
    Ok(())
}

/// Mentions an id.
fn mention<S: Objects, F: Filter>(
    alloc: Global,
    store: &S,
    sorting: Sorting,
    sets: &Sets,
    filter: &mut F,
    frontier: &mut Frontier,
    id: ObjectId,
) -> Result<(), WalkError>
    requires ready { F.can_admit filter.old }
    requires asked { IsAskedBy frontier.old }
    ensures ready { F.can_admit filter.new }
    ensures asks { Asks F.admit_gives frontier.old.asked.items frontier.new.asked.items filter.old filter.new }
    ensures asked { IsAskedBy frontier.new }
    ensures kept { OnOk result (Told (S.state store.now) (λ history.
        Mentions history sorting (is_excluded sets.now) (id ∷ []) frontier.old frontier.new)) }
    ensures causes { IfErr result (CommitCauses (S.state store.now)
        (IsAdmittedOf sets.now frontier.new.asked.items (id ∷ []))) }
{
    let place = frontier.next_place()?;
    if sets.exclude(&id) {
        return Ok(());
    }
    if !ask(filter, frontier, id)? {
        return Ok(());
    }
    enqueue(alloc, store, sorting, frontier, place, id)?;
    Ok(())
}

/// Mentions ids, in their order.
pub(crate) fn mention_all<S: Objects, F: Filter>(
    alloc: Global,
    store: &S,
    sorting: Sorting,
    sets: &Sets,
    filter: &mut F,
    frontier: &mut Frontier,
    ids: &[ObjectId],
) -> Result<(), WalkError>
    requires ready { F.can_admit filter.old }
    requires asked { IsAskedBy frontier.old }
    ensures ready { F.can_admit filter.new }
    ensures asks { Asks F.admit_gives frontier.old.asked.items frontier.new.asked.items filter.old filter.new }
    ensures asked { IsAskedBy frontier.new }
    ensures kept { OnOk result (Told (S.state store.now) (λ history.
        Mentions history sorting (is_excluded sets.now) ids.now frontier.old frontier.new)) }
    ensures causes { IfErr result (CommitCauses (S.state store.now)
        (IsAdmittedOf sets.now frontier.new.asked.items ids.now)) }
{
    for id in ids {
        mention(alloc, store, sorting, sets, filter, frontier, *id)?;
    }
    Ok(())
}
