//! The steps of a walk.

ghost use Rattle.std.specs.Prelude.{◌≡◌, true, false, ◌++◌, IfOk, IfErr, OnOk, OnErr, IfSome, IfNone};
ghost use Rattle.gx_hash.specs.declared.oid.ObjectId.{ObjectId};
ghost use Rattle.gx_hash.specs.ObjectIds.{has_id};
ghost use Rattle.gx_walk.specs.Causes.{CommitCauses};
ghost use Rattle.gx_walk.specs.History.{Told};
ghost use Rattle.gx_walk.specs.Simple.{Asks, IsHidden, IsNamed, IsNextInfo, IsWhole, time_told};
ghost use Rattle.gx_walk.specs.Frontier.{IsAskedBy};
ghost use Rattle.gx_walk.specs.Course.{found_id, IfAt, IfUnderWay, IsAt, IsFresh, IsUnderWay};

use crate::commit::frontier::{Frontier, Sets, mention_all};
use crate::commit::reach::{follow, reached};
use crate::commit::read::read_commit;
use crate::{Filter, Graph, Info, Sorting, WalkError, WalkOptions};
use gx_hash::{NoMemory, ObjectId, ObjectIds};
use gx_object::Ids;
use gx_store::Objects;
use std::alloc::Global;
use std::mem;

/// How far a walk has come.
#[derive(Drop)]
pub(crate) struct Course {
    pub(crate) begun: bool,
    pub(crate) sets: Sets,
    pub(crate) frontier: Frontier,
    /// What the next step mentions. It waits, so that no error comes before the item of this step.
    pub(crate) pending: Ids,
    pub(crate) listed: Vec<ObjectId>,
}

impl Course {
    pub(crate) fn new(alloc: Global) -> Course
        ensures fresh { IsFresh result }
        ensures begun { result.begun ≡ false }
    {
        Course {
            begun: false,
            sets: Sets::new(alloc),
            frontier: Frontier::new(alloc),
            pending: Ids::new(alloc),
            listed: Vec::new(alloc),
        }
    }
}

/// The set of these ids.
pub(crate) fn set_of(alloc: Global, ids: &[ObjectId]) -> Result<ObjectIds, NoMemory>
    ensures { IfOk result (λ set. (one : ObjectId) → has_id set one ≡ has_id ids.now one) }
{
    let mut set = ObjectIds::new(alloc);
    for id in ids {
        set.insert(*id)?;
    }
    Ok(set)
}

/// Begins a walk, unless it has begun: makes its sets, and finds what the hidden ids reach.
fn begin<S: Objects>(
    alloc: Global,
    store: &S,
    options: &WalkOptions,
    course: &mut Course,
) -> Result<(), WalkError>
    ensures begun { OnOk result (IfAt (S.state store.now) options.now course.old
        (λ history. IsUnderWay history options.now course.new)) }
    ensures flag { OnOk result (course.new.begun ≡ true) }
    ensures frontier { course.new.frontier ≡ course.old.frontier }
    ensures listed { course.new.listed.items ≡ course.old.listed.items }
    ensures causes { IfErr result (CommitCauses (S.state store.now) (λ id. Told (S.state store.now)
        (λ history. IsHidden history options.now id))) }
{
    if course.begun {
        return Ok(());
    }
    course.sets.shallow = set_of(alloc, options.shallow.as_slice())?;
    course.sets.boundary = set_of(alloc, options.boundary.as_slice())?;
    let mut graph = Graph::new(alloc);
    let hidden = reached(
        alloc,
        store,
        &mut graph,
        options.parents,
        &course.sets.shallow,
        options.hidden.as_slice(),
    )?;
    course.sets.hidden = hidden.set;
    course.pending = options.tips.try_clone()?;
    course.begun = true;
    Ok(())
}

/// The time in an item.
fn told_time(sorting: Sorting, time: i64) -> Option<i64>
    ensures { result ≡ time_told sorting time }
{
    match sorting {
        Sorting::BreadthFirst => None,
        _ => Some(time),
    }
}

/// Lists the next commit of a walk that has begun, or finds that none is left.
fn step<S: Objects, F: Filter>(
    alloc: Global,
    store: &S,
    options: &WalkOptions,
    filter: &mut F,
    course: &mut Course,
) -> Result<Option<Info>, WalkError>
    requires ready { F.can_admit filter.old }
    requires asked { IsAskedBy course.old.frontier }
    ensures ready { F.can_admit filter.new }
    ensures asks { Asks F.admit_gives course.old.frontier.asked.items course.new.frontier.asked.items
        filter.old filter.new }
    ensures asked { IsAskedBy course.new.frontier }
    ensures kept { OnOk result (IfUnderWay (S.state store.now) options.now course.old
        (λ history. IsUnderWay history options.now course.new)) }
    ensures next { IfOk result (λ found. IfSome found (λ info. IfUnderWay (S.state store.now) options.now course.old
        (λ history. IsNextInfo history options.now course.new.frontier.asked.items course.old.listed.items info))) }
    ensures end { IfOk result (λ found. IfNone found (IfUnderWay (S.state store.now) options.now course.old
        (λ history. IsWhole history options.now course.new.frontier.asked.items course.old.listed.items))) }
    ensures listed { IfOk result (λ found. course.new.listed.items ≡ course.old.listed.items ++ found_id found) }
    ensures unlisted { OnErr result (course.new.listed.items ≡ course.old.listed.items) }
    ensures flag { course.new.begun ≡ course.old.begun }
    ensures causes { IfErr result (CommitCauses (S.state store.now) (λ id.
        IfUnderWay (S.state store.now) options.now course.old
        (λ history. IsNamed history options.now course.new.frontier.asked.items course.old.listed.items id))) }
{
    let waiting = mem::replace(&mut course.pending, Ids::new(alloc));
    mention_all(
        alloc,
        store,
        options.sorting,
        &course.sets,
        filter,
        &mut course.frontier,
        waiting.as_slice(),
    )?;
    let Some(id) = course.frontier.take_first() else {
        return Ok(None);
    };
    let commit = read_commit(alloc, store, id)?;
    let parent_ids = follow(
        alloc,
        options.parents,
        &course.sets.shallow,
        &id,
        commit.parents,
    );
    let pending = parent_ids.try_clone()?;
    course.listed.push(id)?;
    course.pending = pending;
    Ok(Some(Info {
        id,
        parent_ids,
        commit_time: told_time(options.sorting, commit.time),
    }))
}

/// Lists the next commit of a walk, or finds that none is left.
pub(crate) fn advance<S: Objects, F: Filter>(
    alloc: Global,
    store: &S,
    options: &WalkOptions,
    filter: &mut F,
    course: &mut Course,
) -> Result<Option<Info>, WalkError>
    requires ready { F.can_admit filter.old }
    requires asked { IsAskedBy course.old.frontier }
    ensures ready { F.can_admit filter.new }
    ensures asks { Asks F.admit_gives course.old.frontier.asked.items course.new.frontier.asked.items
        filter.old filter.new }
    ensures asked { IsAskedBy course.new.frontier }
    ensures kept { OnOk result (IfAt (S.state store.now) options.now course.old
        (λ history. IsAt history options.now course.new)) }
    ensures next { IfOk result (λ found. IfSome found (λ info. IfAt (S.state store.now) options.now course.old
        (λ history. IsNextInfo history options.now course.new.frontier.asked.items course.old.listed.items info))) }
    ensures end { IfOk result (λ found. IfNone found (IfAt (S.state store.now) options.now course.old
        (λ history. IsWhole history options.now course.new.frontier.asked.items course.old.listed.items))) }
    ensures listed { IfOk result (λ found. course.new.listed.items ≡ course.old.listed.items ++ found_id found) }
    ensures unlisted { OnErr result (course.new.listed.items ≡ course.old.listed.items) }
    ensures causes { IfErr result (CommitCauses (S.state store.now) (λ id.
        IfAt (S.state store.now) options.now course.old
        (λ history. IsNamed history options.now course.new.frontier.asked.items course.old.listed.items id))) }
{
    begin(alloc, store, options, course)?;
    step(alloc, store, options, filter, course)
}
