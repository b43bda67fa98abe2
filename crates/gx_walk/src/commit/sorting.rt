ghost use Rattle.std.specs.Prelude.{◌≡◌, ◌↔◌, IsTrue};
ghost use Rattle.gx_walk.specs.Walk.{IsInTime};
ghost use Rattle.gx_walk.specs.Rank.{rank_of, rank_by_time, IsByTime};

use gx_object::Ids;
use std::alloc::Global;

/// Which commit comes first by time.
#[derive(Clone, Copy, Debug, PartialEq, Eq)]
pub enum CommitTimeOrder {
    NewestFirst,
    OldestFirst,
}

impl Default for CommitTimeOrder {
    fn default() -> CommitTimeOrder {
        CommitTimeOrder::NewestFirst
    }
}

/// The order of a walk.
#[derive(Clone, Copy, Debug, PartialEq, Eq)]
pub enum Sorting {
    /// The commit that was mentioned first comes first. A walk mentions its tips, and then the parents of each commit
    /// that it lists.
    BreadthFirst,
    /// By the committer's time. Of equal times, the commit that was mentioned first comes first.
    ByCommitTime(CommitTimeOrder),
    /// By time, without commits older than this time, in seconds since the Unix epoch.
    ByCommitTimeCutoff {
        order: CommitTimeOrder,
        seconds: i64,
    },
}

impl Default for Sorting {
    fn default() -> Sorting {
        Sorting::BreadthFirst
    }
}

/// Which parents of a commit a walk follows.
#[derive(Clone, Copy, Debug, PartialEq, Eq)]
pub enum Parents {
    All,
    /// The first alone.
    First,
}

impl Default for Parents {
    fn default() -> Parents {
        Parents::All
    }
}

/// The options of a walk.
#[derive(Debug, Drop)]
pub struct WalkOptions {
    pub sorting: Sorting,
    pub parents: Parents,
    /// Where the walk begins.
    pub tips: Ids,
    /// What these reach is not listed.
    pub hidden: Ids,
    /// These are not listed, and their parents are not followed.
    pub boundary: Ids,
    /// These count as commits without parents.
    pub shallow: Ids,
}

impl WalkOptions {
    ghost use Rattle.std.specs.Prelude.{◌≡◌};
    ghost use Rattle.gx_walk.specs.Simple.{plain_options};

    /// The options of a new walk from these tips.
    pub(crate) fn new(alloc: Global, tips: Ids) -> WalkOptions
        ensures { result ≡ plain_options tips }
    {
        WalkOptions {
            sorting: Sorting::BreadthFirst,
            parents: Parents::All,
            tips,
            hidden: Ids::new(alloc),
            boundary: Ids::new(alloc),
            shallow: Ids::new(alloc),
        }
    }
}

/// The rank of a commit of that time: the lower goes first.
pub(crate) fn rank(sorting: Sorting, time: i64) -> i64
    ensures { result ≡ rank_of sorting time }
{
    match sorting {
        Sorting::BreadthFirst => 0,
        Sorting::ByCommitTime(order) => rank_by_time(order, time),
        Sorting::ByCommitTimeCutoff { order, .. } => rank_by_time(order, time),
    }
}

fn rank_by_time(order: CommitTimeOrder, time: i64) -> i64
    ensures { result ≡ rank_by_time order time }
{
    match order {
        CommitTimeOrder::NewestFirst => -1 - time,
        CommitTimeOrder::OldestFirst => time,
    }
}

/// Whether a commit of that time is not older than the cutoff.
pub(crate) fn is_in_time(sorting: Sorting, time: i64) -> bool
    ensures { IsTrue result ↔ IsInTime sorting time }
{
    match sorting {
        Sorting::ByCommitTimeCutoff { seconds, .. } => seconds <= time,
        _ => true,
    }
}

/// Whether the order needs the times of commits.
pub(crate) fn is_by_time(sorting: Sorting) -> bool
    ensures { IsTrue result ↔ IsByTime sorting }
{
    !matches!(sorting, Sorting::BreadthFirst)
}
