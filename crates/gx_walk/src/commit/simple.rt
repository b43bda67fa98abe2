//! A walk over the commits that some tips reach.

ghost use Rattle.std.specs.Prelude.{◌≡◌};
ghost use Rattle.std.specs.Iterator.{at_most};

use crate::commit::course::{Course, advance};
use crate::{All, Filter, Info, Parents, Sorting, WalkError, WalkOptions};
use gx_hash::ObjectId;
use gx_object::Ids;
use gx_store::Objects;
use std::alloc::Global;
use std::marker::Model;

/// A walk. It gives each commit that its tips reach once, in the order of its sorting. Options are set before the first
/// item; setting one later begins the walk anew.
///
/// The walk keeps the ids that it has listed, and those that it has asked its filter about.
#[derive(Drop)]
pub struct Simple<'s, S: Objects, F: Filter> {
    alloc: Global,
    store: &'s S,
    filter: F,
    options: WalkOptions,
    course: Course,
    failed: bool,
}

impl<'s, S: Objects, F: Filter> Model for Simple<'s, S, F> {
    ghost use Rattle.std.specs.Prelude.{◌≡◌, false};
    ghost use Rattle.gx_walk.specs.Simple.{Walk, walk_code};
    ghost use Rattle.gx_walk.specs.History.{Told};
    ghost use Rattle.gx_walk.specs.Frontier.{IsAskedBy};
    ghost use Rattle.gx_walk.specs.Course.{IsAt};

    ghost Value = { Walk S F };

    ghost coded = { walk_code S.code F.code };

    ghost view = { λ s. record {
      store = s.store.now;
      filter = s.filter;
      options = s.options;
      listed = s.course.listed.items;
      asked = s.course.frontier.asked.items;
      failed = s.failed;
    } };

    ghost invariant = { λ s. F.can_admit s.filter × IsAskedBy s.course.frontier
        × (s.failed ≡ false → Told (S.state s.store.now) (λ history. IsAt history s.options s.course)) };
}

impl<'s, S: Objects> Simple<'s, S, All> {
    ghost use Rattle.std.specs.Prelude.{◌≡◌, []};
    ghost use Rattle.gx_walk.specs.Simple.{fresh, plain_options};

    /// The walk from these tips: breadth first, along all parents.
    pub fn new(alloc: Global, tips: Ids, store: &'s S) -> Simple<'s, S, All>
        ensures { result ≡ fresh store.now result.filter (plain_options tips) }
    {
        Simple::filtered(alloc, tips, store, All)
    }
}

impl<'s, S: Objects, F: Filter> Simple<'s, S, F> {
    ghost use Rattle.std.specs.Prelude.{◌≡◌, []};
    ghost use Rattle.gx_walk.specs.Simple.{fresh, plain_options};

    /// The walk from these tips over what the filter admits.
    pub fn filtered(alloc: Global, tips: Ids, store: &'s S, filter: F) -> Simple<'s, S, F>
        requires { F.can_admit filter }
        ensures { result ≡ fresh store.now filter (plain_options tips) }
    {
        Simple::fresh(alloc, store, filter, WalkOptions::new(alloc, tips))
    }

    /// The same walk in another order.
    pub fn sorting(self, sorting: Sorting) -> Simple<'s, S, F>
        ensures { result ≡ fresh self.entry.store self.entry.filter (record self.entry.options { sorting = sorting }) }
    {
        let (alloc, store, filter, options) = self.into_parts();
        Simple::fresh(alloc, store, filter, WalkOptions { sorting, ..options })
    }

    /// The same walk along these parents.
    pub fn parents(self, parents: Parents) -> Simple<'s, S, F>
        ensures { result ≡ fresh self.entry.store self.entry.filter (record self.entry.options { parents = parents }) }
    {
        let (alloc, store, filter, options) = self.into_parts();
        Simple::fresh(alloc, store, filter, WalkOptions { parents, ..options })
    }

    /// The same walk without what these ids reach, in place of those that were hidden before.
    pub fn hide(self, hidden: Ids) -> Simple<'s, S, F>
        ensures { result ≡ fresh self.entry.store self.entry.filter (record self.entry.options { hidden = hidden }) }
    {
        let (alloc, store, filter, options) = self.into_parts();
        Simple::fresh(alloc, store, filter, WalkOptions { hidden, ..options })
    }

    /// The same walk, which neither lists these ids nor follows their parents. Another boundary is replaced.
    pub fn boundary(self, boundary: Ids) -> Simple<'s, S, F>
        ensures { result ≡ fresh self.entry.store self.entry.filter
            (record self.entry.options { boundary = boundary }) }
    {
        let (alloc, store, filter, options) = self.into_parts();
        Simple::fresh(
            alloc,
            store,
            filter,
            WalkOptions {
                boundary,
                ..options
            },
        )
    }

    /// The same walk in a history in which these commits, and no others, lack the parents that they were made with.
    pub fn shallow(self, shallow: Ids) -> Simple<'s, S, F>
        ensures { result ≡ fresh self.entry.store self.entry.filter (record self.entry.options { shallow = shallow }) }
    {
        let (alloc, store, filter, options) = self.into_parts();
        Simple::fresh(alloc, store, filter, WalkOptions { shallow, ..options })
    }

    /// A walk that has not begun.
    fn fresh(alloc: Global, store: &'s S, filter: F, options: WalkOptions) -> Simple<'s, S, F>
        requires { F.can_admit filter }
        ensures { result ≡ fresh store.now filter options }
    {
        Simple {
            alloc,
            store,
            filter,
            options,
            course: Course::new(alloc),
            failed: false,
        }
    }

    /// The parts of a walk, without its progress.
    fn into_parts(self) -> (Global, &'s S, F, WalkOptions)
        ensures store { result.1.now ≡ self.entry.store }
        ensures filter { result.2 ≡ self.entry.filter }
        ensures ready { F.can_admit result.2 }
        ensures options { result.3 ≡ self.entry.options }
    {
        let Simple {
            alloc,
            store,
            filter,
            options,
            course: _course,
            failed: _failed,
        } = self;
        (alloc, store, filter, options)
    }

    /// The ids that were listed so far, in order.
    pub fn listed(&self) -> &[ObjectId]
        ensures { result.now ≡ self.now.listed }
    {
        &self.course.listed
    }

    /// The ids that the filter was asked about so far, in order, with its answers.
    pub fn asked(&self) -> &[(ObjectId, bool)]
        ensures { result.now ≡ self.now.asked }
    {
        &self.course.frontier.asked
    }
}

impl<'s, S: Objects, F: Filter> Iterator for Simple<'s, S, F> {
    ghost use Rattle.std.specs.Iterator.{at_most};
    ghost use Rattle.gx_walk.specs.Simple.{Gives, items_left};

    type Item = Result<Info, WalkError>;

    ghost next_gives = { Gives S.state F.admit_gives };

    ghost remaining = { λ s. at_most (items_left s) };

    fn next(&mut self) -> Option<Result<Info, WalkError>> {
        if self.failed {
            return None;
        }
        match advance(
            self.alloc,
            self.store,
            &self.options,
            &mut self.filter,
            &mut self.course,
        ) {
            Ok(Some(info)) => Some(Ok(info)),
            Ok(None) => None,
            Err(error) => {
                self.failed = true;
                Some(Err(error))
            }
        }
    }
}
