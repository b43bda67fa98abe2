//! Filters, which choose the commits that a walk lists.

ghost use Rattle.std.specs.Prelude.{◌≡◌, Bool};
ghost use Rattle.gx_hash.specs.declared.oid.ObjectId.{ObjectId};

use gx_hash::ObjectId;

/// A filter of commits. A walk asks it at most once about each id, and does not follow the parents of an id that it
/// refuses.
pub trait Filter: Drop {
    /// The filter can be asked.
    ghost can_admit: { Self → Type 0 };

    /// Asked about the id, it may give this answer and become this filter.
    ghost admit_gives: { Self → ObjectId → Bool → Self → Type 0 };

    /// Whether the id may be listed.
    fn admit(&mut self, id: &ObjectId) -> bool
        requires { can_admit self.old }
        ensures gives { admit_gives self.old id.now result self.new }
        ensures ready { can_admit self.new };
}

/// Admits every id.
#[derive(Clone, Copy, Debug, Drop)]
pub struct All;

impl Filter for All {
    ghost use Rattle.std.specs.Prelude.{◌≡◌, true};

    ghost can_admit = { λ _. Unit {0} };

    ghost admit_gives = { λ _ _ answer _. answer ≡ true };

    fn admit(&mut self, _id: &ObjectId) -> bool {
        true
    }
}

/// Admits the ids for which a closure answers `true`. Its answers are those that the closure's contract allows.
#[derive(Drop)]
pub struct Stored<F> {
    admits: F,
}

impl<F: FnMut(&ObjectId) -> bool> Stored<F> {
    pub fn new(admits: F) -> Stored<F>
        requires { F.IsAlwaysCallable admits }
        ensures closure { result.admits ≡ admits }
        ensures ready { F.IsAlwaysCallable result.admits }
    {
        Stored { admits }
    }
}

impl<F: FnMut(&ObjectId) -> bool> Filter for Stored<F> {
    ghost use Rattle.std.specs.Fn.{CalledAt};

    ghost can_admit = { λ filter. F.IsAlwaysCallable filter.admits };

    ghost admit_gives = { λ filter id answer after. CalledAt F.FnMut filter.admits id answer after.admits };

    fn admit(&mut self, id: &ObjectId) -> bool {
        (self.admits)(id)
    }
}
