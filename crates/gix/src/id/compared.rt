//! Ids that know their repository are compared by the ids alone.

ghost use Rattle.std.specs.Cmp.{on_equiv, on_per, on_po, on_total};

use crate::Id;
use gx_hash::ObjectId;
use std::cmp::Ordering;
use std::hash::{Hash, Hasher};

impl<'repo, S> PartialEq for Id<'repo, S> {
    ghost use Rattle.std.specs.Cmp.{partial_equiv_from_equiv};
    ghost use Rattle.gx_hash.specs.ObjectIds.{id_eq};
    ghost use Rattle.gix.specs.IdEquality.{id_equivalence};

    ghost eq = { λ a b. id_eq a.inner b.inner };

    ghost laws = { on_per (λ id. id.inner) (partial_equiv_from_equiv id_equivalence) };

    fn eq(&self, other: &Id<'repo, S>) -> bool {
        self.inner == other.inner
    }
}

impl<'repo, S> Eq for Id<'repo, S> {
    ghost use Rattle.gix.specs.IdEquality.{id_equivalence};

    ghost laws = { on_equiv (λ id. id.inner) id_equivalence };
}

impl<'repo, S> Ord for Id<'repo, S> {
    ghost use Rattle.gx_hash.specs.ObjectId.{id_cmp};
    ghost use Rattle.std.proofs.Common.{refl};
    ghost use Rattle.gx_hash.specs.Laws.{id_cmp_total, id_eq-id_cmp};

    ghost cmp = { λ a b. id_cmp a.inner b.inner };

    ghost total = { on_total (λ id. id.inner) id_cmp_total };

    ghost matches_partial_cmp = { λ a b. refl };

    ghost matches_eq = { λ a b. id_eq-id_cmp a.inner b.inner };

    fn cmp(&self, other: &Id<'repo, S>) -> Ordering {
        self.inner.cmp(&other.inner)
    }
}

impl<'repo, S> PartialOrd for Id<'repo, S> {
    ghost use Rattle.std.specs.Ordering.{as_partial_cmp};
    ghost use Rattle.gx_hash.specs.ObjectId.{id_cmp};
    ghost use Rattle.gix.specs.IdEquality.{id_partial_order};

    ghost partial_cmp = { λ a b. as_partial_cmp id_cmp a.inner b.inner };

    ghost laws = { on_po (λ id. id.inner) id_partial_order };

    fn partial_cmp(&self, other: &Id<'repo, S>) -> Option<Ordering> {
        Some(self.cmp(other))
    }
}

impl<'repo, S> Hash for Id<'repo, S> {
    ghost use Rattle.gix.specs.IdEquality.{hash_respects};

    ghost hash_input = { λ id. ⟦<ObjectId as Hash>⟧.hash_input id.inner };

    ghost respects_eq = { λ a b. hash_respects a.inner b.inner };

    fn hash<H: Hasher>(&self, state: &mut H) {
        self.inner.hash(state);
    }
}
