//! No two edits share a name: each name is looked up once, in a set of those that edits touch.
ghost use Rattle.std.specs.Prelude.{◌≡◌, ◌++◌, ◌∷◌, [], ℕ, List, true, Contains, IfErr, OnOk};
ghost use Rattle.std.specs.List.{flat_map};
ghost use Rattle.gx_refs.specs.Chain.{is_among, AreDistinct};
ghost use Rattle.gx_refs.specs.Plan.{stored_names, touched, touched_names, ShareNone};
ghost use Rattle.gx_refs.specs.Seen.{HasSeen, AreNew, passed_names, passed, IsTwice, TwiceAmong, HaveDistinctWays, SharedCauses};

use crate::changes::touched_before;
use crate::plan::{Place, Plan};
use crate::{Change, RefError};
use gx_rules::FullName;
use std::alloc::Global;
use std::collections::BTreeSet;

/// Adds a touched name, if it is new.
#[tactic(auto, using(crate::proofs::SeenLemmas::seen_twice))]
fn see(seen: &mut BTreeSet<FullName>, place: &Place) -> Result<(), RefError>
    ensures ok { (names : List (List ℕ)) → HasSeen seen.old names
        → OnOk result (HasSeen seen.new (names ++ place.now.name ∷ [])) }
    ensures causes { (names : List (List ℕ)) → HasSeen seen.old names → IfErr result (IsTwice names place.now) }
{
    if !seen.insert(place.name.try_clone()?)? {
        let name = place.shown.try_clone()?;
        return Err(RefError::DuplicateEdit { name });
    }
    Ok(())
}

/// Adds the touched names of these places.
#[tactic(auto, using(crate::proofs::SeenLemmas::twice_in))]
fn see_all(seen: &mut BTreeSet<FullName>, places: &[Place]) -> Result<(), RefError>
    ensures ok { (names : List (List ℕ)) → HasSeen seen.old names
        → OnOk result (HasSeen seen.new (names ++ stored_names places.now)) }
    ensures causes { (names : List (List ℕ))
        → HasSeen seen.old names → AreDistinct (stored_names places.now)
        → IfErr result (TwiceAmong names places.now) }
{
    for place in places {
        see(seen, place)?;
    }
    Ok(())
}

/// Adds the names that an edit touches.
#[tactic(auto, using(crate::proofs::SeenLemmas::touching))]
fn see_touched(seen: &mut BTreeSet<FullName>, plan: &Plan) -> Result<(), RefError>
    ensures ok { (names : List (List ℕ)) → HasSeen seen.old names
        → OnOk result (HasSeen seen.new (names ++ touched_names plan.now)) }
    ensures causes { (names : List (List ℕ))
        → HasSeen seen.old names → AreDistinct (touched_names plan.now)
        → IfErr result (TwiceAmong names (touched plan.now)) }
{
    see_all(seen, touched_before(plan))?;
    see(seen, &plan.way.end)
}

/// None of the places was seen.
fn check_new(seen: &BTreeSet<FullName>, places: &[Place]) -> Result<(), RefError>
    ensures ok { (names : List (List ℕ)) → HasSeen seen.now names
        → OnOk result (AreNew names (stored_names places.now)) }
    ensures causes { (names : List (List ℕ)) → HasSeen seen.now names → IfErr result (TwiceAmong names places.now) }
{
    for place in places {
        if seen.contains(&place.name) {
            let name = place.shown.try_clone()?;
            return Err(RefError::DuplicateEdit { name });
        }
    }
    Ok(())
}

/// The names that a deletion goes through without touching them are touched by no edit.
fn check_passed(seen: &BTreeSet<FullName>, plan: &Plan) -> Result<(), RefError>
    ensures ok { (names : List (List ℕ)) → HasSeen seen.now names → OnOk result (AreNew names (passed_names plan.now)) }
    ensures causes { (names : List (List ℕ)) → HasSeen seen.now names
        → IfErr result (TwiceAmong names (passed plan.now)) }
{
    match &plan.edit.change {
        Change::Update { .. } => Ok(()),
        Change::Delete { .. } => check_new(seen, plan.way.before.as_slice()),
    }
}

/// No two edits share a name.
pub(crate) fn check_shared(alloc: Global, plans: &[Plan]) -> Result<(), RefError>
    ensures apart { OnOk result (ShareNone plans.now) }
    ensures distinct { OnOk result (AreDistinct (flat_map touched_names plans.now)) }
    ensures causes { HaveDistinctWays plans.now → IfErr result (SharedCauses plans.now) }
{
    let mut seen = BTreeSet::new(alloc);
    for plan in plans {
        see_touched(&mut seen, plan)?;
    }
    for passing in plans {
        check_passed(&seen, passing)?;
    }
    Ok(())
}
