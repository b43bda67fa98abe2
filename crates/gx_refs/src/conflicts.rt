//! The names that edits make, beside stored names and one another.
ghost use Rattle.std.specs.Prelude.{◌≡◌, ℕ, List, true, Some, IfOk, IfErr, IfSome, IfNone, OnOk};
ghost use Rattle.std.specs.List.{AllByRecursion};
ghost use Rattle.gx_store.specs.Conflict.{IsProperPrefix};
ghost use Rattle.gx_refs.specs.Plan.{makes, HasRoom};
ghost use Rattle.gx_refs.specs.Seen.{made_get, HasMade, IsAlone, HasRoomAbove, RoomCauses, AllRoomCauses};

use crate::plan::Plan;
use crate::shown::{Space, shown};
use crate::{Change, RefError, RefLog};
use gx_hash::{Bytes, NoMemory};
use gx_rules::FullName;
use gx_store::References;
use std::alloc::Global;
use std::collections::BTreeMap;

/// Whether an edit makes the reference at its end.
fn makes(plan: &Plan) -> bool
    ensures { result ≡ makes plan.now }
{
    match &plan.edit.change {
        Change::Update { log, .. } => match &plan.way.found {
            Some(_) => false,
            None => matches!(log.mode, RefLog::AndReference),
        },
        Change::Delete { .. } => false,
    }
}

/// The stored names that edits make, each with the name that it is shown by.
#[tactic(auto, using(crate::proofs::RoomLemmas::made_kept, crate::proofs::RoomLemmas::made_next))]
fn made_names(alloc: Global, plans: &[Plan]) -> Result<BTreeMap<Bytes, FullName>, NoMemory>
    ensures { IfOk result (λ made. HasMade made plans.now) }
{
    let mut made = BTreeMap::new(alloc);
    for plan in plans {
        if makes(plan) {
            let name = plan.way.end.name.bytes().try_clone()?;
            made.insert(name, plan.way.end.shown.try_clone()?)?;
        }
    }
    Ok(made)
}

/// A name that is made, and is a proper prefix of the name. The name is copied once and cut at each slash, from the
/// end.
#[tactic(auto, using(crate::proofs::RoomLemmas::cutting))]
fn made_above<'a>(
    alloc: Global,
    made: &'a BTreeMap<Bytes, FullName>,
    name: &[u8],
) -> Result<Option<&'a FullName>, NoMemory>
    ensures some { IfOk result
        (λ found. IfSome found
        (λ shown. (other : List ℕ) × IsProperPrefix other name.now × (made_get made.now other ≡ Some shown.now))) }
    ensures none { IfOk result (λ found. IfNone found (IsAlone made.now name.now)) }
{
    let mut above = Vec::from_slice(alloc, name)?;
    while let Some(byte) = above.pop() {
        if byte == b'/' {
            let key = Bytes::from_vec(above);
            if let Some(found) = made.get(&key) {
                return Ok(Some(found));
            }
            above = key.into_vec();
        }
    }
    Ok(None)
}

/// The name that an edit makes has room.
fn check_made<S: References>(
    alloc: Global,
    store: &S,
    space: &Space,
    made: &BTreeMap<Bytes, FullName>,
    plan: &Plan,
) -> Result<(), RefError>
    ensures free { OnOk result (HasRoomAbove (S.state store.now).references made.now plan.now) }
    ensures causes { IfErr result (RoomCauses space.now (S.state store.now) made.now plan.now) }
{
    let name = &plan.way.end.name;
    if let Some(other) = store.find_conflict(alloc, name)? {
        return Err(RefError::NameConflict {
            name: plan.way.end.shown.try_clone()?,
            with: shown(alloc, space, &other)?,
        });
    }
    if let Some(other) = made_above(alloc, made, name.as_slice())? {
        return Err(RefError::NameConflict {
            name: plan.way.end.shown.try_clone()?,
            with: other.try_clone()?,
        });
    }
    Ok(())
}

/// The names that edits make have room.
#[tactic(auto, using(crate::proofs::RoomLemmas::have_room, crate::proofs::RoomLemmas::room_refused))]
pub(crate) fn check_room<S: References>(
    alloc: Global,
    store: &S,
    space: &Space,
    plans: &[Plan],
) -> Result<(), RefError>
    ensures room { OnOk result
        (AllByRecursion (λ plan. makes plan ≡ true → HasRoom (S.state store.now).references plans.now plan) plans.now) }
    ensures causes { IfErr result (AllRoomCauses space.now (S.state store.now) plans.now) }
{
    let made = made_names(alloc, plans)?;
    for plan in plans {
        if makes(plan) {
            check_made(alloc, store, space, &made, plan)?;
        }
    }
    Ok(())
}
