//! The changes that edits make.
ghost use Rattle.std.specs.Prelude.{◌≡◌, ◌++◌, ◌∷◌, [], Bool, true, Contains, IfOk, IfErr, IfSome, OnOk};
ghost use Rattle.std.specs.List.{AllByRecursion};
ghost use Rattle.gx_hash.specs.HashKind.{IsOfKind};
ghost use Rattle.gx_hash.specs.declared.kind.HashKind.{HashKind};
ghost use Rattle.gx_store.specs.Kinds.{AreChangesOfKind, IsActOfKind, IsTargetOfKind};
ghost use Rattle.gx_store.specs.State.{IfFault};
ghost use Rattle.gx_store.specs.declared.target.Target.TheVariants as target;
ghost use Rattle.gx_refs.specs.declared.plan.Place.{Place};
ghost use Rattle.gx_refs.specs.declared.edit.PreviousValue.{PreviousValue};
ghost use Rattle.gx_refs.specs.declared.edit.Change.TheVariants as change;
ghost use Rattle.gx_refs.specs.Changing.{IsDue, IsLogChangeBy, IsLogChange, LogCauses, IsSignedBy, IsSigned, AreSigned, IsPlanOfKind, IsChangeOfKind, SomeChangeCauses};
ghost use Rattle.gx_refs.specs.EditCauses.{ChangeCauses};
ghost use Rattle.gx_refs.specs.Edits.{end_change, target_change_at, IsChange, AreChanges};
ghost use Rattle.gx_refs.specs.Log.{IsLogFault};
ghost use Rattle.gx_refs.specs.Moving.{previous_id};
ghost use Rattle.gx_refs.specs.Plan.{touched, touches_at, touches_of, touches};

use crate::log::{is_made_normally, log_line};
use crate::plan::{Place, Plan};
use crate::shown::Space;
use crate::signing::signer;
use crate::{Change, LogChange, RefError, RefLog, Terms, WriteReflog};
use gx_hash::{HashKind, NoMemory, ObjectId};
use gx_store::{LogAct, RefChange, References, StoreError, Target, TargetChange};
use std::alloc::Global;

/// What becomes of the target at the end.
fn end_change(space: &Space, change: &Change) -> Result<TargetChange, NoMemory>
    ensures { IfOk result (λ made. made ≡ end_change space.now change.now) }
{
    match change {
        Change::Update { log, new, .. } => match log.mode {
            RefLog::AndReference => Ok(TargetChange::Set(space.stored_target(new)?)),
            RefLog::Only => Ok(TargetChange::Keep),
        },
        Change::Delete { log, .. } => match log {
            RefLog::AndReference => Ok(TargetChange::Remove),
            RefLog::Only => Ok(TargetChange::Keep),
        },
    }
}

/// What becomes of the target at a place.
fn target_change(terms: &Terms, plan: &Plan, place: &Place) -> Result<TargetChange, NoMemory>
    ensures { IfOk result (λ made. made ≡ target_change_at terms.now (record { plan = plan.now; place = place.now })) }
{
    if place.name == plan.way.end.name {
        return end_change(&terms.space, &plan.edit.change);
    }
    Ok(TargetChange::Keep)
}

/// Whether a line of an update is due at a place. The rule goes by the name as it is shown, and a fault comes only
/// where it goes by the log.
#[tactic(auto, using(crate::proofs::ChangeLemmas::due_anyway, crate::proofs::ChangeLemmas::due_by_log))]
fn is_due_at<S: References>(
    alloc: Global,
    store: &S,
    mode: WriteReflog,
    force: bool,
    place: &Place,
) -> Result<bool, StoreError>
    ensures due { IfOk result (IsDue (S.state store.now).references mode force place.now) }
    ensures fault { IfFault result (IsLogFault (S.state store.now) mode force place.now.shown place.now.name) }
{
    match mode {
        WriteReflog::Disable => Ok(false),
        WriteReflog::Always => Ok(true),
        WriteReflog::Normal => {
            if force || is_made_normally(place.shown.as_slice()) {
                return Ok(true);
            }
            store.log_exists(alloc, &place.name)
        }
    }
}

/// The id that a line tells as the old one.
pub(crate) fn previous_id(hash: HashKind, target: &Option<Target>) -> ObjectId
    ensures { result ≡ previous_id hash target.now }
{
    match target {
        Some(Target::Object(id)) => *id,
        _ => ObjectId::null(hash),
    }
}

/// What an update to an object makes of the log at a place.
#[tactic(auto, using(crate::proofs::ChangeLemmas::lines))]
fn line_at<S: References>(
    alloc: Global,
    store: &S,
    terms: &Terms,
    found: &Option<Target>,
    place: &Place,
    log: &LogChange,
    id: ObjectId,
) -> Result<LogAct, RefError>
    ensures ok { (expected : PreviousValue)
        → IfOk result (IsLogChangeBy
        (S.state store.now).references terms.now
        (change.Update log.now expected (target.Object id)) found.now place.now) }
    ensures signed { (expected : PreviousValue)
        → OnOk result (IsSignedBy (S.state store.now).references terms.now
        (change.Update log.now expected (target.Object id)) place.now) }
    ensures causes { (expected : PreviousValue)
        → IfErr result (LogCauses terms.now (S.state store.now)
        (change.Update log.now expected (target.Object id)) place.now) }
    ensures kind { (hash : HashKind) → IsOfKind hash id → IfSome found.now (IsTargetOfKind hash)
        → IfOk result (IsActOfKind hash) }
{
    if !is_due_at(alloc, store, terms.mode, log.force_create_reflog, place)? {
        return Ok(LogAct::Keep);
    }
    let who = signer(terms)?;
    let previous = previous_id(id.kind(), found);
    let line = log_line(alloc, previous, id, who, log.message.as_slice())?;
    Ok(LogAct::Append(line))
}

/// What an update makes of the log at a place.
#[tactic(auto, using(crate::proofs::ChangeLemmas::symbolic_keeps, crate::proofs::ChangeLemmas::symbolic_signed))]
fn update_log<S: References>(
    alloc: Global,
    store: &S,
    terms: &Terms,
    found: &Option<Target>,
    place: &Place,
    log: &LogChange,
    new: &Target,
) -> Result<LogAct, RefError>
    ensures ok { (expected : PreviousValue)
        → IfOk result (IsLogChangeBy (S.state store.now).references terms.now
        (change.Update log.now expected new.now) found.now place.now) }
    ensures signed { (expected : PreviousValue)
        → OnOk result (IsSignedBy (S.state store.now).references terms.now
        (change.Update log.now expected new.now) place.now) }
    ensures causes { (expected : PreviousValue)
        → IfErr result (LogCauses terms.now (S.state store.now) (change.Update log.now expected new.now) place.now) }
    ensures kind { (hash : HashKind) → IsTargetOfKind hash new.now → IfSome found.now (IsTargetOfKind hash)
        → IfOk result (IsActOfKind hash) }
{
    let Target::Object(id) = new else {
        return Ok(LogAct::Keep);
    };
    line_at(alloc, store, terms, found, place, log, *id)
}

/// What becomes of the log at a place.
#[tactic(auto, using(crate::proofs::ChangeLemmas::delete_removes, crate::proofs::ChangeLemmas::delete_signed))]
fn log_change<S: References>(
    alloc: Global,
    store: &S,
    terms: &Terms,
    plan: &Plan,
    place: &Place,
) -> Result<LogAct, RefError>
    ensures ok { IfOk result
        (IsLogChange (S.state store.now).references terms.now (record { plan = plan.now; place = place.now })) }
    ensures signed { OnOk result
        (IsSigned (S.state store.now).references terms.now (record { plan = plan.now; place = place.now })) }
    ensures causes { IfErr result (LogCauses terms.now (S.state store.now) plan.now.edit.change place.now) }
    ensures kind { (hash : HashKind) → IsPlanOfKind hash plan.now → IfOk result (IsActOfKind hash) }
{
    match &plan.edit.change {
        Change::Delete { .. } => Ok(LogAct::Remove),
        Change::Update { log, new, .. } => {
            update_log(alloc, store, terms, &plan.way.found, place, log, new)
        }
    }
}

/// The change at a place.
#[tactic(auto, using(crate::proofs::ChangeLemmas::log_refused, crate::proofs::ChangeLemmas::change_of_kind))]
fn change_at<S: References>(
    alloc: Global,
    store: &S,
    terms: &Terms,
    plan: &Plan,
    place: &Place,
) -> Result<RefChange, RefError>
    ensures ok { IfOk result
        (IsChange (S.state store.now).references terms.now (record { plan = plan.now; place = place.now })) }
    ensures signed { OnOk result
        (IsSigned (S.state store.now).references terms.now (record { plan = plan.now; place = place.now })) }
    ensures causes { Contains (touched plan.now) place.now
        → IfErr result (ChangeCauses terms.now (S.state store.now) plan.now) }
    ensures kind { (hash : HashKind) → IsPlanOfKind hash plan.now → IfOk result (IsChangeOfKind hash) }
{
    let log = log_change(alloc, store, terms, plan, place)?;
    Ok(RefChange {
        name: place.name.try_clone()?,
        target: target_change(terms, plan, place)?,
        log,
    })
}

/// The changes at some of the places that an edit touches.
#[tactic(auto, using(crate::proofs::ChangeLemmas::contains_at))]
fn changes_at<S: References>(
    alloc: Global,
    store: &S,
    terms: &Terms,
    plan: &Plan,
    places: &[Place],
) -> Result<Vec<RefChange>, RefError>
    ensures ok { IfOk result
        (λ changes. AreChanges (S.state store.now).references terms.now
        (touches_at plan.now places.now) changes.items) }
    ensures signed { OnOk result (AreSigned (S.state store.now).references terms.now (touches_at plan.now places.now)) }
    ensures causes { ((place : Place) → Contains places.now place → Contains (touched plan.now) place)
        → IfErr result (ChangeCauses terms.now (S.state store.now) plan.now) }
    ensures kind { (hash : HashKind) → IsPlanOfKind hash plan.now
        → IfOk result (λ changes. AreChangesOfKind hash changes.items) }
{
    let mut changes = Vec::with_capacity(alloc, places.len().saturating_add(1))?;
    for place in places {
        changes.push(change_at(alloc, store, terms, plan, place)?)?;
    }
    Ok(changes)
}

/// The places before the end that an edit touches.
pub(crate) fn touched_before(plan: &Plan) -> &[Place]
    ensures { touched plan.now ≡ result.now ++ plan.now.way.end ∷ [] }
{
    match &plan.edit.change {
        Change::Update { .. } => plan.way.before.as_slice(),
        Change::Delete { .. } => &[],
    }
}

/// The changes of one edit.
#[tactic(auto, using(crate::proofs::ChangeLemmas::whole_edits))]
fn changes_of<S: References>(
    alloc: Global,
    store: &S,
    terms: &Terms,
    plan: &Plan,
) -> Result<Vec<RefChange>, RefError>
    ensures ok { IfOk result
        (λ changes. AreChanges (S.state store.now).references terms.now (touches_of plan.now) changes.items) }
    ensures signed { OnOk result (AreSigned (S.state store.now).references terms.now (touches_of plan.now)) }
    ensures causes { IfErr result (ChangeCauses terms.now (S.state store.now) plan.now) }
    ensures kind { (hash : HashKind) → IsPlanOfKind hash plan.now
        → IfOk result (λ changes. AreChangesOfKind hash changes.items) }
{
    let mut changes = changes_at(alloc, store, terms, plan, touched_before(plan))?;
    let last = change_at(alloc, store, terms, plan, &plan.way.end)?;
    changes.push(last)?;
    Ok(changes)
}

/// The changes of all edits.
#[tactic(auto, using(crate::proofs::ChangeLemmas::some_refused, crate::proofs::ChangeLemmas::contains_at))]
pub(crate) fn all_changes<S: References>(
    alloc: Global,
    store: &S,
    terms: &Terms,
    plans: &[Plan],
) -> Result<Vec<RefChange>, RefError>
    ensures ok { IfOk result
        (λ changes. AreChanges (S.state store.now).references terms.now (touches plans.now) changes.items) }
    ensures signed { OnOk result (AreSigned (S.state store.now).references terms.now (touches plans.now)) }
    ensures causes { IfErr result (SomeChangeCauses terms.now (S.state store.now) plans.now) }
    ensures kind { (hash : HashKind)
        → AllByRecursion (IsPlanOfKind hash) plans.now
        → IfOk result (λ changes. AreChangesOfKind hash changes.items) }
{
    let mut changes = Vec::new(alloc);
    for plan in plans {
        changes.append(&mut changes_of(alloc, store, terms, plan)?)?;
    }
    Ok(changes)
}
