//! What a list of edits answers: the edits as they were made.
ghost use Rattle.std.specs.Prelude.{◌≡◌, IfOk, Some};
ghost use Rattle.gx_store.specs.declared.target.Target.TheVariants as target;
ghost use Rattle.gx_refs.specs.Answer.{expecting, change_from, log_alone};
ghost use Rattle.gx_refs.specs.Answering.{answer_before, answers_before, answers_along, answers_by, answers};

use crate::plan::{Place, Plan};
use crate::{Change, LogChange, PreviousValue, RefEdit, RefLog};
use gx_hash::NoMemory;
use gx_store::Target;
use std::alloc::Global;

fn expecting(old: &Option<Target>) -> Result<PreviousValue, NoMemory>
    ensures { IfOk result (λ expected. expected ≡ expecting old.now) }
{
    match old {
        None => Ok(PreviousValue::MustNotExist),
        Some(target) => Ok(PreviousValue::MustExistAndMatch(target.try_clone()?)),
    }
}

/// The change at the end, expecting what was there.
fn change_at_end(change: &Change, old: &Option<Target>) -> Result<Change, NoMemory>
    ensures { IfOk result (λ made. made ≡ change_from change.now old.now) }
{
    let expected = expecting(old)?;
    match change {
        Change::Update { log, new, .. } => Ok(Change::Update {
            log: log.try_clone()?,
            expected,
            new: new.try_clone()?,
        }),
        Change::Delete { log, .. } => Ok(Change::Delete {
            expected,
            log: *log,
        }),
    }
}

/// The change before the end, expecting a reference that is symbolic to the next.
fn change_before_end(change: &Change, next: &Place) -> Result<Change, NoMemory>
    ensures { IfOk result (λ made. made ≡ change_from (log_alone change.now) (Some (target.Symbolic next.now.shown))) }
{
    let expected = PreviousValue::MustExistAndMatch(Target::Symbolic(next.shown.try_clone()?));
    match change {
        Change::Update { log, new, .. } => Ok(Change::Update {
            log: LogChange {
                mode: RefLog::Only,
                force_create_reflog: log.force_create_reflog,
                message: log.message.try_clone()?,
            },
            expected,
            new: new.try_clone()?,
        }),
        Change::Delete { .. } => Ok(Change::Delete {
            expected,
            log: RefLog::Only,
        }),
    }
}

fn answer_before(change: &Change, place: &Place, next: &Place) -> Result<RefEdit, NoMemory>
    ensures { IfOk result (λ edit. edit ≡ answer_before change.now place.now next.now) }
{
    Ok(RefEdit {
        change: change_before_end(change, next)?,
        name: place.shown.try_clone()?,
        deref: false,
    })
}

/// The answer along the places before an end.
fn answers_before(
    alloc: Global,
    change: &Change,
    places: &[Place],
    end: &Place,
) -> Result<Vec<RefEdit>, NoMemory>
    ensures { IfOk result (λ edits. edits.items ≡ answers_before change.now places.now end.now) }
{
    let mut edits = Vec::with_capacity(alloc, places.len().saturating_add(1))?;
    let [first, more @ ..] = places else {
        return Ok(edits);
    };
    let mut place = first;
    for next in more {
        edits.push(answer_before(change, place, next)?)?;
        place = next;
    }
    edits.push(answer_before(change, place, end)?)?;
    Ok(edits)
}

/// The answer along the places before the end of a way, and at the end.
fn answers_along(alloc: Global, plan: &Plan, before: &[Place]) -> Result<Vec<RefEdit>, NoMemory>
    ensures { IfOk result (λ edits. edits.items ≡ answers_along plan.now.edit.change before.now plan.now.way) }
{
    let mut edits = answers_before(alloc, &plan.edit.change, before, &plan.way.end)?;
    edits.push(RefEdit {
        change: change_at_end(&plan.edit.change, &plan.way.shown)?,
        name: plan.way.end.shown.try_clone()?,
        deref: false,
    })?;
    Ok(edits)
}

/// The answer of one edit.
fn answers_of(alloc: Global, plan: &Plan) -> Result<Vec<RefEdit>, NoMemory>
    ensures { IfOk result (λ edits. edits.items ≡ answers_by plan.now.edit.change plan.now.way) }
{
    match &plan.edit.change {
        Change::Update { .. } => answers_along(alloc, plan, plan.way.before.as_slice()),
        Change::Delete { .. } => answers_along(alloc, plan, &[]),
    }
}

/// The answer of all edits.
pub(crate) fn answers(alloc: Global, plans: &[Plan]) -> Result<Vec<RefEdit>, NoMemory>
    ensures { IfOk result (λ edits. edits.items ≡ answers plans.now) }
{
    let mut edits = Vec::new(alloc);
    for plan in plans {
        edits.append(&mut answers_of(alloc, plan)?)?;
    }
    Ok(edits)
}
