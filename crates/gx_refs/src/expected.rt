//! What edits expect to be there.
ghost use Rattle.std.specs.Prelude.{◌≡◌, ◌≢◌, ℕ, List, true, false, Some, None, IfOk, IfErr, IfSome, IfNone, OnOk};
ghost use Rattle.gx_store.specs.declared.target.Target.{Target};
ghost use Rattle.gx_refs.specs.EditCauses.{AsksPresence, AsksFor, ExpectedCauses};
ghost use Rattle.gx_refs.specs.Plan.{IsMet, KnowsShown, expected_of};
ghost use Rattle.gx_refs.specs.Shown.{stored_target};
ghost use Rattle.gx_refs.specs.declared.edit.PreviousValue.TheVariants as previous;

use crate::plan::Plan;
use crate::shown::Space;
use crate::{Change, PreviousValue, RefError};
use gx_hash::NoMemory;
use gx_store::Target;

fn expected_of(change: &Change) -> &PreviousValue
    ensures { result.now ≡ expected_of change.now }
{
    match change {
        Change::Update { expected, .. } => expected,
        Change::Delete { expected, .. } => expected,
    }
}

fn asks_presence(expected: &PreviousValue) -> bool
    ensures yes { result ≡ true → AsksPresence expected.now }
    ensures no { result ≡ false → (space : List ℕ) → IsMet space expected.now None }
{
    match expected {
        PreviousValue::MustExist | PreviousValue::MustExistAndMatch(_) => true,
        _ => false,
    }
}

/// The target that is asked for, if one is.
fn asked_for(expected: &PreviousValue) -> Option<&Target>
    ensures some { IfSome result
        (λ wanted. AsksFor expected.now wanted.now
        × ((space : List ℕ) (actual : Target) → actual ≡ stored_target space wanted.now
        → IsMet space expected.now (Some actual))) }
    ensures none { IfNone result
        ((space : List ℕ) (actual : Target) → expected.now ≢ previous.MustNotExist
        → IsMet space expected.now (Some actual)) }
{
    match expected {
        PreviousValue::MustExistAndMatch(wanted) => Some(wanted),
        PreviousValue::ExistingMustMatch(wanted) => Some(wanted),
        _ => None,
    }
}

/// What is shown of a found target.
fn shown_or(shown: &Option<Target>, found: &Target) -> Result<Target, NoMemory>
    ensures { IfOk result (λ target. IfSome shown.now (λ t. target ≡ t)) }
{
    match shown {
        Some(target) => target.try_clone(),
        None => found.try_clone(),
    }
}

/// An edit finds what it expects at the end of its way.
pub(crate) fn check_expected(space: &Space, plan: &Plan) -> Result<(), RefError>
    ensures met { OnOk result (IsMet space.now (expected_of plan.now.edit.change) plan.now.way.found) }
    ensures causes { KnowsShown space.now plan.now.way → IfErr result (ExpectedCauses space.now plan.now) }
{
    let expected = expected_of(&plan.edit.change);
    let Some(found) = &plan.way.found else {
        if asks_presence(expected) {
            let name = plan.way.end.shown.try_clone()?;
            return Err(RefError::MustExist { name });
        }
        return Ok(());
    };
    if matches!(expected, PreviousValue::MustNotExist) {
        let name = plan.way.end.shown.try_clone()?;
        let actual = shown_or(&plan.way.shown, found)?;
        return Err(RefError::MustNotExist { name, actual });
    }
    let Some(wanted) = asked_for(expected) else {
        return Ok(());
    };
    if *found == space.stored_target(wanted)? {
        return Ok(());
    }
    Err(RefError::ReferenceOutOfDate {
        name: plan.way.end.shown.try_clone()?,
        expected: wanted.try_clone()?,
        actual: shown_or(&plan.way.shown, found)?,
    })
}
