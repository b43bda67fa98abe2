//! An edit with the way of its name.
ghost use Rattle.std.specs.Prelude.{◌≡◌, false, IfOk, IfErr, IfSome};
ghost use Rattle.gx_store.specs.Kinds.{IsTargetOfKind};
ghost use Rattle.gx_refs.specs.Chain.{IsChain};
ghost use Rattle.gx_refs.specs.EditCauses.{WayCauses, EditWayCauses};
ghost use Rattle.gx_refs.specs.Plan.{IsWay, IsPlan, ArePlaces, KnowsShown, GoesAlong};
ghost use Rattle.gx_refs.specs.Errors.{with_given_name};
ghost use Rattle.gx_refs.specs.Shown.{IsShown};

use crate::shown::{Space, shown, shown_found};
use crate::{Chain, RefEdit, RefError, resolve};
use gx_hash::NoMemory;
use gx_rules::FullName;
use gx_store::{References, Target};
use std::alloc::Global;
use std::marker::Model;

/// A name on a way.
#[derive(Debug, Drop)]
pub struct Place {
    /// As it is stored.
    pub name: FullName,
    /// Without the namespace.
    pub shown: FullName,
}

/// A list of them.
#[derive(Debug, Drop)]
pub struct Places {
    vec: Vec<Place>,
}

impl Model for Places {
    ghost use Rattle.std.specs.Prelude.{List};
    ghost use Rattle.gx_refs.specs.declared.plan.Place.{Place};

    ghost Value = { List Place };

    ghost view = { λ places. places.vec.items };
}

impl Places {
    pub fn from_vec(vec: Vec<Place>) -> Places
        ensures { result ≡ vec.items }
    {
        Places { vec }
    }

    pub fn as_slice(&self) -> &[Place]
        ensures { result.now ≡ self.now }
    {
        &self.vec
    }
}

/// Where an edit leads.
#[derive(Debug, Drop)]
pub struct Way {
    /// Symbolic references, each of which leads to the next, and the last to the end.
    pub before: Places,
    pub end: Place,
    /// What the end names, if it is there.
    pub found: Option<Target>,
    /// The same, without the namespace.
    pub shown: Option<Target>,
}

/// An edit and its way.
#[derive(Debug, Drop)]
pub struct Plan {
    pub edit: RefEdit,
    pub way: Way,
}

fn place_of(alloc: Global, space: &Space, name: &FullName) -> Result<Place, NoMemory>
    ensures name { IfOk result (λ place. place.name ≡ name.now) }
    ensures shown { IfOk result (λ place. IsShown space.now name.now place.shown) }
{
    Ok(Place {
        name: name.try_clone()?,
        shown: shown(alloc, space, name)?,
    })
}

/// The places of these names.
fn places_along(alloc: Global, space: &Space, names: &[FullName]) -> Result<Places, NoMemory>
    ensures { IfOk result (ArePlaces space.now names.now) }
{
    let mut places = Vec::with_capacity(alloc, names.len())?;
    for name in names {
        places.push(place_of(alloc, space, name)?)?;
    }
    Ok(Places::from_vec(places))
}

/// The way along the names of a chain.
#[tactic(auto, using(crate::proofs::PlanLemmas::no_chain))]
fn way_along(
    alloc: Global,
    space: &Space,
    start: &FullName,
    names: &[FullName],
    found: Option<Target>,
) -> Result<Way, NoMemory>
    requires { IsChain start.now names.now }
    ensures way { IfOk result (GoesAlong names.now found) }
    ensures shown { IfOk result (KnowsShown space.now) }
{
    let [before @ .., end] = names else {
        unreachable!("a chain has a name")
    };
    Ok(Way {
        before: places_along(alloc, space, before)?,
        end: place_of(alloc, space, end)?,
        shown: shown_found(alloc, space, &found)?,
        found,
    })
}

/// The way of a name alone.
fn way_at<S: References>(
    alloc: Global,
    store: &S,
    space: &Space,
    name: &FullName,
) -> Result<Way, RefError>
    ensures way { IfOk result (IsWay (S.state store.now).references false name.now) }
    ensures shown { IfOk result (KnowsShown space.now) }
    ensures kind { IfOk result (λ way. IfSome way.found (IsTargetOfKind (S.state store.now).hash)) }
    ensures causes { IfErr result (WayCauses (S.state store.now) false name.now) }
{
    let found = store.find(alloc, name)?;
    Ok(Way {
        before: Places::from_vec(Vec::new(alloc)),
        end: place_of(alloc, space, name)?,
        shown: shown_found(alloc, space, &found)?,
        found,
    })
}

/// The way of a stored name: along its chain, or the name alone.
#[tactic(auto, using(crate::proofs::PlanLemmas::chain_refused))]
fn way_of<S: References>(
    alloc: Global,
    store: &S,
    space: &Space,
    name: &FullName,
    deref: bool,
) -> Result<Way, RefError>
    ensures way { IfOk result (IsWay (S.state store.now).references deref name.now) }
    ensures shown { IfOk result (KnowsShown space.now) }
    ensures kind { IfOk result (λ way. IfSome way.found (IsTargetOfKind (S.state store.now).hash)) }
    ensures causes { IfErr result (WayCauses (S.state store.now) deref name.now) }
{
    if deref {
        let Chain { names, target } = resolve(alloc, store, name)?;
        let way = way_along(alloc, space, name, names.as_slice(), target)?;
        return Ok(way);
    }
    way_at(alloc, store, space, name)
}

/// An edit with its way.
#[tactic(auto, using(crate::proofs::PlanLemmas::way_refused))]
pub(crate) fn plan_of<S: References>(
    alloc: Global,
    store: &S,
    space: &Space,
    edit: RefEdit,
) -> Result<Plan, RefError>
    ensures plan { IfOk result (IsPlan space.now (S.state store.now).references edit) }
    ensures kind { IfOk result (λ plan. IfSome plan.way.found (IsTargetOfKind (S.state store.now).hash)) }
    ensures causes { IfErr result (EditWayCauses space.now (S.state store.now) edit) }
{
    let name = space.stored(&edit.name)?;
    match way_of(alloc, store, space, &name, edit.deref) {
        Ok(way) => Ok(Plan { edit, way }),
        Err(refusal) => Err(with_given_name(refusal, edit.name)),
    }
}

/// The refusal of a chain, with the name as it was given.
#[tactic(auto, using(crate::proofs::PlanLemmas::other_kept))]
fn with_given_name(refusal: RefError, name: FullName) -> RefError
    ensures { result ≡ with_given_name refusal name }
{
    match refusal {
        RefError::Cycle { .. } => RefError::Cycle { name },
        RefError::DepthLimitExceeded { .. } => RefError::DepthLimitExceeded { name },
        other => other,
    }
}
