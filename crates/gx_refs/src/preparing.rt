//! Lists of edits: planned, checked, and made by one call of the store.
ghost use Rattle.std.specs.Prelude.{◌≡◌, IfOk, IfErr, OnOk, option_copied};
ghost use Rattle.std.specs.List.{AllByRecursion};
ghost use Rattle.gx_store.specs.Change.{applied};
ghost use Rattle.gx_store.specs.Kinds.{AreChangesOfKind};
ghost use Rattle.gx_store.specs.State.{Becomes};
ghost use Rattle.gx_refs.specs.EditCauses.{AreMet, EditCauses};
ghost use Rattle.gx_refs.specs.Edits.{terms_of};
ghost use Rattle.gx_refs.specs.Plan.{ArePlans, KnowsShown};
ghost use Rattle.gx_refs.specs.Prepared.{Prepares, AreEditsOfKind, CommitCauses};
ghost use Rattle.gx_refs.specs.Planned.{FindsKind, SomeWayCauses, SomeExpectedCauses, ArePlansSound, Readies, PlanCauses};

use crate::answer::answers;
use crate::changes::all_changes;
use crate::conflicts::check_room;
use crate::expected::check_expected;
use crate::plan::{Plan, plan_of};
use crate::shared::check_shared;
use crate::shown::Space;
use crate::terms::{Terms, terms_of};
use crate::{Edits, RefError, WriteReflog};
use gx_object::Signature;
use gx_rules::Namespace;
use gx_store::{RefChange, References};
use std::alloc::Global;
use std::marker::Model;

/// Edits that may be made.
#[derive(Debug, Drop)]
pub struct Prepared {
    changes: Vec<RefChange>,
    answer: Edits,
}

impl Model for Prepared {
    ghost use Rattle.gx_store.specs.Change.{HaveDistinctNames};
    ghost use Rattle.gx_refs.specs.Prepared.{Ready};

    ghost Value = { Ready };

    ghost view = { λ prepared. record { changes = prepared.changes.items; answer = prepared.answer } };

    ghost invariant = { λ prepared. HaveDistinctNames prepared.changes.items };
}

/// The plans of edits, in order.
#[tactic(auto, using(crate::proofs::PreparedLemmas::some_way))]
fn plans_of<S: References>(
    alloc: Global,
    store: &S,
    space: &Space,
    edits: Edits,
) -> Result<Vec<Plan>, RefError>
    ensures ok { IfOk result (λ plans. ArePlans space.now (S.state store.now).references edits plans.items) }
    ensures kind { IfOk result (λ plans. AllByRecursion (FindsKind (S.state store.now).hash) plans.items) }
    ensures causes { IfErr result (SomeWayCauses space.now (S.state store.now) edits) }
{
    let edits = edits.into_vec();
    let mut plans = Vec::with_capacity(alloc, edits.len())?;
    for edit in edits {
        plans.push(plan_of(alloc, store, space, edit)?)?;
    }
    Ok(plans)
}

/// Each edit finds what it expects.
#[tactic(auto, using(crate::proofs::PreparedLemmas::some_expected))]
fn check_all_expected(space: &Space, plans: &[Plan]) -> Result<(), RefError>
    ensures met { OnOk result (AreMet space.now plans.now) }
    ensures causes { AllByRecursion (λ plan. KnowsShown space.now plan.way) plans.now
        → IfErr result (SomeExpectedCauses space.now plans.now) }
{
    for plan in plans {
        check_expected(space, plan)?;
    }
    Ok(())
}

/// Plans the edits, checks them, and makes their changes ready. Nothing is changed yet.
///
/// ```
/// let prepared = prepare(alloc, &store, None, edits, WriteReflog::Normal, Some(&committer))?;
/// let made = prepared.commit(alloc, &mut store)?;
/// ```
#[tactic(auto, using(crate::proofs::PreparedLemmas::preparing))]
pub fn prepare<S: References>(
    alloc: Global,
    store: &S,
    space: Option<&Namespace>,
    edits: Edits,
    mode: WriteReflog,
    committer: Option<&Signature>,
) -> Result<Prepared, RefError>
    requires kinds { AreEditsOfKind (S.state store.now).hash edits }
    ensures ok { IfOk result
        (Prepares (terms_of (option_copied space.entry) mode (option_copied committer.entry))
        (S.state store.now).references edits) }
    ensures kinds { IfOk result (λ prepared. AreChangesOfKind (S.state store.now).hash prepared.changes) }
    ensures causes { IfErr result
        (EditCauses (terms_of (option_copied space.entry) mode (option_copied committer.entry))
        (S.state store.now) edits) }
{
    let terms = terms_of(space, mode, committer)?;
    let plans = plans_of(alloc, store, &terms.space, edits)?;
    make_ready(alloc, store, &terms, &plans)
}

/// Checks the plans, and makes their changes ready.
#[tactic(auto, using(crate::proofs::PreparedLemmas::readies, crate::proofs::ChangeLemmas::distinct_names))]
fn make_ready<S: References>(
    alloc: Global,
    store: &S,
    terms: &Terms,
    plans: &[Plan],
) -> Result<Prepared, RefError>
    requires ways { ArePlansSound (S.state store.now) terms.now plans.now }
    ensures ok { IfOk result (Readies terms.now (S.state store.now).references plans.now) }
    ensures kinds { IfOk result (λ prepared. AreChangesOfKind (S.state store.now).hash prepared.changes) }
    ensures causes { IfErr result (PlanCauses terms.now (S.state store.now) plans.now) }
{
    let space = &terms.space;
    check_all_expected(space, plans)?;
    check_shared(alloc, plans)?;
    check_room(alloc, store, space, plans)?;
    let changes = all_changes(alloc, store, terms, plans)?;
    let answer = Edits::from_vec(answers(alloc, plans)?);
    Ok(Prepared { changes, answer })
}

impl Prepared {
    /// Makes the changes by one call of the store, and tells them.
    pub fn commit<S: References>(self, alloc: Global, store: &mut S) -> Result<Edits, RefError>
        requires kinds { AreChangesOfKind (S.state store.old).hash self.changes }
        ensures ok { IfOk result
            (λ edits. (edits ≡ self.answer) × Becomes (applied self.changes (S.state store.old)) (S.state store.new)) }
        ensures causes { IfErr result (CommitCauses self.changes (S.state store.old) (S.state store.new)) }
    {
        store.apply(alloc, &self.changes)?;
        Ok(self.answer)
    }
}
