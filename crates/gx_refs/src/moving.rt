//! How the end of a chain comes to name an object.

ghost use Rattle.std.specs.Prelude.{◌≡◌, ◌++◌, ◌∷◌, [], ℕ, List, false, IfOk, IfSome};
ghost use Rattle.gx_hash.specs.HashKind.{IsOfKind};
ghost use Rattle.gx_store.specs.State.{IfFault};
ghost use Rattle.gx_store.specs.Change.{refs_after, HaveDistinctNames};
ghost use Rattle.gx_store.specs.Kinds.{IsTargetOfKind, AreChangesOfKind};
ghost use Rattle.gx_refs.specs.Chain.{AreDistinct};
ghost use Rattle.gx_refs.specs.Log.{is_due, IsLogFault, log_line};
ghost use Rattle.gx_refs.specs.Moving.{previous_id, moved, change_at, IsChangeAt, MovesAlong, IsFaultAt};

use crate::changes::previous_id;
use crate::{Chain, WriteReflog, is_due, log_line};
use gx_hash::{NoMemory, ObjectId};
use gx_object::Signature;
use gx_rules::FullName;
use gx_store::{LogAct, LogLine, RefChange, References, StoreError, Target, TargetChange};
use std::alloc::Global;

/// The changes that let a chain's end name the object, with a line in each log on the way where one is due.
pub fn move_end<S: References>(
    alloc: Global,
    store: &S,
    mode: WriteReflog,
    chain: &Chain,
    id: ObjectId,
    signature: &Signature,
    message: &[u8],
) -> Result<Vec<RefChange>, StoreError>
    requires id { IsOfKind (S.state store.now).hash id }
    requires target { IfSome chain.now.target (IsTargetOfKind (S.state store.now).hash) }
    ensures moved { let line = log_line
        (previous_id (S.state store.now).hash chain.now.target) id signature.now message.now in
        IfOk result (λ changes. (before : List (List ℕ)) (end : List ℕ) → chain.now.names ≡ before ++ end ∷ []
        → IfSome (S.state store.now).references (λ refs.
        refs_after changes.items refs ≡ moved mode chain.now.names end id line refs)) }
    ensures along { let line = log_line
        (previous_id (S.state store.now).hash chain.now.target) id signature.now message.now in
        IfOk result (λ changes. MovesAlong mode chain.now.names id line changes.items) }
    ensures names { IfOk result (λ changes. AreDistinct chain.now.names → HaveDistinctNames changes.items) }
    ensures kinds { IfOk result (λ changes. AreChangesOfKind (S.state store.now).hash changes.items) }
    ensures fault { IfFault result (IsFaultAt (S.state store.now) mode chain.now.names) }
{
    let previous = previous_id(id.kind(), &chain.target);
    let line = log_line(alloc, previous, id, signature, message)?;
    changes_along(alloc, store, mode, chain.names.as_slice(), id, &line)
}

/// The changes of these names in order, of which the last comes to name the object.
fn changes_along<S: References>(
    alloc: Global,
    store: &S,
    mode: WriteReflog,
    names: &[FullName],
    id: ObjectId,
    line: &LogLine,
) -> Result<Vec<RefChange>, StoreError>
    ensures moved { IfOk result
        (λ changes. (before : List (List ℕ)) (end : List ℕ) → names.now ≡ before ++ end ∷ []
        → IfSome (S.state store.now).references (λ refs.
        refs_after changes.items refs ≡ moved mode names.now end id line.now refs)) }
    ensures along { IfOk result (λ changes. MovesAlong mode names.now id line.now changes.items) }
    ensures fault { IfFault result (IsFaultAt (S.state store.now) mode names.now) }
{
    let mut changes = Vec::new(alloc);
    let [way @ .., end] = names else {
        return Ok(changes);
    };
    for name in way {
        let change = change_at(alloc, store, mode, name, TargetChange::Keep, line)?;
        changes.push(change)?;
    }
    let target = TargetChange::Set(Target::Object(id));
    let last = change_at(alloc, store, mode, end, target, line)?;
    changes.push(last)?;
    Ok(changes)
}

/// The change of one name, with the line where one is due.
fn change_at<S: References>(
    alloc: Global,
    store: &S,
    mode: WriteReflog,
    name: &FullName,
    target: TargetChange,
    line: &LogLine,
) -> Result<RefChange, StoreError>
    ensures change { IfOk result (λ change. IsChangeAt mode name.now target line.now change) }
    ensures told { IfOk result (λ change. IfSome (S.state store.now).references (λ refs.
        change ≡ change_at (is_due mode refs.logs false name.now) name.now target line.now)) }
    ensures fault { IfFault result (IsLogFault (S.state store.now) mode false name.now name.now) }
{
    let log = if is_due(alloc, store, mode, name, false)? {
        LogAct::Append(line.try_clone()?)
    } else {
        LogAct::Keep
    };
    Ok(RefChange {
        name: name.try_clone()?,
        target,
        log,
    })
}
