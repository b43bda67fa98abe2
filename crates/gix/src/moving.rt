//! The last stage: the reference that is to name the commit.

ghost use Rattle.std.specs.Prelude.{◌≡◌, IfOk, IfErr};
ghost use Rattle.gx_hash.specs.HashKind.{IsOfKind};
ghost use Rattle.gx_store.specs.Kinds.{AreChangesOfKind};
ghost use Rattle.gx_refs.specs.EditCauses.{EditCauses};
ghost use Rattle.gx_refs.specs.Prepared.{Prepares};
ghost use Rattle.gix.specs.CommitRequest.{asked};
ghost use Rattle.gix.specs.Reference.{asked_of, commit_terms, edit_of, edits_of};

use crate::Settings;
use crate::reference::log;
use crate::request::Request;
use crate::space::namespace_of;
use gx_hash::{NoMemory, ObjectId};
use gx_refs::{
    Change, Edits, LogChange, Prepared, PreviousValue, RefEdit, RefError, RefLog, prepare,
};
use gx_store::{References, Target};
use std::alloc::Global;

/// What the request's parents ask of the reference.
fn expected(request: &Request<'_>) -> PreviousValue
    ensures { result ≡ asked_of (asked request.now).reference (asked request.now).parents }
{
    let Some(parent) = request.parents.first() else {
        return PreviousValue::MustNotExist;
    };
    let parent = Target::Object(*parent);
    if request.reference.as_slice() == b"HEAD".as_slice() {
        PreviousValue::MustExistAndMatch(parent)
    } else {
        PreviousValue::ExistingMustMatch(parent)
    }
}

/// The edit that lets the end of the reference's chain name the commit.
fn edit_of(alloc: Global, request: &Request<'_>, id: ObjectId) -> Result<RefEdit, NoMemory>
    ensures { IfOk result (λ edit. edit ≡ edit_of (asked request.now) id) }
{
    let parents = request.parents.len();
    let message = log::message(alloc, b"commit", request.message, parents)?;
    let name = request.reference.try_clone()?;
    let log = LogChange {
        mode: RefLog::AndReference,
        force_create_reflog: false,
        message,
    };
    let change = Change::Update {
        log,
        expected: expected(request),
        new: Target::Object(id),
    };
    Ok(RefEdit {
        change,
        name,
        deref: true,
    })
}

fn edits_of(alloc: Global, request: &Request<'_>, id: ObjectId) -> Result<Edits, NoMemory>
    ensures { IfOk result (λ edits. edits ≡ edits_of (asked request.now) id) }
{
    let edit = edit_of(alloc, request, id)?;
    let mut list = Vec::new(alloc);
    list.push(edit)?;
    Ok(Edits::from_vec(list))
}

/// Prepares the edit of the request's reference. This reads alone.
pub(crate) fn prepare_move<S: References>(
    alloc: Global,
    store: &S,
    settings: &Settings,
    request: &Request<'_>,
    id: ObjectId,
) -> Result<Prepared, RefError>
    requires { IsOfKind (S.state store.now).hash id }
    ensures ok { IfOk result (Prepares (commit_terms settings.now (asked request.now)) (S.state store.now).references
        (edits_of (asked request.now) id)) }
    ensures kinds { IfOk result (λ prepared. AreChangesOfKind (S.state store.now).hash prepared.changes) }
    ensures causes { IfErr result (EditCauses (commit_terms settings.now (asked request.now)) (S.state store.now)
        (edits_of (asked request.now) id)) }
{
    let edits = edits_of(alloc, request, id)?;
    let space = namespace_of(settings);
    let committer = Some(request.committer);
    prepare(alloc, store, space, edits, settings.log_mode, committer)
}
