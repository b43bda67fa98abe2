//! The form `ref`.

ghost use Rattle.std.specs.Prelude.{◌≡◌, ◌∷◌, [], IfOk, option_copied};
ghost use Rattle.gix.specs.Repository.{held_by, store_of};
ghost use Rattle.gx_refs.specs.Prepared.{AreEditsOfKind};
ghost use Rattle.gx_tool.specs.Call.{Executes, reply_by};
ghost use Rattle.gx_tool.specs.ReferenceForms.{edit_answer, edit_call, edit_tells, expected, ref_call, setting};

use crate::answer::Answer;
use crate::executing::{ExecuteError, refused};
use crate::refusal::Refusal;
use crate::reply::Reply;
use gix::Repository;
use gx_hash::NoMemory;
use gx_object::Signature;
use gx_refs::{Change, Edits, LogChange, PreviousValue, RefEdit, RefError, RefLog};
use gx_rules::FullName;
use gx_script::{Expect, RefRequest};
use gx_store::Store;
use std::alloc::Global;

/// What a request expects, as an edit expects it.
pub(crate) fn expected(expect: &Expect) -> Result<PreviousValue, NoMemory>
    ensures { IfOk result (λ value. value ≡ expected expect.now) }
{
    match expect {
        Expect::Any => Ok(PreviousValue::Any),
        Expect::Exists => Ok(PreviousValue::MustExist),
        Expect::Absent => Ok(PreviousValue::MustNotExist),
        Expect::Match(target) => Ok(PreviousValue::MustExistAndMatch(target.try_clone()?)),
        Expect::MatchOrAbsent(target) => Ok(PreviousValue::ExistingMustMatch(target.try_clone()?)),
    }
}

/// The edit that sets a reference.
fn setting(asked: &RefRequest) -> Result<RefEdit, NoMemory>
    ensures { IfOk result (λ edit. edit ≡ setting asked.now) }
{
    let log = LogChange {
        mode: RefLog::AndReference,
        force_create_reflog: false,
        message: asked.message.try_clone()?,
    };
    let expected = expected(&asked.expect)?;
    let new = asked.target.try_clone()?;
    let name = asked.name.try_clone()?;
    Ok(RefEdit {
        change: Change::Update { log, expected, new },
        name,
        deref: false,
    })
}

/// What is replied to an edit that is refused, or that it gets no reply.
fn edit_tells(refusal: RefError) -> Result<Refusal, ExecuteError>
    ensures { result ≡ edit_tells refusal }
{
    Ok(match refusal {
        RefError::Cycle { name } => Refusal::Cycle { name },
        RefError::DepthLimitExceeded { name } => Refusal::Depth { name },
        RefError::MustExist { name } => Refusal::MustExist { name },
        RefError::MustNotExist { name, actual } => Refusal::MustNotExist { name, actual },
        RefError::ReferenceOutOfDate {
            name,
            expected,
            actual,
        } => Refusal::OutOfDate {
            name,
            expected,
            actual,
        },
        RefError::NameConflict { name, with: other } => Refusal::Conflict { name, other },
        RefError::DuplicateEdit { name } => Refusal::Duplicate { name },
        RefError::MissingCommitter => Refusal::NoCommitter,
        RefError::Unwritable { field } => Refusal::Unwritable { field },
        RefError::NameValidation(_) => Refusal::BadName,
        RefError::Store { what } => return Err(ExecuteError::Store { what }),
        RefError::NoMemory => return Err(ExecuteError::NoMemory),
    })
}

/// The reply that an edit of the name gets, or that it gets none.
fn edit_reply(name: FullName, outcome: Result<Edits, RefError>) -> Result<Reply, ExecuteError>
    ensures { result ≡ reply_by (edit_answer name) edit_tells outcome }
{
    match outcome {
        Ok(_) => Ok(Reply::Accepted(Answer::Name(name))),
        Err(refusal) => refused(edit_tells(refusal)),
    }
}

/// A list of the one edit, and its name.
fn listed(alloc: Global, edit: RefEdit) -> Result<(FullName, Edits), NoMemory>
    ensures name { IfOk result (λ both. both.0 ≡ edit.name) }
    ensures edits { IfOk result (λ both. both.1 ≡ edit ∷ []) }
{
    let name = edit.name.try_clone()?;
    let mut edits = Vec::new(alloc);
    edits.push(edit)?;
    Ok((name, Edits::from_vec(edits)))
}

/// Makes one edit, which the committer signs.
pub(crate) fn make_edit<S: Store>(
    alloc: Global,
    repo: &mut Repository<S>,
    committer: Option<&Signature>,
    edit: RefEdit,
) -> Result<Reply, ExecuteError>
    requires { AreEditsOfKind (S.state (store_of repo.old)).hash (edit ∷ []) }
    ensures { Executes (edit_call (option_copied committer.entry) edit) (held_by S.state repo.old) result
        (held_by S.state repo.new) }
{
    match listed(alloc, edit) {
        Ok((name, edits)) => edit_reply(name, repo.edit_references_as(alloc, edits, committer)),
        Err(_) => Err(ExecuteError::NoMemory),
    }
}

/// Sets the reference that is asked for.
pub(crate) fn set_reference<S: Store>(
    alloc: Global,
    repo: &mut Repository<S>,
    asked: &RefRequest,
) -> Result<Reply, ExecuteError>
    requires { AreEditsOfKind (S.state (store_of repo.old)).hash (setting asked.now ∷ []) }
    ensures { Executes (ref_call asked.now) (held_by S.state repo.old) result (held_by S.state repo.new) }
{
    match setting(asked) {
        Ok(edit) => make_edit(alloc, repo, asked.committer.as_ref(), edit),
        Err(_) => Err(ExecuteError::NoMemory),
    }
}
