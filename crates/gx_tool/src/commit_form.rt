//! The form `commit`.

ghost use Rattle.std.specs.Prelude.{◌≡◌};
ghost use Rattle.gix.specs.CommitRequest.{HaveModuleIds};
ghost use Rattle.gix.specs.Repository.{held_by};
ghost use Rattle.gx_tool.specs.Call.{Executes, reply_by};
ghost use Rattle.gx_tool.specs.CommitForm.{commit_answer, commit_call, commit_tells};

use crate::answer::Answer;
use crate::executing::{ExecuteError, refused};
use crate::refusal::Refusal;
use crate::reply::Reply;
use gix::{CommitEditsError, Repository};
use gx_hash::ObjectId;
use gx_script::CommitRequest;
use gx_store::Store;
use std::alloc::Global;

/// What is replied to a commit that is refused, or that it gets no reply.
pub(crate) fn commit_tells(refusal: CommitEditsError) -> Result<Refusal, ExecuteError>
    ensures { result ≡ commit_tells refusal }
{
    Ok(match refusal {
        CommitEditsError::FindExistingObject { id } => Refusal::Find { id },
        CommitEditsError::ObjectKind { id, actual } => Refusal::Kind { id, actual },
        CommitEditsError::Decode { id } => Refusal::Decode { id },
        CommitEditsError::EmptyPathComponent { path } => Refusal::EmptyComponent { path },
        CommitEditsError::InvalidFilename {
            filename: name,
            kind,
            id,
            source: _,
        } => Refusal::Filename { id, kind, name },
        CommitEditsError::MissingObject {
            filename: name,
            id,
            ..
        } => Refusal::Missing { id, name },
        CommitEditsError::WriteObject { field } => Refusal::Unwritable { field },
        CommitEditsError::Cycle { name } => Refusal::Cycle { name },
        CommitEditsError::DepthLimitExceeded { name } => Refusal::Depth { name },
        CommitEditsError::MustExist { name } => Refusal::MustExist { name },
        CommitEditsError::MustNotExist { name, actual } => Refusal::MustNotExist { name, actual },
        CommitEditsError::ReferenceOutOfDate {
            name,
            expected,
            actual,
        } => Refusal::OutOfDate {
            name,
            expected,
            actual,
        },
        CommitEditsError::NameConflict { name, other } => Refusal::Conflict { name, other },
        CommitEditsError::Store { what } => return Err(ExecuteError::Store { what }),
        CommitEditsError::NoMemory => return Err(ExecuteError::NoMemory),
    })
}

/// The reply that a commit gets, or that it gets none.
fn commit_reply(outcome: Result<ObjectId, CommitEditsError>) -> Result<Reply, ExecuteError>
    ensures { result ≡ reply_by commit_answer commit_tells outcome }
{
    match outcome {
        Ok(id) => Ok(Reply::Accepted(Answer::Id(id))),
        Err(refusal) => refused(commit_tells(refusal)),
    }
}

/// Makes the commit that is asked for.
pub(crate) fn commit<S: Store>(
    alloc: Global,
    repo: &mut Repository<S>,
    asked: &CommitRequest,
) -> Result<Reply, ExecuteError>
    requires { HaveModuleIds asked.now.edits }
    ensures { Executes (commit_call asked.now) (held_by S.state repo.old) result (held_by S.state repo.new) }
{
    commit_reply(repo.commit_edits(
        alloc,
        &asked.committer,
        &asked.author,
        &asked.name,
        asked.message.as_slice(),
        asked.parents.as_slice(),
        asked.edits.as_slice(),
    ))
}
