//! The form `refs`.

ghost use Rattle.std.specs.Prelude.{◌≡◌};
ghost use Rattle.gix.specs.Repository.{held_by};
ghost use Rattle.gx_tool.specs.Call.{Executes, reply_by};
ghost use Rattle.gx_tool.specs.RefsForm.{asked_prefix, refs_answer, refs_call, refs_tells};

use crate::answer::Answer;
use crate::executing::{ExecuteError, refused};
use crate::refusal::Refusal;
use crate::reply::Reply;
use gix::Repository;
use gix::reference::iter::{IterError, ReferenceList};
use gx_hash::Bytes;
use gx_store::Store;
use std::alloc::Global;

/// The prefix of the names that are asked for.
fn asked_prefix(prefix: &Option<Bytes>) -> &[u8]
    ensures { result.now ≡ asked_prefix prefix.now }
{
    match prefix {
        None => b"refs/",
        Some(prefix) => prefix.as_slice(),
    }
}

/// What is replied to a listing that is refused, or that it gets no reply.
fn refs_tells(refusal: IterError) -> Result<Refusal, ExecuteError>
    ensures { result ≡ refs_tells refusal }
{
    match refusal {
        IterError::RelativePath => Ok(Refusal::RelativePath),
        IterError::Store { what } => Err(ExecuteError::Store { what }),
        IterError::NoMemory => Err(ExecuteError::NoMemory),
    }
}

/// The reply that a listing gets, or that it gets none.
fn refs_reply(outcome: Result<ReferenceList, IterError>) -> Result<Reply, ExecuteError>
    ensures { result ≡ reply_by refs_answer refs_tells outcome }
{
    match outcome {
        Ok(references) => Ok(Reply::Accepted(Answer::References(references))),
        Err(refusal) => refused(refs_tells(refusal)),
    }
}

/// Lists the references that are asked for.
pub(crate) fn refs<S: Store>(
    alloc: Global,
    repo: &mut Repository<S>,
    prefix: &Option<Bytes>,
) -> Result<Reply, ExecuteError>
    ensures { Executes (refs_call prefix.now) (held_by S.state repo.old) result (held_by S.state repo.new) }
{
    refs_reply(repo.references().prefixed(alloc, asked_prefix(prefix)))
}
