//! How a request is run.

ghost use Rattle.std.specs.Prelude.{◌≡◌, IfOk, IfErr};
ghost use Rattle.gix.specs.Repository.{held_by, store_of};
ghost use Rattle.gx_tool.specs.Call.{Executes, refused};
ghost use Rattle.gx_tool.specs.LogForm.{store_tells};
ghost use Rattle.gx_tool.specs.Machine.{IsReply};
ghost use Rattle.gx_tool.specs.Serving.{Stops, call_of};

use crate::commit_form::commit;
use crate::delete_form::delete;
use crate::laws::call_laws;
use crate::log_form::log;
use crate::ref_form::set_reference;
use crate::refs_form::refs;
use crate::refusal::Refusal;
use crate::reply::Reply;
use gix::Repository;
use gx_object::Time;
use gx_script::Request;
use gx_store::{Store, StoreError, What};
use std::alloc::Global;
use thiserror::Error;

/// Why a request got no reply.
#[derive(Debug, Drop, Error)]
pub enum ExecuteError {
    #[error("the store failed at {what:?}")]
    Store { what: What },
    #[error("out of memory")]
    NoMemory,
}

/// A refusal is a reply.
pub(crate) fn refused(told: Result<Refusal, ExecuteError>) -> Result<Reply, ExecuteError>
    ensures { result ≡ refused told }
{
    match told {
        Ok(refusal) => Ok(Reply::Refused(refusal)),
        Err(error) => Err(error),
    }
}

/// An error of the store gets no reply.
pub(crate) fn store_tells(error: StoreError) -> Result<Refusal, ExecuteError>
    ensures { result ≡ store_tells error }
{
    match error {
        StoreError::Fault { what } => Err(ExecuteError::Store { what }),
        StoreError::NoMemory => Err(ExecuteError::NoMemory),
    }
}

/// Makes the call that a request asks for.
#[tactic(auto, unfolding(crate::specs::Serving::call_of))]
fn call<S: Store>(
    alloc: Global,
    repo: &mut Repository<S>,
    request: &Request,
) -> Result<Reply, ExecuteError>
    requires { (call_of request.now).needs (S.state (store_of repo.old)).hash }
    ensures { Executes (call_of request.now) (held_by S.state repo.old) result (held_by S.state repo.new) }
{
    match request {
        Request::Commit(asked) => commit(alloc, repo, asked),
        Request::Log(name) => log(alloc, repo, name),
        Request::Refs(prefix) => refs(alloc, repo, prefix),
        Request::Ref(asked) => set_reference(alloc, repo, asked),
        Request::Delete { name, expect } => delete(alloc, repo, name, expect),
        _ => Ok(Reply::Refused(Refusal::Unsupported)),
    }
}

/// Runs a request on a repository. `now` is the moment for requests that need one, of which there are none yet.
pub fn execute<S: Store>(
    alloc: Global,
    repo: &mut Repository<S>,
    _now: Time,
    request: &Request,
) -> Result<Reply, ExecuteError>
    requires { (call_of request.now).needs (S.state (store_of repo.old)).hash }
    ensures reply { IfOk result (λ reply. IsReply (held_by S.state repo.old) request.now reply
        (held_by S.state repo.new)) }
    ensures stops { IfErr result (Stops (held_by S.state repo.old) request.now (held_by S.state repo.new)) }
{
    call_laws();
    call(alloc, repo, request)
}
