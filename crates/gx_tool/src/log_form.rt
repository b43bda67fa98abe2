//! The form `log`.

ghost use Rattle.std.specs.Prelude.{◌≡◌};
ghost use Rattle.gix.specs.Repository.{held_by};
ghost use Rattle.gx_tool.specs.Call.{Executes, reply_by};
ghost use Rattle.gx_tool.specs.LogForm.{log_answer, log_call, store_tells};

use crate::answer::Answer;
use crate::executing::{ExecuteError, refused, store_tells};
use crate::reply::Reply;
use gix::Repository;
use gx_rules::FullName;
use gx_store::{Lines, Store, StoreError};
use std::alloc::Global;

/// The reply that a log gets, or that it gets none.
fn log_reply(outcome: Result<Option<Lines>, StoreError>) -> Result<Reply, ExecuteError>
    ensures { result ≡ reply_by log_answer store_tells outcome }
{
    match outcome {
        Ok(log) => Ok(Reply::Accepted(Answer::Log(log))),
        Err(error) => refused(store_tells(error)),
    }
}

/// Reads the log that is asked for.
pub(crate) fn log<S: Store>(
    alloc: Global,
    repo: &mut Repository<S>,
    name: &FullName,
) -> Result<Reply, ExecuteError>
    ensures { Executes (log_call name.now) (held_by S.state repo.old) result (held_by S.state repo.new) }
{
    log_reply(repo.log(alloc, name))
}
