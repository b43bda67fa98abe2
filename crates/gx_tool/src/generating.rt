//! Commits of the generator, one over the other, and three lines that tell of them.

ghost use Rattle.std.specs.Prelude.{◌≡◌, ◌++◌, IfErr, IfOk, OnOk};
ghost use Rattle.gix.specs.CommitRequest.{HaveModuleIds};
ghost use Rattle.gix.specs.Repository.{held_by};
ghost use Rattle.gx_script.specs.declared.request.Request.TheVariants.{Commit};
ghost use Rattle.gx_tool.specs.Generating.{Generates, commits_line, head_line, last_id, root_line, root_of, scene_of, summary_text};
ghost use Rattle.gx_tool.specs.Progress.{HasBroken, IsOutcome, IsProgress, IsTold, outcome_told};
ghost use Rattle.gx_tool.specs.Serving.{Stops};

use crate::commit_form::commit_tells;
use crate::executing::ExecuteError;
use crate::generator::{FIRST_NUMBER, commit_of, number_after};
use crate::laws::call_laws;
use crate::refusal::Refusal;
use crate::running::write_all;
use crate::status::Status;
use gix::{MadeCommit, Repository};
use gx_hash::{Bytes, HashKind, NoMemory, ObjectId};
use gx_script::CommitRequest;
use gx_store::{Sink, SinkError, Store};
use itoa::Buffer;
use std::alloc::Global;

/// What the request for a commit came to.
#[derive(Clone, Copy)]
pub(crate) enum Outcome {
    Accepted(MadeCommit),
    Refused,
}

/// How many commits were made, the last of them, and whether the next one was refused.
#[derive(Clone, Copy)]
pub(crate) struct Progress {
    count: u32,
    last: Option<MadeCommit>,
    refused: bool,
}

impl Progress {
    fn last_id(&self) -> Option<ObjectId>
        ensures { result ≡ last_id self.now.last }
    {
        match self.last {
            Some(made) => Some(made.id),
            None => None,
        }
    }
}

/// What a refusal comes to, or an error that gets no reply.
fn outcome_told(told: Result<Refusal, ExecuteError>) -> Result<Outcome, ExecuteError>
    ensures { result ≡ outcome_told told }
{
    match told {
        Ok(_) => Ok(Outcome::Refused),
        Err(error) => Err(error),
    }
}

/// Makes the commit that is asked for.
fn commit_next<S: Store>(
    alloc: Global,
    repo: &mut Repository<S>,
    asked: &CommitRequest,
) -> Result<Outcome, ExecuteError>
    requires { HaveModuleIds asked.now.edits }
    ensures ok { IfOk result (λ outcome. IsOutcome (held_by S.state repo.old) asked.now outcome
        (held_by S.state repo.new)) }
    ensures err { IfErr result (Stops (held_by S.state repo.old) (Commit asked.now) (held_by S.state repo.new)) }
{
    call_laws();
    let outcome = repo.make_commit(
        alloc,
        &asked.committer,
        &asked.author,
        &asked.name,
        asked.message.as_slice(),
        asked.parents.as_slice(),
        asked.edits.as_slice(),
    );
    match outcome {
        Ok(made) => Ok(Outcome::Accepted(made)),
        Err(refusal) => outcome_told(commit_tells(refusal)),
    }
}

/// Makes this many commits, or those before the first that is refused.
fn commit_all<S: Store>(
    alloc: Global,
    repo: &mut Repository<S>,
    count: u32,
) -> Result<Progress, ExecuteError>
    ensures ok { IfOk result (λ progress. IsProgress count (held_by S.state repo.old) progress
        (held_by S.state repo.new)) }
    ensures err { IfErr result (HasBroken count (held_by S.state repo.old) (held_by S.state repo.new)) }
{
    let mut progress = Progress {
        count: 0,
        last: None,
        refused: false,
    };
    let mut number = FIRST_NUMBER;
    'commits: while progress.count < count {
        number = number_after(number);
        let asked = match commit_of(alloc, progress.count + 1, number, progress.last_id()) {
            Ok(asked) => asked,
            Err(_) => return Err(ExecuteError::NoMemory),
        };
        match commit_next(alloc, repo, &asked) {
            Ok(Outcome::Accepted(made)) => {
                progress = Progress {
                    count: progress.count + 1,
                    last: Some(made),
                    refused: false,
                };
            }
            Ok(Outcome::Refused) => {
                return Ok(Progress {
                    count: progress.count,
                    last: progress.last,
                    refused: true,
                });
            }
            Err(error) => return Err(error),
        }
    }
    Ok(progress)
}

/// The tree of the last commit, or the empty one.
fn root_of(hash: HashKind, last: Option<MadeCommit>) -> ObjectId
    ensures { result ≡ root_of hash last }
{
    match last {
        Some(made) => made.tree,
        None => ObjectId::empty_tree(hash),
    }
}

fn push_count(out: &mut Vec<u8>, count: u32) -> Result<(), NoMemory>
    ensures ok { OnOk result (out.new.items ≡ out.old.items ++ commits_line count) }
{
    let mut buffer = Buffer::new();
    out.extend_from_slice(b"commits ")?;
    out.extend_from_slice(buffer.format(count).as_bytes())?;
    out.push(b'\n')?;
    Ok(())
}

fn push_root(out: &mut Vec<u8>, root: &ObjectId) -> Result<(), NoMemory>
    ensures ok { OnOk result (out.new.items ≡ out.old.items ++ root_line root.now) }
{
    out.extend_from_slice(b"root ")?;
    root.push_hex(out)?;
    out.push(b'\n')?;
    Ok(())
}

fn push_head(out: &mut Vec<u8>, head: &Option<ObjectId>) -> Result<(), NoMemory>
    ensures ok { OnOk result (out.new.items ≡ out.old.items ++ head_line head.now) }
{
    out.extend_from_slice(b"head ")?;
    match head {
        Some(id) => id.push_hex(out)?,
        None => out.extend_from_slice(b"none")?,
    }
    out.push(b'\n')?;
    Ok(())
}

/// The three lines.
fn summary(alloc: Global, hash: HashKind, progress: &Progress) -> Result<Bytes, NoMemory>
    ensures { IfOk result (λ text. text ≡ summary_text hash progress.now.count progress.now.last) }
{
    let mut out = Vec::new(alloc);
    push_count(&mut out, progress.count)?;
    push_root(&mut out, &root_of(hash, progress.last))?;
    push_head(&mut out, &progress.last_id())?;
    Ok(Bytes::from_vec(out))
}

/// Writes the three lines, and answers how the run ended.
fn tell<O: Sink>(alloc: Global, hash: HashKind, progress: &Progress, output: &mut O) -> Status
    ensures { IsTold (summary_text hash progress.now.count progress.now.last) (O.written output.old)
        (O.written output.new) (O.faults output.old) (O.faults output.new) progress.now result }
{
    let text = match summary(alloc, hash, progress) {
        Ok(text) => text,
        Err(_) => return Status::NoMemory,
    };
    match write_all(output, text.as_slice()) {
        Ok(()) => {}
        Err(SinkError::Failed) => return Status::WriteFault,
        Err(SinkError::NoMemory) => return Status::NoMemory,
    }
    if progress.refused {
        return Status::Refusals;
    }
    Status::Done
}

/// Makes this many commits of the generator, and tells of them.
pub(crate) fn generate<S: Store, O: Sink>(
    alloc: Global,
    count: u32,
    repo: &mut Repository<S>,
    output: &mut O,
) -> Status
    ensures { Generates count (scene_of S.state O.written O.faults repo.old output.old)
        (scene_of S.state O.written O.faults repo.new output.new) result }
{
    let hash = repo.object_hash();
    let progress = match commit_all(alloc, repo, count) {
        Ok(progress) => progress,
        Err(ExecuteError::Store { .. }) => return Status::StoreFault,
        Err(ExecuteError::NoMemory) => return Status::NoMemory,
    };
    tell(alloc, hash, &progress, output)
}
