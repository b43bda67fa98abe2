//! Rows of objects that are written through a repository, and found.
//!
//! `writes KIND STEP ; STEP ..` answers each step on a new repository in memory.
//! - `find_header ID`, `try_header ID` and `has_object ID` are its calls.
//! - `write_blob BYTES` and `write_buf KIND BYTES` answer an id; `write_known KIND BYTES` hands in the id.
//! - `write_blob_stream CALL BYTES`, `write_stream CALL KIND SIZE BYTES` and
//!   `write_stream_known CALL KIND SIZE ID BYTES` write a source that fails at that call, counted from 1, and gives two
//!   bytes at once.
//! - `shorten ID` and others: see abbreviations.rt. `commit ..` and `new_commit ..`: see commits.rt.
//! - All other steps are those of `store` rows.

use crate::faults::{find_error, try_find_error, write_error};
use crate::store::{answer_step, only, push_answer};
use crate::values::{hash_in, id_in, kind_in, number_in, word_in};
use crate::{abbreviations, commits};
use gix::object::write::WriteError;
use gix::{Header, Repository, Settings};
use gx_hash::{Bytes, ObjectId, object_id};
use gx_object::Kind;
use gx_store::{Calls, Memory, MemorySource};
use probe_rows::ProbeError;
use probe_rows::answers::{hex, push_shown, truth, word};
use std::alloc::Global;

/// The answer of `writes`.
pub fn answer(alloc: Global, fields: &[Vec<u8>]) -> Result<Vec<u8>, ProbeError> {
    let Some((kind, words)) = fields.split_first() else {
        return Err(ProbeError::BadLine);
    };
    let mut repo = Repository::new(Memory::new(alloc, hash_in(kind)?)?, Settings::new());
    let mut answers = Vec::new(alloc);
    for step in words.split(|field| field.as_slice() == b";".as_slice()) {
        repo = stepped(alloc, repo, step, &mut answers)?;
    }
    Ok(answers)
}

/// Takes a step, and appends its answer.
fn stepped(
    alloc: Global,
    mut repo: Repository<Memory>,
    step: &[Vec<u8>],
    answers: &mut Vec<u8>,
) -> Result<Repository<Memory>, ProbeError> {
    let Some((call, fields)) = step.split_first() else {
        return Err(ProbeError::BadLine);
    };
    let call = word_in(call)?;
    match called(alloc, &mut repo, call, fields) {
        Err(ProbeError::UnknownCall) => {}
        answer => {
            push_answer(answers, &answer?)?;
            return Ok(repo);
        }
    }
    let settings = repo.set_settings(Settings::new());
    let mut store = repo.into_store();
    let answer = answer_step(alloc, &mut store, step)?;
    push_answer(answers, &answer)?;
    Ok(Repository::new(store, settings))
}

/// The answer of a call of the repository.
fn called(
    alloc: Global,
    repo: &mut Repository<Memory>,
    call: &str,
    fields: &[Vec<u8>],
) -> Result<Vec<u8>, ProbeError> {
    match found(alloc, repo, call, fields) {
        Err(ProbeError::UnknownCall) => {}
        answer => return answer,
    }
    match wrote(alloc, repo, call, fields) {
        Err(ProbeError::UnknownCall) => {}
        answer => return answer,
    }
    match abbreviations::answer(alloc, repo, call, fields) {
        Err(ProbeError::UnknownCall) => commits::answer(alloc, repo, call, fields),
        answer => answer,
    }
}

/// The answer of a call that finds an object.
fn found(
    alloc: Global,
    repo: &Repository<Memory>,
    call: &str,
    fields: &[Vec<u8>],
) -> Result<Vec<u8>, ProbeError> {
    match call {
        "find_header" => found_header(alloc, repo, id_in(only(fields)?)?),
        "try_header" => tried_header(alloc, repo, id_in(only(fields)?)?),
        "has_object" => has_object(alloc, repo, id_in(only(fields)?)?),
        _ => Err(ProbeError::UnknownCall),
    }
}

fn shown_header(alloc: Global, header: &Header) -> Result<Vec<u8>, ProbeError> {
    let mut answer = Vec::from_slice(alloc, header.kind.as_bytes())?;
    push_shown(alloc, &mut answer, &header.size)?;
    Ok(answer)
}

fn found_header(
    alloc: Global,
    repo: &Repository<Memory>,
    id: ObjectId,
) -> Result<Vec<u8>, ProbeError> {
    match repo.find_header(alloc, id) {
        Ok(header) => shown_header(alloc, &header),
        Err(error) => find_error(alloc, &error),
    }
}

fn tried_header(
    alloc: Global,
    repo: &Repository<Memory>,
    id: ObjectId,
) -> Result<Vec<u8>, ProbeError> {
    match repo.try_header(alloc, &id) {
        Ok(Some(header)) => shown_header(alloc, &header),
        Ok(None) => word(alloc, "none"),
        Err(error) => try_find_error(alloc, &error),
    }
}

fn has_object(
    alloc: Global,
    repo: &Repository<Memory>,
    id: ObjectId,
) -> Result<Vec<u8>, ProbeError> {
    match repo.has_object(alloc, &id) {
        Ok(holds) => truth(alloc, holds),
        Err(error) => try_find_error(alloc, &error),
    }
}

/// The answer of a call that writes an object.
fn wrote(
    alloc: Global,
    repo: &mut Repository<Memory>,
    call: &str,
    fields: &[Vec<u8>],
) -> Result<Vec<u8>, ProbeError> {
    match (call, fields) {
        ("write_blob", [bytes]) => told(alloc, repo.write_blob(alloc, bytes)),
        ("write_buf", [kind, bytes]) => told(alloc, repo.write_buf(alloc, kind_in(kind)?, bytes)),
        ("write_known", [kind, bytes]) => told(
            alloc,
            write_known(alloc, repo, kind_in(kind)?, bytes),
        ),
        ("write_blob_stream", [call, bytes]) => {
            let mut source = source_of(alloc, call, bytes)?;
            told(alloc, repo.write_blob_stream(alloc, &mut source))
        }
        ("write_stream", [call, kind, size, bytes]) => {
            let mut source = source_of(alloc, call, bytes)?;
            told(
                alloc,
                repo.write_stream(alloc, kind_in(kind)?, number_in(size)?, &mut source),
            )
        }
        ("write_stream_known", [call, kind, size, id, bytes]) => {
            let mut source = source_of(alloc, call, bytes)?;
            let (kind, size, id) = (kind_in(kind)?, number_in(size)?, id_in(id)?);
            told(
                alloc,
                repo.write_stream_with_known_id(alloc, kind, size, &mut source, id),
            )
        }
        _ => Err(ProbeError::UnknownCall),
    }
}

fn write_known(
    alloc: Global,
    repo: &mut Repository<Memory>,
    kind: Kind,
    bytes: &[u8],
) -> Result<ObjectId, WriteError> {
    let id = object_id(repo.object_hash(), kind.as_bytes(), bytes);
    repo.write_buf_with_known_id(alloc, kind, bytes, id)
}

/// A source of these bytes, which gives two at once and fails at the call.
fn source_of(alloc: Global, call: &[u8], bytes: &[u8]) -> Result<MemorySource, ProbeError> {
    let mut failing = Vec::new(alloc);
    failing.push(number_in(call)?)?;
    let bytes = Bytes::from_slice(alloc, bytes)?;
    Ok(MemorySource::chunked(bytes, Calls::from_vec(failing), 2))
}

fn told(alloc: Global, answer: Result<ObjectId, WriteError>) -> Result<Vec<u8>, ProbeError> {
    match answer {
        Ok(id) => hex(alloc, &id),
        Err(error) => write_error(alloc, &error),
    }
}
