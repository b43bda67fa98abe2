//! Steps of `store` rows on references and their logs.
ghost use Rattle.std.specs.Prelude.{◌≡◌, IfOk};
ghost use Rattle.gx_store.specs.Kinds.{IsTargetChangeOfKind, IsActOfKind};

use crate::faults::{push_target, reference_error, store_error};
use crate::logs::{due, line_bytes, person};
use crate::store::only;
use crate::values::{has_word, id_in, mode_in, name_in};
use gx_hash::{Bytes, HashKind, ObjectId};
use gx_refs::{Chain, RefError, WriteReflog, chain, move_end, resolve};
use gx_rules::FullName;
use gx_store::{
    Lines, LogAct, LogLine, Memory, Names, Objects, RefChange, References, StoreError, Target,
    TargetChange,
};
use probe_rows::ProbeError;
use probe_rows::answers::{id_of, push_field, push_word, quoted, shown, truth, word};
use std::alloc::Global;

/// The answer of a call that reads references or their logs.
pub fn read_by(
    alloc: Global,
    store: &Memory,
    call: &str,
    fields: &[Vec<u8>],
) -> Result<Vec<u8>, ProbeError> {
    match call {
        "list" => list(alloc, store, only(fields)?),
        "find" => find(alloc, store, &only_name(alloc, fields)?),
        "find_conflict" => conflict(alloc, store, &only_name(alloc, fields)?),
        "chain" => chain_from(alloc, store, &only_name(alloc, fields)?),
        "resolve" => resolved(alloc, store, &only_name(alloc, fields)?),
        _ => read_log_by(alloc, store, call, fields),
    }
}

/// The answer of a call that reads logs.
fn read_log_by(
    alloc: Global,
    store: &Memory,
    call: &str,
    fields: &[Vec<u8>],
) -> Result<Vec<u8>, ProbeError> {
    match call {
        "log" => log(alloc, store, &only_name(alloc, fields)?),
        "last_line" => last_line(alloc, store, &only_name(alloc, fields)?),
        "log_exists" => log_exists(alloc, store, &only_name(alloc, fields)?),
        "is_due" => due_here(alloc, store, fields),
        _ => Err(ProbeError::UnknownCall),
    }
}

fn only_name(alloc: Global, fields: &[Vec<u8>]) -> Result<FullName, ProbeError> {
    name_in(alloc, only(fields)?)
}

fn list(alloc: Global, store: &Memory, prefix: &[u8]) -> Result<Vec<u8>, ProbeError> {
    match store.list(alloc, prefix) {
        Ok(names) => told_names(alloc, &names),
        Err(error) => store_error(alloc, &error),
    }
}

pub fn told_names(alloc: Global, names: &Names) -> Result<Vec<u8>, ProbeError> {
    let mut answer = Vec::new(alloc);
    push_names(&mut answer, names)?;
    if answer.is_empty() {
        push_word(&mut answer, "none")?;
    }
    Ok(answer)
}

fn push_names(answer: &mut Vec<u8>, names: &Names) -> Result<(), ProbeError> {
    for name in names.as_slice() {
        push_field(answer, name.as_slice())?;
    }
    Ok(())
}

fn find(alloc: Global, store: &Memory, name: &FullName) -> Result<Vec<u8>, ProbeError> {
    match store.find(alloc, name) {
        Ok(found) => told_target(alloc, &found),
        Err(error) => store_error(alloc, &error),
    }
}

fn told_target(alloc: Global, target: &Option<Target>) -> Result<Vec<u8>, ProbeError> {
    let mut answer = Vec::new(alloc);
    push_found(&mut answer, target)?;
    Ok(answer)
}

fn push_found(answer: &mut Vec<u8>, target: &Option<Target>) -> Result<(), ProbeError> {
    match target {
        None => push_word(answer, "none"),
        Some(target) => push_target(answer, target),
    }
}

fn conflict(alloc: Global, store: &Memory, name: &FullName) -> Result<Vec<u8>, ProbeError> {
    match store.find_conflict(alloc, name) {
        Ok(Some(other)) => quoted(alloc, other.as_slice()),
        Ok(None) => word(alloc, "none"),
        Err(error) => store_error(alloc, &error),
    }
}

fn log(alloc: Global, store: &Memory, name: &FullName) -> Result<Vec<u8>, ProbeError> {
    match store.log(alloc, name) {
        Ok(Some(lines)) => told_lines(alloc, &lines),
        Ok(None) => word(alloc, "none"),
        Err(error) => store_error(alloc, &error),
    }
}

pub fn told_lines(alloc: Global, lines: &Lines) -> Result<Vec<u8>, ProbeError> {
    let mut answer = Vec::new(alloc);
    for line in lines.as_slice() {
        push_line(alloc, &mut answer, line)?;
    }
    Ok(answer)
}

fn push_line(alloc: Global, answer: &mut Vec<u8>, line: &LogLine) -> Result<(), ProbeError> {
    let bytes = line_bytes(alloc, line)?;
    push_field(answer, &bytes)
}

fn last_line(alloc: Global, store: &Memory, name: &FullName) -> Result<Vec<u8>, ProbeError> {
    match store.log(alloc, name) {
        Ok(Some(lines)) => count_and_last(alloc, lines.as_slice()),
        Ok(None) => word(alloc, "none"),
        Err(error) => store_error(alloc, &error),
    }
}

/// The number of lines, and the last of them.
fn count_and_last(alloc: Global, lines: &[LogLine]) -> Result<Vec<u8>, ProbeError> {
    let mut answer = shown(alloc, &lines.len())?;
    if let Some(line) = lines.last() {
        push_line(alloc, &mut answer, line)?;
    }
    Ok(answer)
}

fn log_exists(alloc: Global, store: &Memory, name: &FullName) -> Result<Vec<u8>, ProbeError> {
    match store.log_exists(alloc, name) {
        Ok(found) => truth(alloc, found),
        Err(error) => store_error(alloc, &error),
    }
}

fn chain_from(alloc: Global, store: &Memory, name: &FullName) -> Result<Vec<u8>, ProbeError> {
    match chain(alloc, store, name) {
        Ok(names) => told_names(alloc, &names),
        Err(error) => reference_error(alloc, &error),
    }
}

fn resolved(alloc: Global, store: &Memory, name: &FullName) -> Result<Vec<u8>, ProbeError> {
    match resolve(alloc, store, name) {
        Ok(chain) => told_chain(alloc, &chain),
        Err(error) => reference_error(alloc, &RefError::from(error)),
    }
}

fn told_chain(alloc: Global, chain: &Chain) -> Result<Vec<u8>, ProbeError> {
    let mut answer = told_names(alloc, &chain.names)?;
    push_word(&mut answer, "->")?;
    push_found(&mut answer, &chain.target)?;
    Ok(answer)
}

fn due_here(alloc: Global, store: &Memory, fields: &[Vec<u8>]) -> Result<Vec<u8>, ProbeError> {
    let [mode, name, words @ ..] = fields else {
        return Err(ProbeError::BadLine);
    };
    let mode = mode_in(mode)?;
    let name = name_in(alloc, name)?;
    due(alloc, store, mode, &name, has_word(words, b"force"))
}

/// A change of the name. Its target is kept or removed, or becomes an id of the kind, or else another name. Its log is
/// kept or removed, or else gets a line with the message.
fn change_in(
    alloc: Global,
    hash: HashKind,
    name: &[u8],
    target: &[u8],
    log: &[u8],
) -> Result<RefChange, ProbeError>
    ensures name { IfOk result (λ change. change.name ≡ name.now) }
    ensures target { IfOk result (λ change. IsTargetChangeOfKind hash change.target) }
    ensures log { IfOk result (λ change. IsActOfKind hash change.log) }
{
    Ok(RefChange {
        name: name_in(alloc, name)?,
        target: target_in(alloc, hash, target)?,
        log: log_in(alloc, hash, log)?,
    })
}

fn target_in(alloc: Global, hash: HashKind, field: &[u8]) -> Result<TargetChange, ProbeError>
    ensures { IfOk result (IsTargetChangeOfKind hash) }
{
    match field {
        b"keep" => Ok(TargetChange::Keep),
        b"remove" => Ok(TargetChange::Remove),
        _ => match id_of(field) {
            None => Ok(TargetChange::Set(Target::Symbolic(name_in(alloc, field)?))),
            Some(id) if id.kind() == hash => Ok(TargetChange::Set(Target::Object(id))),
            Some(_) => Err(ProbeError::BadLine),
        },
    }
}

fn log_in(alloc: Global, hash: HashKind, field: &[u8]) -> Result<LogAct, ProbeError>
    ensures { IfOk result (IsActOfKind hash) }
{
    match field {
        b"keep" => Ok(LogAct::Keep),
        b"remove" => Ok(LogAct::Remove),
        message => Ok(LogAct::Append(LogLine {
            previous: hash.null(),
            new: hash.empty_blob(),
            signature: person(alloc)?,
            message: Bytes::from_slice(alloc, message)?,
        })),
    }
}

/// Makes the change of a name, or the changes of two names in one call.
pub fn apply(alloc: Global, store: &mut Memory, fields: &[Vec<u8>]) -> Result<Vec<u8>, ProbeError> {
    match fields {
        [name, target, log] => apply_one(alloc, store, name, target, log),
        [name, target, log, other, other_target, other_log] => apply_two(
            alloc,
            store,
            [name, target, log],
            [other, other_target, other_log],
        ),
        _ => Err(ProbeError::BadLine),
    }
}

pub fn apply_one(
    alloc: Global,
    store: &mut Memory,
    name: &[u8],
    target: &[u8],
    log: &[u8],
) -> Result<Vec<u8>, ProbeError> {
    let changes = [change_in(alloc, store.hash_kind(), name, target, log)?];
    outcome(alloc, store.apply(alloc, &changes))
}

fn apply_two(
    alloc: Global,
    store: &mut Memory,
    first: [&[u8]; 3],
    second: [&[u8]; 3],
) -> Result<Vec<u8>, ProbeError> {
    if first[0] == second[0] {
        return Err(ProbeError::BadLine);
    }
    let hash = store.hash_kind();
    let changes = [
        change_in(alloc, hash, first[0], first[1], first[2])?,
        change_in(alloc, hash, second[0], second[1], second[2])?,
    ];
    outcome(alloc, store.apply(alloc, &changes))
}

fn outcome(alloc: Global, made: Result<(), StoreError>) -> Result<Vec<u8>, ProbeError> {
    match made {
        Ok(()) => word(alloc, "ok"),
        Err(error) => store_error(alloc, &error),
    }
}

/// Lets each of the names lead to the next, up to a change that fails.
pub fn lead(alloc: Global, store: &mut Memory, names: &[Vec<u8>]) -> Result<Vec<u8>, ProbeError> {
    for pair in names.windows(2) {
        if let [from, to] = pair {
            let answer = apply_one(alloc, store, from, to, b"keep")?;
            if answer.as_slice() != b"ok".as_slice() {
                return Ok(answer);
            }
        }
    }
    word(alloc, "ok")
}

/// Moves the end of a name's chain.
pub fn move_by(
    alloc: Global,
    store: &mut Memory,
    fields: &[Vec<u8>],
) -> Result<Vec<u8>, ProbeError> {
    let [mode, name, id, message] = fields else {
        return Err(ProbeError::BadLine);
    };
    let name = name_in(alloc, name)?;
    move_to(alloc, store, mode_in(mode)?, &name, id_in(id)?, message)
}

fn move_to(
    alloc: Global,
    store: &mut Memory,
    mode: WriteReflog,
    name: &FullName,
    id: ObjectId,
    message: &[u8],
) -> Result<Vec<u8>, ProbeError> {
    let who = person(alloc)?;
    if id.kind() != store.hash_kind() {
        return Err(ProbeError::BadLine);
    }
    let chain = match resolve(alloc, store, name) {
        Ok(chain) => chain,
        Err(error) => return reference_error(alloc, &RefError::from(error)),
    };
    match move_end(alloc, store, mode, &chain, id, &who, message) {
        Ok(changes) => outcome(alloc, store.apply(alloc, &changes)),
        Err(error) => store_error(alloc, &error),
    }
}
