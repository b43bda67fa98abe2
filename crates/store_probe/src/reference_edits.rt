//! Steps of `store` rows that edit references, find them by a part of their names, and list them.
//!
//! `edit SPACE LOGS WHO EDIT..` makes the edits: in a namespace, or none by `-`; by the setting of logs; signed by a
//! committer, who is `someone`, `none`, or one of whom a part can't be written, `bad-name`, `bad-email` or
//! `bad-offset`. An edit is four fields: a name; an id, the name that a symbolic reference leads to, or `delete`; what
//! is expected, as `any`, `exists`, `absent`, `!TARGET` (exists so) or `?TARGET` (is absent, or exists so); and how, as
//! `-` or some of `deref`, `force` and `only` with commas. The answer tells the edits that were made in the same words.
ghost use Rattle.std.specs.Prelude.{IfOk};
ghost use Rattle.gx_store.specs.Kinds.{IsTargetOfKind};
ghost use Rattle.gx_refs.specs.Prepared.{AreEditsOfKind, SetsKind};

use crate::committers::committer_in;
use crate::faults::{push_target, reference_error};
use crate::references::told_names;
use crate::values::{mode_in, name_in};
use gx_hash::{Bytes, HashKind};
use gx_refs::{Change, Edits, LogChange, PreviousValue, RefEdit, RefLog, find, iterate, prepare};
use gx_rules::{Namespace, PartialName, expand_namespace};
use gx_store::{Memory, Objects, Target};
use probe_rows::ProbeError;
use probe_rows::answers::{id_of, push_field, push_word, word};
use std::alloc::Global;

/// The answer of a call that finds or lists references.
pub fn read_by(
    alloc: Global,
    store: &Memory,
    call: &str,
    fields: &[Vec<u8>],
) -> Result<Vec<u8>, ProbeError> {
    match call {
        "reference" => reference(alloc, store, fields),
        "iterate" => listing(alloc, store, fields),
        _ => Err(ProbeError::UnknownCall),
    }
}

fn reference(alloc: Global, store: &Memory, fields: &[Vec<u8>]) -> Result<Vec<u8>, ProbeError> {
    let [space, name] = fields else {
        return Err(ProbeError::BadLine);
    };
    let space = space_in(alloc, space)?;
    let name = partial_in(alloc, name)?;
    match find(alloc, store, space.as_ref(), &name) {
        Ok(None) => word(alloc, "none"),
        Ok(Some(found)) => {
            let mut answer = Vec::new(alloc);
            push_field(&mut answer, found.name.as_slice())?;
            push_target(&mut answer, &found.target)?;
            Ok(answer)
        }
        Err(error) => reference_error(alloc, &error),
    }
}

fn listing(alloc: Global, store: &Memory, fields: &[Vec<u8>]) -> Result<Vec<u8>, ProbeError> {
    let [space, prefix] = fields else {
        return Err(ProbeError::BadLine);
    };
    let space = space_in(alloc, space)?;
    match iterate(alloc, store, space.as_ref(), prefix) {
        Ok(names) => told_names(alloc, &names),
        Err(error) => reference_error(alloc, &error),
    }
}

/// Prepares edits, and commits them.
pub fn edit_by(
    alloc: Global,
    store: &mut Memory,
    fields: &[Vec<u8>],
) -> Result<Vec<u8>, ProbeError> {
    let [space, mode, who, words @ ..] = fields else {
        return Err(ProbeError::BadLine);
    };
    let space = space_in(alloc, space)?;
    let mode = mode_in(mode)?;
    let who = committer_in(alloc, who)?;
    let edits = edits_in(alloc, store.hash_kind(), words)?;
    let prepared = match prepare(alloc, store, space.as_ref(), edits, mode, who.as_ref()) {
        Ok(prepared) => prepared,
        Err(error) => return reference_error(alloc, &error),
    };
    match prepared.commit(alloc, store) {
        Ok(edits) => told_edits(alloc, &edits),
        Err(error) => reference_error(alloc, &error),
    }
}

// ---- what fields say

pub fn partial_in(alloc: Global, field: &[u8]) -> Result<PartialName, ProbeError> {
    match PartialName::new(alloc, field) {
        Ok(name) => Ok(name),
        Err(_) => Err(ProbeError::BadLine),
    }
}

fn space_in(alloc: Global, field: &[u8]) -> Result<Option<Namespace>, ProbeError> {
    if field == b"-".as_slice() {
        return Ok(None);
    }
    let name = partial_in(alloc, field)?;
    Ok(Some(expand_namespace(alloc, &name)?))
}

#[tactic(auto, using(crate::proofs::EditLemmas::one_edit_more))]
fn edits_in(alloc: Global, hash: HashKind, words: &[Vec<u8>]) -> Result<Edits, ProbeError>
    ensures { IfOk result (AreEditsOfKind hash) }
{
    let mut edits = Vec::new(alloc);
    for words in words.chunks(4) {
        edits.push(edit_in(alloc, hash, words)?)?;
    }
    Ok(Edits::from_vec(edits))
}

fn edit_in(alloc: Global, hash: HashKind, words: &[Vec<u8>]) -> Result<RefEdit, ProbeError>
    ensures { IfOk result (λ edit. SetsKind hash edit.change) }
{
    let [name, new, expected, how] = words else {
        return Err(ProbeError::BadLine);
    };
    Ok(RefEdit {
        change: change_in(alloc, hash, new, expected, how)?,
        name: name_in(alloc, name)?,
        deref: says(how, b"deref"),
    })
}

/// Whether the word is one of those that commas part.
fn says(how: &[u8], wanted: &[u8]) -> bool {
    how.split(|byte| *byte == b',').any(|word| word == wanted)
}

fn change_in(
    alloc: Global,
    hash: HashKind,
    new: &[u8],
    expected: &[u8],
    how: &[u8],
) -> Result<Change, ProbeError>
    ensures { IfOk result (SetsKind hash) }
{
    let expected = expected_in(alloc, hash, expected)?;
    let mode = match says(how, b"only") {
        true => RefLog::Only,
        false => RefLog::AndReference,
    };
    if new == b"delete".as_slice() {
        return Ok(Change::Delete {
            expected,
            log: mode,
        });
    }
    let log = LogChange {
        mode,
        force_create_reflog: says(how, b"force"),
        message: Bytes::from_slice(alloc, b"m")?,
    };
    Ok(Change::Update {
        log,
        expected,
        new: target_in(alloc, hash, new)?,
    })
}

pub fn expected_in(
    alloc: Global,
    hash: HashKind,
    field: &[u8],
) -> Result<PreviousValue, ProbeError> {
    match field {
        b"any" => Ok(PreviousValue::Any),
        b"exists" => Ok(PreviousValue::MustExist),
        b"absent" => Ok(PreviousValue::MustNotExist),
        [b'!', target @ ..] => Ok(PreviousValue::MustExistAndMatch(target_in(
            alloc, hash, target,
        )?)),
        [b'?', target @ ..] => Ok(PreviousValue::ExistingMustMatch(target_in(
            alloc, hash, target,
        )?)),
        _ => Err(ProbeError::BadLine),
    }
}

fn target_in(alloc: Global, hash: HashKind, field: &[u8]) -> Result<Target, ProbeError>
    ensures { IfOk result (IsTargetOfKind hash) }
{
    match id_of(field) {
        None => Ok(Target::Symbolic(name_in(alloc, field)?)),
        Some(id) if id.kind() == hash => Ok(Target::Object(id)),
        Some(_) => Err(ProbeError::BadLine),
    }
}

// ---- what edits were made

fn told_edits(alloc: Global, edits: &Edits) -> Result<Vec<u8>, ProbeError> {
    let mut answer = Vec::new(alloc);
    for edit in edits.as_slice() {
        push_edit(&mut answer, edit)?;
    }
    if answer.is_empty() {
        push_word(&mut answer, "none")?;
    }
    Ok(answer)
}

fn push_edit(answer: &mut Vec<u8>, edit: &RefEdit) -> Result<(), ProbeError> {
    push_field(answer, edit.name.as_slice())?;
    match &edit.change {
        Change::Update { log, expected, new } => {
            push_target(answer, new)?;
            push_expected(answer, expected)?;
            push_word(answer, mode_word(log.mode))
        }
        Change::Delete { expected, log } => {
            push_word(answer, "delete")?;
            push_expected(answer, expected)?;
            push_word(answer, mode_word(*log))
        }
    }
}

fn mode_word(mode: RefLog) -> &'static str {
    match mode {
        RefLog::AndReference => "-",
        RefLog::Only => "only",
    }
}

fn push_expected(answer: &mut Vec<u8>, expected: &PreviousValue) -> Result<(), ProbeError> {
    match expected {
        PreviousValue::Any => push_word(answer, "any"),
        PreviousValue::MustExist => push_word(answer, "exists"),
        PreviousValue::MustNotExist => push_word(answer, "absent"),
        PreviousValue::MustExistAndMatch(target) => {
            push_word(answer, "!")?;
            push_target(answer, target)
        }
        PreviousValue::ExistingMustMatch(target) => {
            push_word(answer, "?")?;
            push_target(answer, target)
        }
    }
}
