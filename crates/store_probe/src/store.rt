//! Rows of calls on a new store in memory, one after another: `store KIND STEP ; STEP ..`, where a step is a call and
//! its fields. Each step is answered, with ` ; ` between two answers.

use crate::faults::store_error;
use crate::values::{hash_in, id_in, kind_in, name_in, number_in, word_in};
use crate::{reference_edits, references};
use gx_hash::ObjectId;
use gx_object::Kind;
use gx_store::{Memory, Objects, StoreError, write_object};
use probe_rows::ProbeError;
use probe_rows::answers::{hex, push_field, push_shown, shown, truth, word};
use std::alloc::Global;
use std::fmt::Display;

/// The answer of `store`.
pub fn answer(alloc: Global, fields: &[Vec<u8>]) -> Result<Vec<u8>, ProbeError> {
    let Some((kind, words)) = fields.split_first() else {
        return Err(ProbeError::BadLine);
    };
    let mut store = Memory::new(alloc, hash_in(kind)?)?;
    let mut answers = Vec::new(alloc);
    for step in words.split(|field| field.as_slice() == b";".as_slice()) {
        let answer = answer_step(alloc, &mut store, step)?;
        push_answer(&mut answers, &answer)?;
    }
    Ok(answers)
}

/// Appends the answer of a step.
pub fn push_answer(answers: &mut Vec<u8>, answer: &[u8]) -> Result<(), ProbeError> {
    if !answers.is_empty() {
        answers.extend_from_slice(b" ; ")?;
    }
    Ok(answers.extend_from_slice(answer)?)
}

/// The answer of a call on the store.
pub fn answer_step(
    alloc: Global,
    store: &mut Memory,
    step: &[Vec<u8>],
) -> Result<Vec<u8>, ProbeError> {
    let Some((call, fields)) = step.split_first() else {
        return Err(ProbeError::BadLine);
    };
    let call = word_in(call)?;
    match read_by(alloc, store, call, fields) {
        Err(ProbeError::UnknownCall) => {}
        found => return found,
    }
    match references::read_by(alloc, store, call, fields) {
        Err(ProbeError::UnknownCall) => {}
        found => return found,
    }
    match reference_edits::read_by(alloc, store, call, fields) {
        Err(ProbeError::UnknownCall) => change_by(alloc, store, call, fields),
        found => found,
    }
}

/// The answer of a call that reads objects, or counts faults.
fn read_by(
    alloc: Global,
    store: &Memory,
    call: &str,
    fields: &[Vec<u8>],
) -> Result<Vec<u8>, ProbeError> {
    match call {
        "read" => read(alloc, store, &only_id(fields)?),
        "header" => header(alloc, store, &only_id(fields)?),
        "exists" => exists(alloc, store, &only_id(fields)?),
        "count" => number(alloc, store.count(alloc)),
        "longest_shared" => number(alloc, store.longest_shared(alloc, &only_id(fields)?)),
        "faults" => shown(alloc, &store.fault_count()),
        _ => Err(ProbeError::UnknownCall),
    }
}

/// The answer of a call that changes references or objects, or lets later calls fail.
fn change_by(
    alloc: Global,
    store: &mut Memory,
    call: &str,
    fields: &[Vec<u8>],
) -> Result<Vec<u8>, ProbeError> {
    match call {
        "lead" => references::lead(alloc, store, fields),
        "apply" => references::apply(alloc, store, fields),
        "move" => references::move_by(alloc, store, fields),
        "edit" => reference_edits::edit_by(alloc, store, fields),
        "write" => write(alloc, store, fields),
        _ => {
            prepare(alloc, store, call, fields)?;
            word(alloc, "ok")
        }
    }
}

/// Puts an object whatever its id is the digest of, or breaks a part of the store.
fn prepare(
    alloc: Global,
    store: &mut Memory,
    call: &str,
    fields: &[Vec<u8>],
) -> Result<(), ProbeError> {
    match call {
        "put" => put(store, fields),
        "break_object" => Ok(store.break_object(only_id(fields)?)?),
        "break_name" => Ok(store.break_name(name_in(alloc, only(fields)?)?)?),
        "break_index" => {
            store.break_index();
            Ok(())
        }
        "break_listing" => {
            store.break_listing();
            Ok(())
        }
        "fail_write" => Ok(store.fail_write(number_in(only(fields)?)?)?),
        _ => Err(ProbeError::BadLine),
    }
}

/// The field of a call that has one.
pub fn only(fields: &[Vec<u8>]) -> Result<&[u8], ProbeError> {
    match fields {
        [field] => Ok(field),
        _ => Err(ProbeError::BadLine),
    }
}

fn only_id(fields: &[Vec<u8>]) -> Result<ObjectId, ProbeError> {
    id_in(only(fields)?)
}

fn write(alloc: Global, store: &mut Memory, fields: &[Vec<u8>]) -> Result<Vec<u8>, ProbeError> {
    let [kind, bytes] = fields else {
        return Err(ProbeError::BadLine);
    };
    written(alloc, store, kind_in(kind)?, bytes)
}

/// Writes an object, and answers its id.
pub fn written(
    alloc: Global,
    store: &mut Memory,
    kind: Kind,
    bytes: &[u8],
) -> Result<Vec<u8>, ProbeError> {
    match write_object(alloc, store, kind, bytes) {
        Ok(id) => hex(alloc, &id),
        Err(error) => store_error(alloc, &error),
    }
}

fn put(store: &mut Memory, fields: &[Vec<u8>]) -> Result<(), ProbeError> {
    let [id, kind, bytes] = fields else {
        return Err(ProbeError::BadLine);
    };
    Ok(store.put_raw(id_in(id)?, kind_in(kind)?, bytes)?)
}

fn read(alloc: Global, store: &Memory, id: &ObjectId) -> Result<Vec<u8>, ProbeError> {
    match store.read(alloc, id) {
        Ok(Some((kind, bytes))) => kind_and_field(alloc, kind, bytes.as_slice()),
        Ok(None) => word(alloc, "none"),
        Err(error) => store_error(alloc, &error),
    }
}

fn kind_and_field(alloc: Global, kind: Kind, bytes: &[u8]) -> Result<Vec<u8>, ProbeError> {
    let mut answer = Vec::from_slice(alloc, kind.as_bytes())?;
    push_field(&mut answer, bytes)?;
    Ok(answer)
}

fn header(alloc: Global, store: &Memory, id: &ObjectId) -> Result<Vec<u8>, ProbeError> {
    match store.header(alloc, id) {
        Ok(Some(header)) => {
            let mut answer = Vec::from_slice(alloc, header.kind.as_bytes())?;
            push_shown(alloc, &mut answer, &header.size)?;
            Ok(answer)
        }
        Ok(None) => word(alloc, "none"),
        Err(error) => store_error(alloc, &error),
    }
}

/// The answer of a call that counts.
fn number<N: Display + Drop>(
    alloc: Global,
    found: Result<N, StoreError>,
) -> Result<Vec<u8>, ProbeError> {
    match found {
        Ok(number) => shown(alloc, &number),
        Err(error) => store_error(alloc, &error),
    }
}

fn exists(alloc: Global, store: &Memory, id: &ObjectId) -> Result<Vec<u8>, ProbeError> {
    match store.exists(alloc, id) {
        Ok(found) => truth(alloc, found),
        Err(error) => store_error(alloc, &error),
    }
}
