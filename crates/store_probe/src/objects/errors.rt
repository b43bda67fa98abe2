//! How rows tell why an object is not found, or is of another kind.

use crate::faults::{failed, object_kind, with_id};
use gix::object::{FindAsError, KindError};
use gx_hash::ObjectId;
use gx_object::Kind;
use probe_rows::ProbeError;
use probe_rows::answers::push_field;
use std::alloc::Global;

pub fn find_as_error(alloc: Global, error: &FindAsError) -> Result<Vec<u8>, ProbeError> {
    match error {
        FindAsError::NotFound { id } => with_id(alloc, "not-found", id),
        FindAsError::ObjectKind {
            id,
            expected,
            actual,
        } => other_kind(alloc, id, *expected, *actual),
        FindAsError::Store { what } => failed(alloc, "store", what),
        FindAsError::NoMemory => Err(ProbeError::NoMemory),
    }
}

pub fn kind_error(alloc: Global, error: &KindError) -> Result<Vec<u8>, ProbeError> {
    other_kind(alloc, &error.id, error.expected, error.actual)
}

fn other_kind(
    alloc: Global,
    id: &ObjectId,
    expected: Kind,
    actual: Kind,
) -> Result<Vec<u8>, ProbeError> {
    let mut answer = object_kind(alloc, id, expected)?;
    push_field(&mut answer, actual.as_bytes())?;
    Ok(answer)
}
