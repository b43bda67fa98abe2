//! What the fields of a row say. No call takes a field that says nothing of the kind that it asks for.

use gx_hash::{Bytes, HashKind, NoMemory, ObjectId};
use gx_object::Kind;
use probe_rows::ProbeError;
use probe_rows::answers::{hash_of, id_of};
use std::alloc::Global;

pub fn hash_in(field: &[u8]) -> Result<HashKind, ProbeError> {
    hash_of(field).ok_or(ProbeError::UnknownCall)
}

pub fn id_in(field: &[u8]) -> Result<ObjectId, ProbeError> {
    id_of(field).ok_or(ProbeError::UnknownCall)
}

pub fn kind_in(field: &[u8]) -> Result<Kind, ProbeError> {
    Kind::from_bytes(field).ok_or(ProbeError::UnknownCall)
}

/// The text of a field, which is `none` where there is none.
pub fn text_in(alloc: Global, field: &[u8]) -> Result<Option<Bytes>, NoMemory> {
    match field {
        b"none" => Ok(None),
        text => Ok(Some(Bytes::from_slice(alloc, text)?)),
    }
}

/// So many fields, and those after them.
pub fn split_fields(
    fields: &[Vec<u8>],
    count: usize,
) -> Result<(&[Vec<u8>], &[Vec<u8>]), ProbeError> {
    fields
        .split_at_checked(count)
        .ok_or(ProbeError::UnknownCall)
}

/// What stands before the first such byte, and what stands after it.
pub fn split_once(bytes: &[u8], end: u8) -> Option<(&[u8], &[u8])> {
    let at = bytes.iter().position(|byte| *byte == end)?;
    Some((&bytes[..at], &bytes[at + 1..]))
}
