//! What the fields of a row say: kinds, ids, names and numbers. A row is a bad line where a field says none of these.
ghost use Rattle.std.specs.Prelude.{◌≡◌, IfOk};

use gx_hash::{HashKind, ObjectId};
use gx_object::Kind;
use gx_refs::WriteReflog;
use gx_rules::{FullName, NameError};
use probe_rows::ProbeError;
use probe_rows::answers::{hash_of, id_of, number_of};
use std::alloc::Global;

pub fn hash_in(field: &[u8]) -> Result<HashKind, ProbeError> {
    hash_of(field).ok_or(ProbeError::BadLine)
}

pub fn id_in(field: &[u8]) -> Result<ObjectId, ProbeError> {
    id_of(field).ok_or(ProbeError::BadLine)
}

pub fn number_in(field: &[u8]) -> Result<u64, ProbeError> {
    number_of(field).ok_or(ProbeError::BadLine)
}

pub fn kind_in(field: &[u8]) -> Result<Kind, ProbeError> {
    Kind::from_bytes(field).ok_or(ProbeError::BadLine)
}

/// The word that a field is.
pub fn word_in(field: &[u8]) -> Result<&str, ProbeError> {
    match str::from_utf8(field) {
        Ok(word) => Ok(word),
        Err(_) => Err(ProbeError::BadLine),
    }
}

pub fn mode_in(field: &[u8]) -> Result<WriteReflog, ProbeError> {
    match word_in(field)? {
        "normal" => Ok(WriteReflog::Normal),
        "always" => Ok(WriteReflog::Always),
        "disable" => Ok(WriteReflog::Disable),
        _ => Err(ProbeError::BadLine),
    }
}

/// The full name that a field is.
pub fn name_in(alloc: Global, field: &[u8]) -> Result<FullName, ProbeError>
    ensures { IfOk result (λ name. name ≡ field.now) }
{
    match FullName::new(alloc, field) {
        Ok(name) => Ok(name),
        Err(NameError::NoMemory) => Err(ProbeError::NoMemory),
        Err(_) => Err(ProbeError::BadLine),
    }
}

/// Whether the word is among these.
pub fn has_word(words: &[Vec<u8>], wanted: &[u8]) -> bool {
    words.iter().any(|word| word.as_slice() == wanted)
}
