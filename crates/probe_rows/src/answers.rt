//! How answers are written, and how the fields of a row name kinds, ids and numbers.

use crate::error::ProbeError;
use gx_hash::{HashKind, ObjectId};
use std::alloc::Global;
use std::cmp::Ordering;
use std::fmt::Display;

/// An answer of these words.
pub fn word(alloc: Global, text: &str) -> Result<Vec<u8>, ProbeError> {
    Ok(Vec::from_slice(alloc, text.as_bytes())?)
}

/// An answer of these words and the place that they tell.
pub fn at(alloc: Global, text: &str, place: usize) -> Result<Vec<u8>, ProbeError> {
    Ok(format!(in alloc; "{text} at {place}")?.into_bytes())
}

/// An answer of these words and a number.
pub fn numbered(alloc: Global, text: &str, number: usize) -> Result<Vec<u8>, ProbeError> {
    Ok(format!(in alloc; "{text} {number}")?.into_bytes())
}

/// An answer that is the value's text.
pub fn shown<T: Display>(alloc: Global, value: &T) -> Result<Vec<u8>, ProbeError> {
    Ok(format!(in alloc; "{value}")?.into_bytes())
}

/// An answer that is the bytes as a field.
pub fn quoted(alloc: Global, bytes: &[u8]) -> Result<Vec<u8>, ProbeError> {
    let mut answer = Vec::new(alloc);
    push_field(&mut answer, bytes)?;
    Ok(answer)
}

/// An answer that is the id in hex.
pub fn hex(alloc: Global, id: &ObjectId) -> Result<Vec<u8>, ProbeError> {
    Ok(id.to_hex(alloc)?.into_vec())
}

/// `yes` or `no`.
pub fn truth(alloc: Global, holds: bool) -> Result<Vec<u8>, ProbeError> {
    word(alloc, if holds { "yes" } else { "no" })
}

/// `less`, `equal` or `greater`.
pub fn order(alloc: Global, ordering: Ordering) -> Result<Vec<u8>, ProbeError> {
    word(
        alloc,
        match ordering {
            Ordering::Less => "less",
            Ordering::Equal => "equal",
            Ordering::Greater => "greater",
        },
    )
}

/// `same` where the bytes are the ones that were read, or else the bytes.
pub fn again(alloc: Global, read: &[u8], written: &[u8]) -> Result<Vec<u8>, ProbeError> {
    if read == written {
        return word(alloc, "same");
    }
    quoted(alloc, written)
}

/// What a call answers that fails so. Only where memory ran out the rows end there.
pub fn failure(alloc: Global, error: ProbeError) -> Result<Vec<u8>, ProbeError> {
    match error {
        ProbeError::UnknownCall => word(alloc, "unknown"),
        ProbeError::Decode { at: place } => at(alloc, "decode", place),
        ProbeError::BadLine => word(alloc, "bad-line"),
        ProbeError::Unwritable => word(alloc, "unwritable"),
        ProbeError::Failed => word(alloc, "failed"),
        ProbeError::NoMemory => Err(ProbeError::NoMemory),
    }
}

/// Appends what a call answers that fails so.
pub fn push_failure(
    alloc: Global,
    answer: &mut Vec<u8>,
    error: ProbeError,
) -> Result<(), ProbeError> {
    push_word(answer, "")?;
    Ok(answer.extend_from_slice(&failure(alloc, error)?)?)
}

/// Appends the words, after a space where something stands before them.
pub fn push_word(answer: &mut Vec<u8>, text: &str) -> Result<(), ProbeError> {
    if !answer.is_empty() {
        answer.push(b' ')?;
    }
    Ok(answer.extend_from_slice(text.as_bytes())?)
}

/// Appends the id in hex, after a space where something stands before it.
pub fn push_id(answer: &mut Vec<u8>, id: &ObjectId) -> Result<(), ProbeError> {
    push_word(answer, "")?;
    Ok(id.push_hex(answer)?)
}

/// Appends the value's text, after a space where something stands before it.
pub fn push_shown<T: Display>(
    alloc: Global,
    answer: &mut Vec<u8>,
    value: &T,
) -> Result<(), ProbeError> {
    push_word(answer, format!(in alloc; "{value}")?.as_str())
}

/// Appends the bytes as a field, after a space where something stands before it. It is a bare word where it can be one.
pub fn push_field(answer: &mut Vec<u8>, bytes: &[u8]) -> Result<(), ProbeError> {
    push_word(answer, "")?;
    if !bytes.is_empty() && bytes.iter().all(|byte| is_bare(*byte)) {
        return Ok(answer.extend_from_slice(bytes)?);
    }
    answer.push(b'"')?;
    for byte in bytes {
        push_escaped(answer, *byte)?;
    }
    Ok(answer.push(b'"')?)
}

fn is_bare(byte: u8) -> bool {
    matches!(byte, b'!'..=b'~') && !b"\"*+=".contains(&byte)
}

fn push_escaped(answer: &mut Vec<u8>, byte: u8) -> Result<(), ProbeError> {
    match byte {
        b'\n' => push(answer, b"\\n"),
        b'\t' => push(answer, b"\\t"),
        b'\r' => push(answer, b"\\r"),
        0 => push(answer, b"\\0"),
        b'\\' => push(answer, b"\\\\"),
        b'"' => push(answer, b"\\\""),
        b' '..=b'~' => Ok(answer.push(byte)?),
        _ => push_hex_byte(answer, byte),
    }
}

fn push_hex_byte(answer: &mut Vec<u8>, byte: u8) -> Result<(), ProbeError> {
    push(answer, b"\\x")?;
    answer.push(hex_digit(byte / 16))?;
    Ok(answer.push(hex_digit(byte % 16))?)
}

fn hex_digit(value: u8) -> u8 {
    match value {
        0..=9 => b'0' + value,
        10..=15 => b'a' + (value - 10),
        _ => b'?',
    }
}

fn push(answer: &mut Vec<u8>, bytes: &[u8]) -> Result<(), ProbeError> {
    Ok(answer.extend_from_slice(bytes)?)
}

/// The kind of ids that a field names.
pub fn hash_of(field: &[u8]) -> Option<HashKind> {
    match field {
        b"sha1" => Some(HashKind::Sha1),
        b"sha256" => Some(HashKind::Sha256),
        _ => None,
    }
}

/// The id whose hex a field is.
pub fn id_of(field: &[u8]) -> Option<ObjectId> {
    ObjectId::from_hex(field).ok()
}

/// The number that a field is.
pub fn size_of(field: &[u8]) -> Option<usize> {
    std::str::from_utf8(field).ok()?.parse::<usize>().ok()
}

/// The number that a field is.
pub fn number_of(field: &[u8]) -> Option<u64> {
    std::str::from_utf8(field).ok()?.parse::<u64>().ok()
}

/// The signed number that a field is.
pub fn signed_of(field: &[u8]) -> Option<i64> {
    std::str::from_utf8(field).ok()?.parse::<i64>().ok()
}
