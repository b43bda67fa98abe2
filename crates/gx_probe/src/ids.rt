//! Rows on ids and their prefixes.

use gx_hash::{Bytes, HashKind, HexError, ObjectId, object_id};
use probe_rows::ProbeError;
use probe_rows::answers::{
    at, hash_of, hex, id_of, numbered, order, push_id, push_shown, quoted, shown, truth, word,
};
use std::alloc::Global;

/// The answers to rows on ids. A call may want a kind of ids, an id, or two.
pub fn answer(alloc: Global, call: &str, fields: &[Vec<u8>]) -> Result<Vec<u8>, ProbeError> {
    match fields {
        [first] => answer_to_one(alloc, call, first),
        [first, second] => answer_to_two(alloc, call, first, second),
        [hash, kind, bytes] if call == "object_id" => answer_object_id(alloc, hash, kind, bytes),
        _ => Err(ProbeError::UnknownCall),
    }
}

fn answer_to_one(alloc: Global, call: &str, first: &[u8]) -> Result<Vec<u8>, ProbeError> {
    match call {
        "id" => answer_id(alloc, first),
        "id_message" => answer_id_message(alloc, first),
        "bytes_copy" => copied(alloc, first),
        "bytes_clone" => cloned(alloc, first),
        _ => answer_of(alloc, call, first),
    }
}

fn answer_of(alloc: Global, call: &str, first: &[u8]) -> Result<Vec<u8>, ProbeError> {
    match hash_of(first) {
        Some(hash) => answer_of_kind(alloc, call, hash),
        None => match id_of(first) {
            Some(id) => answer_of_id(alloc, call, &id),
            None => Err(ProbeError::UnknownCall),
        },
    }
}

fn answer_to_two(
    alloc: Global,
    call: &str,
    first: &[u8],
    second: &[u8],
) -> Result<Vec<u8>, ProbeError> {
    match call {
        "id_from_bytes" => answer_id_from_bytes(alloc, first, second),
        "compare_ids" => answer_order(alloc, first, second),
        "compare_bytes" => bytes_order(alloc, first, second),
        _ => Err(ProbeError::UnknownCall),
    }
}

fn answer_object_id(
    alloc: Global,
    hash: &[u8],
    kind: &[u8],
    bytes: &[u8],
) -> Result<Vec<u8>, ProbeError> {
    match hash_of(hash) {
        Some(hash) => hex(alloc, &object_id(hash, kind, bytes)),
        None => Err(ProbeError::UnknownCall),
    }
}

fn answer_id_from_bytes(alloc: Global, hash: &[u8], bytes: &[u8]) -> Result<Vec<u8>, ProbeError> {
    let Some(hash) = hash_of(hash) else {
        return Err(ProbeError::UnknownCall);
    };
    match ObjectId::from_bytes(hash, bytes) {
        Some(id) => hex(alloc, &id),
        None => word(alloc, "none"),
    }
}

fn answer_id(alloc: Global, digits: &[u8]) -> Result<Vec<u8>, ProbeError> {
    match ObjectId::from_hex(digits) {
        Ok(id) => kind_and_id(alloc, &id),
        Err(HexError::BadLength { found }) => numbered(alloc, "bad-length", found),
        Err(HexError::BadDigit { at: place }) => at(alloc, "bad-digit", place),
    }
}

fn kind_and_id(alloc: Global, id: &ObjectId) -> Result<Vec<u8>, ProbeError> {
    let mut answer = word(alloc, hash_word(id.kind()))?;
    push_id(&mut answer, id)?;
    Ok(answer)
}

fn hash_word(hash: HashKind) -> &'static str {
    match hash {
        HashKind::Sha1 => "sha1",
        HashKind::Sha256 => "sha256",
    }
}

fn answer_id_message(alloc: Global, digits: &[u8]) -> Result<Vec<u8>, ProbeError> {
    match ObjectId::from_hex(digits) {
        Ok(_) => Err(ProbeError::UnknownCall),
        Err(error) => shown(alloc, &error),
    }
}

fn answer_of_kind(alloc: Global, call: &str, hash: HashKind) -> Result<Vec<u8>, ProbeError> {
    match call {
        "null" => hex(alloc, &hash.null()),
        "empty_tree" => hex(alloc, &hash.empty_tree()),
        "empty_blob" => hex(alloc, &hash.empty_blob()),
        "lengths" => lengths(alloc, hash),
        _ => Err(ProbeError::UnknownCall),
    }
}

fn lengths(alloc: Global, hash: HashKind) -> Result<Vec<u8>, ProbeError> {
    let mut answer = shown(alloc, &hash.len_in_bytes())?;
    push_shown(alloc, &mut answer, &hash.len_in_hex())?;
    Ok(answer)
}

fn answer_of_id(alloc: Global, call: &str, id: &ObjectId) -> Result<Vec<u8>, ProbeError> {
    match call {
        "is_null" => truth(alloc, id.is_null()),
        "is_empty_tree" => truth(alloc, id.is_empty_tree()),
        "id_bytes" => quoted(alloc, id.as_bytes()),
        "id_text" => shown(alloc, id),
        "id_debug" => debug(alloc, id),
        _ => Err(ProbeError::UnknownCall),
    }
}

fn debug(alloc: Global, id: &ObjectId) -> Result<Vec<u8>, ProbeError> {
    Ok(format!(in alloc; "{id:?}")?.into_bytes())
}

fn answer_order(alloc: Global, first: &[u8], second: &[u8]) -> Result<Vec<u8>, ProbeError> {
    match (id_of(first), id_of(second)) {
        (Some(first), Some(second)) => order(alloc, first.cmp(&second)),
        _ => Err(ProbeError::UnknownCall),
    }
}

fn copied(alloc: Global, bytes: &[u8]) -> Result<Vec<u8>, ProbeError> {
    let copy = Bytes::from_slice(alloc, bytes)?.try_clone()?;
    quoted(alloc, &copy.into_vec())
}

fn cloned(alloc: Global, bytes: &[u8]) -> Result<Vec<u8>, ProbeError> {
    let copy = Bytes::from_slice(alloc, bytes)?.clone()?;
    quoted(alloc, &copy.into_vec())
}

fn bytes_order(alloc: Global, first: &[u8], second: &[u8]) -> Result<Vec<u8>, ProbeError> {
    let first = Bytes::from_slice(alloc, first)?;
    let second = Bytes::from_slice(alloc, second)?;
    order(alloc, first.cmp(&second))
}
