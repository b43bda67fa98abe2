//! Rows on prefixes of ids.

use gx_hash::{Prefix, PrefixError};
use probe_rows::ProbeError;
use probe_rows::answers::{at, id_of, numbered, order, push_id, shown, size_of};
use std::alloc::Global;

/// The answers to rows on prefixes of ids.
pub fn answer(alloc: Global, call: &str, fields: &[Vec<u8>]) -> Result<Vec<u8>, ProbeError> {
    match fields {
        [first] => answer_to_one(alloc, call, first),
        [first, second] => answer_to_two(alloc, call, first, second),
        _ => Err(ProbeError::UnknownCall),
    }
}

fn answer_to_one(alloc: Global, call: &str, first: &[u8]) -> Result<Vec<u8>, ProbeError> {
    match call {
        "prefix" => outcome(alloc, Prefix::from_hex(first)),
        "prefix_text" => text(alloc, Prefix::from_hex(first)),
        "whole_prefix" => answer_whole_prefix(alloc, first),
        _ => Err(ProbeError::UnknownCall),
    }
}

fn answer_to_two(
    alloc: Global,
    call: &str,
    first: &[u8],
    second: &[u8],
) -> Result<Vec<u8>, ProbeError> {
    match call {
        "prefix_of" => answer_prefix_of(alloc, first, second),
        "compare_prefix" => answer_order(alloc, first, second),
        _ => Err(ProbeError::UnknownCall),
    }
}

/// How many digits the prefix has, and the least id that begins with them.
fn outcome(alloc: Global, found: Result<Prefix, PrefixError>) -> Result<Vec<u8>, ProbeError> {
    match found {
        Ok(prefix) => len_and_id(alloc, &prefix),
        Err(PrefixError::TooLong { hex_len }) => numbered(alloc, "too-long", hex_len),
        Err(PrefixError::TooShort { hex_len }) => numbered(alloc, "too-short", hex_len),
        Err(PrefixError::BadDigit { at: place }) => at(alloc, "bad-digit", place),
    }
}

fn len_and_id(alloc: Global, prefix: &Prefix) -> Result<Vec<u8>, ProbeError> {
    let mut answer = shown(alloc, &prefix.hex_len())?;
    push_id(&mut answer, prefix.as_oid())?;
    Ok(answer)
}

/// The prefix as it is printed, or the words on why it is none.
fn text(alloc: Global, found: Result<Prefix, PrefixError>) -> Result<Vec<u8>, ProbeError> {
    match found {
        Ok(prefix) => shown(alloc, &prefix),
        Err(error) => shown(alloc, &error),
    }
}

fn answer_prefix_of(alloc: Global, id: &[u8], len: &[u8]) -> Result<Vec<u8>, ProbeError> {
    match (id_of(id), size_of(len)) {
        (Some(id), Some(len)) => outcome(alloc, Prefix::new(&id, len)),
        _ => Err(ProbeError::UnknownCall),
    }
}

fn answer_whole_prefix(alloc: Global, id: &[u8]) -> Result<Vec<u8>, ProbeError> {
    match id_of(id) {
        Some(id) => len_and_id(alloc, &Prefix::from(id)),
        None => Err(ProbeError::UnknownCall),
    }
}

fn answer_order(alloc: Global, digits: &[u8], id: &[u8]) -> Result<Vec<u8>, ProbeError> {
    match (Prefix::from_hex(digits), id_of(id)) {
        (Ok(prefix), Some(id)) => order(alloc, prefix.cmp_oid(&id)),
        _ => Err(ProbeError::UnknownCall),
    }
}
