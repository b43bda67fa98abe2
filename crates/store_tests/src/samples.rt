//! What the tests share.

use gx_hash::{Bytes, HashKind, NoMemory};
use gx_object::{Signature, Time};
use gx_rules::FullName;
use gx_store::{Calls, LogLine};
use std::alloc::Global;

pub(crate) fn name_of(alloc: Global, bytes: &[u8]) -> Result<FullName, NoMemory> {
    match FullName::new(alloc, bytes) {
        Ok(name) => Ok(name),
        Err(_) => Err(NoMemory),
    }
}

pub(crate) fn person(alloc: Global) -> Result<Signature, NoMemory> {
    Ok(Signature {
        name: Bytes::from_slice(alloc, b"A")?,
        email: Bytes::from_slice(alloc, b"a@x")?,
        time: Time {
            seconds: 1,
            offset: 0,
        },
    })
}

/// A line from the null id to the empty blob.
pub(crate) fn line(alloc: Global, message: &[u8]) -> Result<LogLine, NoMemory> {
    Ok(LogLine {
        previous: HashKind::Sha1.null(),
        new: HashKind::Sha1.empty_blob(),
        signature: person(alloc)?,
        message: Bytes::from_slice(alloc, message)?,
    })
}

pub(crate) fn is_same_line(line: &LogLine, other: &LogLine) -> bool {
    line.previous == other.previous
        && line.new == other.new
        && is_same_person(&line.signature, &other.signature)
        && line.message == other.message
}

fn is_same_person(person: &Signature, other: &Signature) -> bool {
    person.name == other.name && person.email == other.email && person.time == other.time
}

pub(crate) fn are_same_lines(lines: &[LogLine], others: &[LogLine]) -> bool {
    lines.len() == others.len()
        && lines
            .iter()
            .zip(others)
            .all(|(line, other)| is_same_line(line, other))
}

/// The one call that fails.
pub(crate) fn only(alloc: Global, call: u64) -> Result<Calls, NoMemory> {
    let mut calls = Vec::new(alloc);
    calls.push(call)?;
    Ok(Calls::from_vec(calls))
}
