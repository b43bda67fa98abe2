//! Rows of the rule which logs get a line, and of the lines that they get.

use crate::faults::store_error;
use crate::references::apply_one;
use crate::values::{has_word, hash_in, id_in, mode_in, name_in};
use gx_hash::{Bytes, HashKind};
use gx_object::{Signature, Time};
use gx_refs::{WriteReflog, is_due, log_line};
use gx_rules::FullName;
use gx_store::{LineError, LogLine, Memory};
use probe_rows::ProbeError;
use probe_rows::answers::{hex, push_field, push_shown, quoted, signed_of, truth, word};
use std::alloc::Global;

/// Whether a line is due for a name, of which the words say whether it is forced, whether there is a log, and whether
/// that can't be read.
pub fn due_of(alloc: Global, fields: &[Vec<u8>]) -> Result<Vec<u8>, ProbeError> {
    let [mode, name, words @ ..] = fields else {
        return Err(ProbeError::BadLine);
    };
    let mode = mode_in(mode)?;
    let store = store_of(alloc, name, words)?;
    let name = name_in(alloc, name)?;
    due(alloc, &store, mode, &name, has_word(words, b"force"))
}

fn store_of(alloc: Global, name: &[u8], words: &[Vec<u8>]) -> Result<Memory, ProbeError> {
    let mut store = Memory::new(alloc, HashKind::Sha1)?;
    if has_word(words, b"log") {
        apply_one(alloc, &mut store, name, b"keep", b"m")?;
    }
    if has_word(words, b"broken") {
        store.break_name(name_in(alloc, name)?)?;
    }
    Ok(store)
}

/// Whether a line is due in this store.
pub fn due(
    alloc: Global,
    store: &Memory,
    mode: WriteReflog,
    name: &FullName,
    force: bool,
) -> Result<Vec<u8>, ProbeError> {
    match is_due(alloc, store, mode, name, force) {
        Ok(is_due) => truth(alloc, is_due),
        Err(error) => store_error(alloc, &error),
    }
}

/// The line that these make, as it stands in a file of Git's.
pub fn line_of(alloc: Global, fields: &[Vec<u8>]) -> Result<Vec<u8>, ProbeError> {
    let [previous, new, name, email, seconds, offset, message] = fields else {
        return Err(ProbeError::BadLine);
    };
    let who = signature(alloc, name, email, seconds, offset)?;
    let line = log_line(alloc, id_in(previous)?, id_in(new)?, &who, message)?;
    quoted(alloc, &line_bytes(alloc, &line)?)
}

pub fn signature(
    alloc: Global,
    name: &[u8],
    email: &[u8],
    seconds: &[u8],
    offset: &[u8],
) -> Result<Signature, ProbeError> {
    let time = time_of(seconds, offset).ok_or(ProbeError::BadLine)?;
    Ok(Signature {
        name: Bytes::from_slice(alloc, name)?,
        email: Bytes::from_slice(alloc, email)?,
        time,
    })
}

fn time_of(seconds: &[u8], offset: &[u8]) -> Option<Time> {
    Some(Time {
        seconds: signed_of(seconds)?,
        offset: i32::try_from(signed_of(offset)?).ok()?,
    })
}

/// Who makes the changes of rows.
pub fn person(alloc: Global) -> Result<Signature, ProbeError> {
    signature(alloc, b"A", b"a@x", b"1", b"0")
}

/// The line as it stands in a file of Git's, without the newline.
pub fn line_bytes(alloc: Global, line: &LogLine) -> Result<Vec<u8>, ProbeError> {
    Ok(line.to_bytes(alloc)?.into_vec())
}

/// What a line of a repository of the kind says: its ids, who and when, and its message.
pub fn read_line(alloc: Global, fields: &[Vec<u8>]) -> Result<Vec<u8>, ProbeError> {
    let [hash, text] = fields else {
        return Err(ProbeError::BadLine);
    };
    match LogLine::from_bytes(alloc, text, hash_in(hash)?) {
        Ok(line) => parts_of(alloc, &line),
        Err(LineError::BadLine) => word(alloc, "bad-line"),
        Err(LineError::NoMemory) => word(alloc, "no-memory"),
    }
}

fn parts_of(alloc: Global, line: &LogLine) -> Result<Vec<u8>, ProbeError> {
    let mut answer = hex(alloc, &line.previous)?;
    push_shown(alloc, &mut answer, &line.new)?;
    push_field(&mut answer, line.signature.name.as_slice())?;
    push_field(&mut answer, line.signature.email.as_slice())?;
    push_shown(alloc, &mut answer, &line.signature.time.seconds)?;
    push_shown(alloc, &mut answer, &line.signature.time.offset)?;
    push_field(&mut answer, line.message.as_slice())?;
    Ok(answer)
}
