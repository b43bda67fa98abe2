//! Where the parts of a store are in its folder.
//!
//! A part of a name that is UTF-8 is spelled as it is. In another one, each byte outside ASCII is a tilde and two hex
//! digits. A name that begins as the folder's own directories do has a tilde in front. No name has a tilde of its own,
//! so two names never share a file, and `..` is no part of a full name.
use gx_hash::{NoMemory, ObjectId};
use gx_rules::{FullName, NameError};
use std::alloc::{AllocError, Global};

const DIGITS: &[u8; 16] = b"0123456789abcdef";

/// The directories of the folder in which no references are.
const OWN: [&[u8]; 2] = [b"objects/", b"logs/"];

/// What the name of a file that is being written ends with. No part of a name ends so.
pub(crate) const LOCK: &str = ".lock";

/// Whether a path below the folder is one of a directory of its own.
pub(crate) fn is_own(below: &str) -> bool {
    OWN.iter().any(|own| *own == below.as_bytes())
}

fn begins_as_own(name: &[u8]) -> bool {
    OWN.iter().any(|own| name.starts_with(own))
}

fn push_byte(path: &mut String, byte: u8) -> Result<(), AllocError> {
    if byte.is_ascii() {
        path.push(char::from(byte))
    } else {
        path.push('~')?;
        path.push(char::from(DIGITS[usize::from(byte >> 4)]))?;
        path.push(char::from(DIGITS[usize::from(byte & 15)]))
    }
}

/// Appends a part of a name, which has no slash.
fn push_part(path: &mut String, part: &[u8]) -> Result<(), AllocError> {
    match str::from_utf8(part) {
        Ok(text) => path.push_str(text),
        Err(_) => {
            for byte in part {
                push_byte(path, *byte)?;
            }
            Ok(())
        }
    }
}

/// Appends a name, or the front of one that ends at a slash.
fn push_spelled(path: &mut String, name: &[u8]) -> Result<(), AllocError> {
    let mut start = 0;
    for at in 0..name.len() {
        if name[at] == b'/' {
            push_part(path, name.split_at(at).0.split_at(start.min(at)).1)?;
            path.push('/')?;
            start = at.saturating_add(1);
        }
    }
    push_part(path, name.split_at(start.min(name.len())).1)
}

/// Appends the path below the folder of a reference, or of a directory of references, which ends in a slash.
pub(crate) fn push_reference(path: &mut String, name: &[u8]) -> Result<(), NoMemory> {
    if begins_as_own(name) {
        path.push('~')?;
    }
    push_spelled(path, name)?;
    Ok(())
}

/// The path of a reference's file.
pub(crate) fn reference_path(alloc: Global, root: &str, name: &[u8]) -> Result<String, NoMemory> {
    let mut path = joined(alloc, root, "/")?;
    push_reference(&mut path, name)?;
    Ok(path)
}

/// The path of a log's file.
pub(crate) fn log_path(alloc: Global, root: &str, name: &[u8]) -> Result<String, NoMemory> {
    let mut path = joined(alloc, root, "/logs/")?;
    push_spelled(&mut path, name)?;
    Ok(path)
}

/// The path of an object's file: the first two digits of its id are its directory.
pub(crate) fn object_path(alloc: Global, root: &str, id: &ObjectId) -> Result<String, NoMemory> {
    let digits = id.to_hex(alloc)?;
    let (directory, rest) = digits.as_slice().split_at(digits.as_slice().len().min(2));
    let mut path = joined(alloc, root, "/objects/")?;
    push_part(&mut path, directory)?;
    path.push('/')?;
    push_part(&mut path, rest)?;
    Ok(path)
}

/// A path followed by a text.
pub(crate) fn joined(alloc: Global, path: &str, more: &str) -> Result<String, NoMemory> {
    let mut whole = String::from_str(alloc, path)?;
    whole.push_str(more)?;
    Ok(whole)
}

/// Whether a name is so many hex digits in lower case.
pub(crate) fn is_digits(name: &str, length: usize) -> bool {
    let digits = name.as_bytes();
    digits.len() == length && digits.iter().all(|digit| DIGITS.contains(digit))
}

fn digit_of(byte: u8) -> Option<u8> {
    let at = DIGITS.iter().position(|digit| *digit == byte)?;
    u8::try_from(at).ok()
}

/// The byte that two digits spell.
fn byte_of(high: Option<&u8>, low: Option<&u8>) -> Option<u8> {
    let high = digit_of(*high?)?;
    let low = digit_of(*low?)?;
    Some(high.wrapping_mul(16).wrapping_add(low))
}

/// The bytes that a path below the folder spells.
fn spelled_bytes(alloc: Global, path: &[u8]) -> Result<Option<Vec<u8>>, AllocError> {
    let text = match path.strip_prefix(b"~".as_slice()) {
        Some(rest) if begins_as_own(rest) => rest,
        _ => path,
    };
    let mut name = Vec::with_capacity(alloc, text.len())?;
    let mut bytes = text.iter();
    for _ in 0..text.len() {
        let Some(byte) = bytes.next() else { break };
        if *byte != b'~' {
            name.push(*byte)?;
            continue;
        }
        match byte_of(bytes.next(), bytes.next()) {
            Some(byte) => name.push(byte)?,
            None => return Ok(None),
        }
    }
    Ok(Some(name))
}

/// The full name that a path below the folder is the spelling of, if it is one. Each name has one spelling.
pub(crate) fn name_of(alloc: Global, path: &str) -> Result<Option<FullName>, NoMemory> {
    let Some(bytes) = spelled_bytes(alloc, path.as_bytes())? else {
        return Ok(None);
    };
    let mut again = String::with_capacity(alloc, path.len())?;
    push_reference(&mut again, &bytes)?;
    if again.as_str() != path {
        return Ok(None);
    }
    match FullName::new(alloc, &bytes) {
        Ok(name) => Ok(Some(name)),
        Err(NameError::NoMemory) => Err(NoMemory),
        Err(_) => Ok(None),
    }
}
