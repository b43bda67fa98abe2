//! Objects as their files have them: the bytes that the id is the digest of.
ghost use Rattle.std.specs.Prelude.{◌≡◌, IfOk, IfSome};
ghost use Rattle.gx_hash.specs.ObjectId.{object_id};
ghost use Rattle.gx_object.specs.Kind.{kind_name};

use gx_hash::{Bytes, HashKind, NoMemory, ObjectId, object_id};
use gx_object::Kind;
use gx_store::Header;
use itoa::Buffer;
use memchr::memchr;
use std::alloc::Global;

/// Appends what is in front of an object's bytes: its kind, a space, its size and a zero byte.
fn push_header(out: &mut Vec<u8>, kind: Kind, size: u64) -> Result<(), NoMemory> {
    out.extend_from_slice(kind.as_bytes())?;
    out.push(b' ')?;
    out.extend_from_slice(Buffer::new().format(size).as_bytes())?;
    out.push(0)?;
    Ok(())
}

pub(crate) fn object_text(alloc: Global, kind: Kind, bytes: &[u8]) -> Result<Vec<u8>, NoMemory> {
    let mut text = Vec::with_capacity(alloc, bytes.len().saturating_add(32))?;
    push_header(&mut text, kind, bytes.len() as u64)?;
    text.extend_from_slice(bytes)?;
    Ok(text)
}

/// The header that a file begins with, where its size is that of the rest of the file.
pub(crate) fn read_header(
    alloc: Global,
    start: &[u8],
    length: u64,
) -> Result<Option<Header>, NoMemory> {
    let (Some(space), Some(end)) = (memchr(b' ', start), memchr(0, start)) else {
        return Ok(None);
    };
    let Some(kind) = Kind::from_bytes(start.split_at(space).0) else {
        return Ok(None);
    };
    let Some(size) = length.checked_sub((end as u64).saturating_add(1)) else {
        return Ok(None);
    };
    // A size has one spelling.
    let mut header = Vec::with_capacity(alloc, 32)?;
    push_header(&mut header, kind, size)?;
    if start.starts_with(&header) {
        Ok(Some(Header { kind, size }))
    } else {
        Ok(None)
    }
}

/// The object that a file's text is, if it has the id.
pub(crate) fn read_object(
    alloc: Global,
    hash: HashKind,
    text: &[u8],
    id: &ObjectId,
) -> Result<Option<(Kind, Bytes)>, NoMemory>
    ensures { IfOk result (λ found. IfSome found (λ object.
        object_id hash (kind_name object.0) object.1 ≡ id.now)) }
{
    let Some(header) = read_header(alloc, text, text.len() as u64)? else {
        return Ok(None);
    };
    let Some(end) = memchr(0, text) else {
        return Ok(None);
    };
    let bytes = text.split_at(end + 1).1;
    if object_id(hash, header.kind.as_bytes(), bytes) != *id {
        return Ok(None);
    }
    Ok(Some((header.kind, Bytes::from_slice(alloc, bytes)?)))
}
