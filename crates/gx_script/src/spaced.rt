//! Lists of fields, a space before each.

ghost use Rattle.gx_hash.specs.ObjectId.{hex_of};
ghost use Rattle.gx_script.specs.Fields.{IsId, walk_id_text};
ghost use Rattle.gx_script.specs.Items.{IsField, NoNewline};
ghost use Rattle.gx_script.specs.Lines.{AreSpaced, AreNotSpaced};
ghost use Rattle.gx_script.specs.declared.lists.WalkId.{WalkId};
ghost use Rattle.std.specs.Prelude.{◌≡◌, List, ℕ, length, IfOk, MatchOption};

use crate::WalkId;
use crate::fields::{object_id, walk_id};
use crate::split::next_field;
use gx_hash::{Bytes, HashKind, NoMemory, ObjectId};
use std::alloc::Global;

/// The ids that the bytes spell, at most this many.
pub fn ids(
    alloc: Global,
    hash: HashKind,
    bytes: &[u8],
    most: usize,
) -> Result<Option<Vec<ObjectId>>, NoMemory>
    ensures { IfOk result (λ found. MatchOption found (AreNotSpaced hex_of (IsId hash) most bytes.now)
        (λ ids. AreSpaced hex_of (IsId hash) most bytes.now ids.items)) }
{
    let mut ids = Vec::new(alloc);
    let mut rest = bytes;
    'fields: while !rest.is_empty() {
        let Some((field, more)) = next_field(rest) else {
            return Ok(None);
        };
        let Some(id) = object_id(hash, field) else {
            return Ok(None);
        };
        if ids.len() >= most {
            return Ok(None);
        }
        ids.push(id)?;
        rest = more;
    }
    Ok(Some(ids))
}

/// The ids of a walk that the bytes spell, at most this many.
pub fn walk_ids(
    alloc: Global,
    hash: HashKind,
    bytes: &[u8],
    most: usize,
) -> Result<Option<Vec<WalkId>>, NoMemory>
    ensures { IfOk result (λ found. MatchOption found
        (AreNotSpaced walk_id_text (λ (walked : WalkId). IsId hash walked.id) most bytes.now)
        (λ ids. AreSpaced walk_id_text (λ (walked : WalkId). IsId hash walked.id) most bytes.now ids.items)) }
{
    let mut ids = Vec::new(alloc);
    let mut rest = bytes;
    'fields: while !rest.is_empty() {
        let Some((field, more)) = next_field(rest) else {
            return Ok(None);
        };
        let Some(id) = walk_id(hash, field) else {
            return Ok(None);
        };
        if ids.len() >= most {
            return Ok(None);
        }
        ids.push(id)?;
        rest = more;
    }
    Ok(Some(ids))
}

/// The fields of the bytes.
pub fn patterns(alloc: Global, bytes: &[u8]) -> Result<Option<Vec<Bytes>>, NoMemory>
    requires { NoNewline bytes.now }
    ensures { IfOk result (λ found. MatchOption found
        (AreNotSpaced (λ (field : List ℕ). field) IsField (length bytes.now) bytes.now)
        (λ fields. AreSpaced (λ (field : List ℕ). field) IsField (length bytes.now) bytes.now fields.items)) }
{
    let mut fields = Vec::new(alloc);
    let mut rest = bytes;
    'fields: while !rest.is_empty() {
        let Some((field, more)) = next_field(rest) else {
            return Ok(None);
        };
        fields.push(Bytes::from_slice(alloc, field)?)?;
        rest = more;
    }
    Ok(Some(fields))
}
