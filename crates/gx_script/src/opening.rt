ghost use Rattle.gx_script.specs.Grammar.{SaysOpening, IsNo};
ghost use Rattle.gx_script.specs.Items.{NoNewline};
ghost use Rattle.gx_script.specs.Lines.{IsOneLine, IsNoOneLine, IsNoCommit, IsNoTag, IsNoRef, IsNoNoteSet};
ghost use Rattle.std.specs.Prelude.{◌≡◌, IfOk, MatchOption};

use crate::fields::{block_size, expect, full_name, kind, object_id, partial_name, target};
use crate::history_forms::history_form;
use crate::note_forms::note_form;
use crate::reference_forms::reference_form;
use crate::split::{after, triple};
use crate::{Expect, Request};
use gx_hash::{Bytes, HashKind, NoMemory, ObjectId};
use gx_object::Kind;
use gx_rules::{FullName, PartialName};
use gx_store::Target;
use std::alloc::Global;

/// What the first line of a request says.
#[derive(Drop)]
pub enum Opening {
    /// It is the whole request.
    OneLine(Request),
    Commit(FullName),
    Tag(Bytes, ObjectId, Kind),
    Ref(FullName, Target, Expect),
    /// A note of this size follows.
    NoteSet(PartialName, ObjectId, usize),
}

/// The request that the line is.
fn one_line(alloc: Global, hash: HashKind, line: &[u8]) -> Result<Option<Request>, NoMemory>
    requires { NoNewline line.now }
    ensures { IfOk result (λ found. IsOneLine hash line.now (IsNoOneLine hash line.now) found) }
{
    if let Some(request) = reference_form(alloc, hash, line)? {
        return Ok(Some(request));
    }
    if let Some(request) = history_form(alloc, hash, line)? {
        return Ok(Some(request));
    }
    note_form(alloc, hash, line)
}

fn commit_opening(alloc: Global, hash: HashKind, line: &[u8]) -> Result<Option<Opening>, NoMemory>
    ensures { IfOk result (λ found. MatchOption found (IsNoCommit line.now)
        (λ opening. SaysOpening hash opening line.now)) }
{
    let _ = hash;
    let Some(name) = after(line, b"commit ") else {
        return Ok(None);
    };
    match full_name(alloc, name)? {
        Some(name) => Ok(Some(Opening::Commit(name))),
        None => Ok(None),
    }
}

fn tag_opening(alloc: Global, hash: HashKind, line: &[u8]) -> Result<Option<Opening>, NoMemory>
    requires { NoNewline line.now }
    ensures { IfOk result (λ found. MatchOption found (IsNoTag hash line.now)
        (λ opening. SaysOpening hash opening line.now)) }
{
    let Some((name, hex, word)) = triple(line, b"tag ") else {
        return Ok(None);
    };
    let Some(target) = object_id(hash, hex) else {
        return Ok(None);
    };
    let Some(kind) = kind(word) else {
        return Ok(None);
    };
    if name.is_empty() {
        return Ok(None);
    }
    let name = Bytes::from_slice(alloc, name)?;
    Ok(Some(Opening::Tag(name, target, kind)))
}

fn ref_opening(alloc: Global, hash: HashKind, line: &[u8]) -> Result<Option<Opening>, NoMemory>
    ensures { IfOk result (λ found. MatchOption found (IsNoRef hash line.now)
        (λ opening. SaysOpening hash opening line.now)) }
{
    let Some((name, aim, wanted)) = triple(line, b"ref ") else {
        return Ok(None);
    };
    let Some(name) = full_name(alloc, name)? else {
        return Ok(None);
    };
    let Some(target) = target(alloc, hash, aim)? else {
        return Ok(None);
    };
    let Some(expect) = expect(alloc, hash, wanted)? else {
        return Ok(None);
    };
    Ok(Some(Opening::Ref(name, target, expect)))
}

fn note_opening(alloc: Global, hash: HashKind, line: &[u8]) -> Result<Option<Opening>, NoMemory>
    ensures { IfOk result (λ found. MatchOption found (IsNoNoteSet hash line.now)
        (λ opening. SaysOpening hash opening line.now)) }
{
    let Some((name, hex, digits)) = triple(line, b"note-set ") else {
        return Ok(None);
    };
    let Some(reference) = partial_name(alloc, name)? else {
        return Ok(None);
    };
    let Some(object) = object_id(hash, hex) else {
        return Ok(None);
    };
    match block_size(digits) {
        Some(size) => Ok(Some(Opening::NoteSet(reference, object, size))),
        None => Ok(None),
    }
}

/// What the first line of a request says.
pub fn read_opening(alloc: Global, hash: HashKind, line: &[u8]) -> Result<Option<Opening>, NoMemory>
    requires { NoNewline line.now }
    ensures { IfOk result (λ found. MatchOption found (IsNo (SaysOpening hash) line.now)
        (λ opening. SaysOpening hash opening line.now)) }
{
    if let Some(opening) = commit_opening(alloc, hash, line)? {
        return Ok(Some(opening));
    }
    if let Some(opening) = tag_opening(alloc, hash, line)? {
        return Ok(Some(opening));
    }
    if let Some(opening) = ref_opening(alloc, hash, line)? {
        return Ok(Some(opening));
    }
    if let Some(opening) = note_opening(alloc, hash, line)? {
        return Ok(Some(opening));
    }
    match one_line(alloc, hash, line)? {
        Some(request) => Ok(Some(Opening::OneLine(request))),
        None => Ok(None),
    }
}
