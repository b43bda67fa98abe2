//! The forms of one line that are about notes.

ghost use Rattle.gx_script.specs.Items.{NoNewline};
ghost use Rattle.gx_script.specs.Lines.{IsOneLine, IsNoNoteDrop, IsNoNoteGet, IsNoNote};
ghost use Rattle.std.specs.Prelude.{◌≡◌, IfOk};

use crate::fields::{object_id, partial_name};
use crate::spaced::patterns;
use crate::split::{after, next_field, pair};
use crate::{Patterns, Request};
use gx_hash::{HashKind, NoMemory};
use std::alloc::Global;

fn note_drop_form(alloc: Global, hash: HashKind, line: &[u8]) -> Result<Option<Request>, NoMemory>
    ensures { IfOk result (λ found. IsOneLine hash line.now (IsNoNoteDrop hash line.now) found) }
{
    let Some((name, hex)) = pair(line, b"note-drop ") else {
        return Ok(None);
    };
    let Some(reference) = partial_name(alloc, name)? else {
        return Ok(None);
    };
    match object_id(hash, hex) {
        Some(object) => Ok(Some(Request::NoteDrop { reference, object })),
        None => Ok(None),
    }
}

fn note_get_form(alloc: Global, hash: HashKind, line: &[u8]) -> Result<Option<Request>, NoMemory>
    requires { NoNewline line.now }
    ensures { IfOk result (λ found. IsOneLine hash line.now (IsNoNoteGet hash line.now) found) }
{
    let Some(fields) = after(line, b"note-get") else {
        return Ok(None);
    };
    let Some((hex, rest)) = next_field(fields) else {
        return Ok(None);
    };
    let Some(object) = object_id(hash, hex) else {
        return Ok(None);
    };
    match patterns(alloc, rest)? {
        Some(patterns) => Ok(Some(Request::NoteGet {
            object,
            patterns: Patterns::from_vec(patterns),
        })),
        None => Ok(None),
    }
}

/// The request that the line is, where it is one of these forms.
pub fn note_form(alloc: Global, hash: HashKind, line: &[u8]) -> Result<Option<Request>, NoMemory>
    requires { NoNewline line.now }
    ensures { IfOk result (λ found. IsOneLine hash line.now (IsNoNote hash line.now) found) }
{
    if let Some(request) = note_drop_form(alloc, hash, line)? {
        return Ok(Some(request));
    }
    note_get_form(alloc, hash, line)
}
