ghost use Rattle.gx_script.specs.Commits.{put_line, module_line, drop_line, IsEdit};
ghost use Rattle.gx_script.specs.Grammar.{put_word, edit_of, SaysChange, IsNo};
ghost use Rattle.gx_script.specs.Changes.{IsNoPut, IsNoModule, IsNoDrop, SaysEdit, IsNoEdit};
ghost use Rattle.gx_script.specs.Items.{NoNewline, block_limit};
ghost use Rattle.gx_script.specs.Fields.{end_line};
ghost use Rattle.std.specs.Prelude.{◌≡◌, ◌≢◌, ◌≤◌, IfOk, MatchBool, MatchOption};

use crate::fields::{block_size, object_id};
use crate::split::{after, pair, triple};
use gx_edit::PathEdit;
use gx_hash::{Bytes, HashKind, NoMemory};
use std::alloc::Global;

/// What is put at a path with its content.
#[derive(Clone, Copy)]
pub enum PutKind {
    File,
    Executable,
    Link,
}

impl PutKind {
    /// The kind that the bytes name.
    fn named(bytes: &[u8]) -> Option<PutKind>
        ensures { MatchOption result ((kind : PutKind) → bytes.now ≡ put_word kind → ⊥)
            (λ kind. bytes.now ≡ put_word kind) }
    {
        match bytes {
            b"file" => Some(PutKind::File),
            b"exec" => Some(PutKind::Executable),
            b"link" => Some(PutKind::Link),
            _ => None,
        }
    }

    pub fn edit(self, path: Bytes, bytes: Bytes) -> PathEdit
        ensures { result ≡ edit_of self path bytes }
    {
        match self {
            PutKind::File => PathEdit::File {
                path,
                bytes,
                executable: false,
            },
            PutKind::Executable => PathEdit::File {
                path,
                bytes,
                executable: true,
            },
            PutKind::Link => PathEdit::Link { path, bytes },
        }
    }
}

/// A line among the edits of a commit.
#[derive(Drop)]
pub enum Change {
    /// Puts something at the path. A block of this size follows.
    Put(PutKind, usize, Bytes),
    /// An edit that has no block.
    Whole(PathEdit),
    End,
}

/// The kind, size and path in a line that puts something.
fn put(line: &[u8]) -> Option<(PutKind, usize, &[u8])>
    ensures { MatchOption result (IsNoPut line.now)
        (λ p. (p.1 ≤ block_limit) × (line.now ≡ put_line (put_word p.0) p.1 p.2.now)) }
{
    let (word, digits, path) = triple(line, b"put ")?;
    let kind = PutKind::named(word)?;
    let size = block_size(digits)?;
    Some((kind, size, path))
}

/// The edit in a line that puts a submodule.
fn module(alloc: Global, hash: HashKind, line: &[u8]) -> Result<Option<PathEdit>, NoMemory>
    requires { NoNewline line.now }
    ensures { IfOk result (λ found. MatchOption found (IsNoModule hash line.now)
        (λ edit. SaysEdit hash edit line.now)) }
{
    let Some((hex, path)) = pair(line, b"module ") else {
        return Ok(None);
    };
    let Some(id) = object_id(hash, hex) else {
        return Ok(None);
    };
    if id.is_null() {
        return Ok(None);
    }
    let path = Bytes::from_slice(alloc, path)?;
    Ok(Some(PathEdit::Module { path, id }))
}

/// The edit in a line that has no block.
fn whole(alloc: Global, hash: HashKind, line: &[u8]) -> Result<Option<PathEdit>, NoMemory>
    requires { NoNewline line.now }
    ensures { IfOk result (λ found. MatchOption found (IsNoModule hash line.now × IsNoDrop line.now)
        (λ edit. SaysEdit hash edit line.now)) }
{
    if let Some(path) = after(line, b"drop ") {
        let path = Bytes::from_slice(alloc, path)?;
        return Ok(Some(PathEdit::Remove { path }));
    }
    module(alloc, hash, line)
}

/// What a line that edits says, where a block may have this many bytes.
fn edit(alloc: Global, hash: HashKind, room: u64, line: &[u8]) -> Result<Option<Change>, NoMemory>
    requires { NoNewline line.now }
    ensures { IfOk result (λ found. MatchOption found (IsNoEdit hash room line.now)
        (λ change. SaysChange hash 0 room change line.now)) }
{
    if let Some((kind, size, path)) = put(line) {
        if size as u64 > room {
            return Ok(None);
        }
        let path = Bytes::from_slice(alloc, path)?;
        return Ok(Some(Change::Put(kind, size, path)));
    }
    match whole(alloc, hash, line)? {
        Some(edit) => Ok(Some(Change::Whole(edit))),
        None => Ok(None),
    }
}

/// Whether a line ends a request.
pub fn is_end(line: &[u8]) -> bool
    ensures { MatchBool result (line.now ≡ end_line) (line.now ≢ end_line) }
{
    matches!(line, b"end")
}

/// The most edits of a commit.
const EDIT_LIMIT: usize = 65536;

/// What a line among the edits says, after this many edits, where a block may have this many bytes.
pub fn read_change(
    alloc: Global,
    hash: HashKind,
    count: usize,
    room: u64,
    line: &[u8],
) -> Result<Option<Change>, NoMemory>
    requires { NoNewline line.now }
    ensures { IfOk result (λ found. MatchOption found (IsNo (SaysChange hash count room) line.now)
        (λ change. SaysChange hash count room change line.now)) }
{
    if is_end(line) {
        return Ok(Some(Change::End));
    }
    if count >= EDIT_LIMIT {
        return Ok(None);
    }
    match edit(alloc, hash, room, line)? {
        Some(change) => Ok(Some(change)),
        None => Ok(None),
    }
}
