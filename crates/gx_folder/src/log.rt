//! Logs as their files have them: a line after the other, each with a newline behind it.
ghost use Rattle.std.specs.Prelude.{◌≡◌, IfOk, IfSome};
ghost use Rattle.gx_store.specs.Kinds.{IsLineOfKind, AreLinesOfKind};

use gx_hash::{HashKind, NoMemory};
use gx_store::{LineError, Lines, LogLine, push_log_line};
use memchr::memchr;
use std::alloc::Global;

/// The bytes that are appended to a log for a line. A line that would be two has none.
pub(crate) fn line_text(alloc: Global, line: &LogLine) -> Result<Option<Vec<u8>>, NoMemory> {
    let mut text = Vec::new(alloc);
    push_log_line(&mut text, line)?;
    if text.contains(&b'\n') {
        return Ok(None);
    }
    text.push(b'\n')?;
    Ok(Some(text))
}

/// A line without its newline, if it is one.
fn read_line(alloc: Global, hash: HashKind, text: &[u8]) -> Result<Option<LogLine>, NoMemory>
    ensures { IfOk result (λ found. IfSome found (IsLineOfKind hash)) }
{
    match LogLine::from_bytes(alloc, text, hash) {
        Ok(line) => Ok(Some(line)),
        Err(LineError::BadLine) => Ok(None),
        Err(LineError::NoMemory) => Err(NoMemory),
    }
}

/// The lines of a log's file, if they are such. What follows the last newline was cut off while it was written, and is
/// no line.
pub(crate) fn read_lines(
    alloc: Global,
    hash: HashKind,
    text: &[u8],
) -> Result<Option<Lines>, NoMemory>
    ensures { IfOk result (λ found. IfSome found (AreLinesOfKind hash)) }
{
    let mut lines = Vec::new(alloc);
    let mut rest = text;
    for _ in 0..text.len() {
        let Some(end) = memchr(b'\n', rest) else {
            break;
        };
        match read_line(alloc, hash, rest.split_at(end).0)? {
            Some(line) => lines.push(line)?,
            None => return Ok(None),
        }
        rest = rest.split_at(end + 1).1;
    }
    Ok(Some(Lines::from_vec(lines)))
}
