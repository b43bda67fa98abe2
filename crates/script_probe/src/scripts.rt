//! Scripts, read request by request.

use crate::requests::push_request;
use gx_hash::{Bytes, HashKind};
use gx_script::{Request, ScriptError, ScriptReader};
use gx_store::{Calls, MemorySource, Source, SourceError};
use probe_rows::ProbeError;
use probe_rows::answers::{hash_of, number_of, numbered, push_shown, word};
use std::alloc::Global;

/// The most bytes of a script that the program reads.
pub const SCRIPT_LIMIT: u64 = 1 << 40;

/// How many bytes a source gives at once, of a short script and of a long one. How it is read must not depend on that.
const SHORT_PIECES: [usize; 8] = [1, 2, 3, 4, 5, 7, 16, 100];

const LONG_PIECES: [usize; 4] = [100, 1000, 16384, 100000];

/// The most bytes of a short script.
const SHORT: usize = 4096;

/// A source that remembers whether its end was seen.
#[derive(Drop)]
pub struct Watched<I> {
    inner: I,
    is_ended: bool,
}

impl<I: Source + Drop> Watched<I> {
    pub fn new(inner: I) -> Self {
        Watched {
            inner,
            is_ended: false,
        }
    }
}

impl<I: Source + Drop> Source for Watched<I> {
    ghost left = { λ watched. I.left watched.inner };

    ghost faults = { λ watched. I.faults watched.inner };

    fn read(&mut self, buf: &mut [u8]) -> Result<usize, SourceError> {
        let count = self.inner.read(buf)?;
        if count == 0 {
            self.is_ended = true;
        }
        Ok(count)
    }
}

/// What is told of a script at a place.
#[derive(Drop)]
pub enum Told {
    /// A request, with all its fields.
    Request(Vec<u8>),
    End,
    /// What is wrong, and in which line.
    Wrong(Vec<u8>),
}

/// Reads on, and tells what was read.
pub fn next<I: Source + Drop>(
    alloc: Global,
    reader: &mut ScriptReader,
    input: &mut Watched<I>,
) -> Result<Told, ProbeError> {
    match reader.next(input) {
        Ok(Some(request)) => request_told(line_of(alloc, &request)),
        Ok(None) => Ok(Told::End),
        Err(error) => fault_told(alloc, error, input.is_ended),
    }
}

fn request_told(line: Result<Vec<u8>, ProbeError>) -> Result<Told, ProbeError> {
    Ok(Told::Request(line?))
}

fn line_of(alloc: Global, request: &Request) -> Result<Vec<u8>, ProbeError> {
    let mut line = Vec::new(alloc);
    push_request(alloc, &mut line, request)?;
    Ok(line)
}

fn fault_told(alloc: Global, error: ScriptError, is_ended: bool) -> Result<Told, ProbeError> {
    let line = fault(alloc, error, is_ended)?;
    Ok(Told::Wrong(line))
}

/// How a script is wrong. One that is cut off is told apart, since the reader asked for more and saw the end.
fn fault(alloc: Global, error: ScriptError, is_ended: bool) -> Result<Vec<u8>, ProbeError> {
    match error {
        ScriptError::Malformed { line } if is_ended => in_line(alloc, "truncated", line),
        ScriptError::Malformed { line } => in_line(alloc, "malformed", line),
        ScriptError::TooLong => word(alloc, "too long"),
        ScriptError::ReadFault => Err(ProbeError::Failed),
        ScriptError::NoMemory => Err(ProbeError::NoMemory),
    }
}

fn in_line(alloc: Global, text: &str, line: u64) -> Result<Vec<u8>, ProbeError> {
    let mut answer = word(alloc, text)?;
    push_shown(alloc, &mut answer, &line)?;
    Ok(answer)
}

/// The answers to rows on scripts: `script (sha1 | sha256) TEXT [LIMIT]`.
pub fn answer(alloc: Global, call: &str, fields: &[Vec<u8>]) -> Result<Vec<u8>, ProbeError> {
    match call {
        "script" => answer_script(alloc, fields),
        _ => Err(ProbeError::UnknownCall),
    }
}

fn answer_script(alloc: Global, fields: &[Vec<u8>]) -> Result<Vec<u8>, ProbeError> {
    match fields {
        [kind, text] => of_kind(alloc, kind, text, SCRIPT_LIMIT),
        [kind, text, limit] => match number_of(limit) {
            Some(limit) => of_kind(alloc, kind, text, limit),
            None => Err(ProbeError::UnknownCall),
        },
        _ => Err(ProbeError::UnknownCall),
    }
}

fn of_kind(alloc: Global, kind: &[u8], text: &[u8], limit: u64) -> Result<Vec<u8>, ProbeError> {
    match hash_of(kind) {
        Some(hash) => in_pieces(alloc, hash, text, limit),
        None => Err(ProbeError::UnknownCall),
    }
}

/// What is told of a script, whether it comes at once or in pieces.
fn in_pieces(
    alloc: Global,
    hash: HashKind,
    text: &[u8],
    limit: u64,
) -> Result<Vec<u8>, ProbeError> {
    let whole = listing(alloc, hash, text, limit, usize::MAX)?;
    let pieces: &[usize] = if text.len() <= SHORT {
        &SHORT_PIECES
    } else {
        &LONG_PIECES
    };
    for most in pieces {
        if listing(alloc, hash, text, limit, *most)? != whole {
            return numbered(alloc, "otherwise in pieces of", *most);
        }
    }
    Ok(whole)
}

/// What is told of a script, with `; ` between.
fn listing(
    alloc: Global,
    hash: HashKind,
    text: &[u8],
    limit: u64,
    most: usize,
) -> Result<Vec<u8>, ProbeError> {
    let bytes = Bytes::from_slice(alloc, text)?;
    let source = MemorySource::chunked(bytes, Calls::new(alloc), most.max(1));
    let mut input = Watched::new(source);
    let mut reader = ScriptReader::new(alloc, hash, limit)?;
    let mut answer = Vec::new(alloc);
    for _ in 0..u64::MAX {
        match next(alloc, &mut reader, &mut input)? {
            Told::Request(line) => {
                answer.extend_from_slice(&line)?;
                answer.extend_from_slice(b"; ")?;
            }
            Told::End => {
                answer.extend_from_slice(b"end")?;
                break;
            }
            Told::Wrong(line) => {
                answer.extend_from_slice(&line)?;
                break;
            }
        }
    }
    Ok(answer)
}
