//! Scripts in pieces of every size, sources that fail, and errors that stay.

use crate::scripts::{FIRST, SECOND, both, source};
use gx_hash::{HashKind, NoMemory};
use gx_script::{ScriptError, ScriptReader};
use gx_store::{MemorySource, Source};
use std::alloc::Global;

/// How many requests were read, and the error after them.
#[derive(Clone, Copy, PartialEq)]
struct Outcome {
    requests: u64,
    error: Option<ScriptError>,
}

fn read_on(reader: &mut ScriptReader, input: &mut MemorySource) -> Outcome {
    let mut requests = 0u64;
    for _ in 0..u64::MAX {
        match reader.next(input) {
            Ok(Some(_)) => requests = requests.saturating_add(1),
            Ok(None) => break,
            Err(error) => {
                return Outcome {
                    requests,
                    error: Some(error),
                };
            }
        }
    }
    Outcome {
        requests,
        error: None,
    }
}

/// Reads both commits, in pieces of at most this many bytes, from a source of which a call fails.
fn read(alloc: Global, most: usize, failing: u64) -> Result<Outcome, NoMemory> {
    let script = both(alloc)?;
    let mut input = source(alloc, &script, most, failing)?;
    let mut reader = ScriptReader::new(alloc, HashKind::Sha1, 1000)?;
    Ok(read_on(&mut reader, &mut input))
}

fn is_read_in_all_pieces(alloc: Global) -> Result<bool, NoMemory> {
    let whole = Outcome {
        requests: 2,
        error: None,
    };
    for most in 1..FIRST.len().saturating_add(SECOND.len()) {
        let outcome = read(alloc, most, 0)?;
        if outcome != whole {
            return Ok(false);
        }
    }
    Ok(true)
}

#[test]
fn a_script_may_come_in_pieces_of_any_size(rt: HostRuntime) {
    assert!(rt; is_read_in_all_pieces(rt.alloc()).unwrap_or(false));
}

/// What is read where this many bytes were taken before the call that fails.
fn cut_after(taken: u64) -> Outcome {
    let requests = if taken < FIRST.len() as u64 {
        0
    } else if taken < FIRST.len().saturating_add(SECOND.len()) as u64 {
        1
    } else {
        2
    };
    Outcome {
        requests,
        error: Some(ScriptError::ReadFault),
    }
}

/// Whether each of this many calls may fail, and no more calls are made.
fn fails_at_each(alloc: Global, most: usize, calls: u64) -> Result<bool, NoMemory> {
    for call in 1..=calls {
        let taken = call.saturating_sub(1).saturating_mul(most as u64);
        let outcome = read(alloc, most, call)?;
        if outcome != cut_after(taken) {
            return Ok(false);
        }
    }
    let more = read(alloc, most, calls.saturating_add(1))?;
    Ok(more.error.is_none() && more.requests == 2)
}

/// The commits have 108 and 143 bytes, so a source is asked 251 times for one byte, and once more at the end.
fn reads_fail(alloc: Global) -> Result<bool, NoMemory> {
    Ok(
        fails_at_each(alloc, 1, 252)?
            && fails_at_each(alloc, 2, 127)?
            && fails_at_each(alloc, 3, 85)?
            && fails_at_each(alloc, 1000, 2)?,
    )
}

#[test]
fn each_read_may_fail(rt: HostRuntime) {
    assert!(rt; reads_fail(rt.alloc()).unwrap_or(false));
}

/// Whether the reader answers the same error once more.
fn answers_again(reader: &mut ScriptReader, good: &mut MemorySource, error: ScriptError) -> bool {
    match reader.next(good) {
        Err(again) => again == error,
        Ok(_) => false,
    }
}

/// Whether nothing was taken of a source of the first script.
fn is_untouched(good: &mut MemorySource) -> bool {
    let mut left = [0; 200];
    match good.read(&mut left) {
        Ok(count) => count == FIRST.len(),
        Err(_) => false,
    }
}

/// Whether the reader answers as it did twice more, and takes nothing of a good script.
fn stays(alloc: Global, reader: &mut ScriptReader, error: ScriptError) -> Result<bool, NoMemory> {
    let mut good = source(alloc, FIRST, usize::MAX, 0)?;
    let is_same = answers_again(reader, &mut good, error);
    let is_still_same = answers_again(reader, &mut good, error);
    Ok(is_same && is_still_same && is_untouched(&mut good))
}

/// Whether a script within a limit, of which a read fails, ends with an error that stays.
fn error_stays(alloc: Global, script: &[u8], limit: u64, failing: u64) -> Result<bool, NoMemory> {
    let mut input = source(alloc, script, usize::MAX, failing)?;
    let mut reader = ScriptReader::new(alloc, HashKind::Sha1, limit)?;
    match read_on(&mut reader, &mut input).error {
        Some(error) => stays(alloc, &mut reader, error),
        None => Ok(false),
    }
}

/// A malformed script, one that is cut off, one that is too long, and a read that fails.
fn errors_stay(alloc: Global) -> Result<bool, NoMemory> {
    Ok(
        error_stays(alloc, b"head\nend\n", 1000, 0)?
            && error_stays(alloc, b"commit HEAD\n", 1000, 0)?
            && error_stays(alloc, FIRST, 50, 0)?
            && error_stays(alloc, FIRST, 1000, 2)?,
    )
}

#[test]
fn an_error_stays(rt: HostRuntime) {
    assert!(rt; errors_stay(rt.alloc()).unwrap_or(false));
}
