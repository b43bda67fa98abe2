//! Scripts, and what they are read from and applied to.

use gix::{Repository, Settings};
use gx_hash::{Bytes, HashKind, NoMemory};
use gx_object::Time;
use gx_store::{Calls, Memory, MemorySink, MemorySource};
use gx_tool::run;
use std::alloc::Global;

/// A commit of one file. The ids here are those that Git's commands give (rows/scripts).
pub const FIRST: &[u8] = b"commit refs/heads/main\nauthor 1 0 A\ta@x\ncommitter 1 0 A\ta@x\n\
message 3\nc1\n\nput file 11 hello\nhello world\nend\n";

/// A commit on the first, which adds a file in a directory, and its reply.
pub const SECOND: &[u8] = b"commit refs/heads/main\nauthor 1 0 A\ta@x\ncommitter 1 0 A\ta@x\n\
parent d432cc22925b1fddcaa9fdf18c688bd7411e65ed\n\
message 3\nc2\n\nput file 1 d/x\nx\nend\n";

pub const NOW: Time = Time {
    seconds: 1,
    offset: 0,
};

/// The two commits, one after the other.
pub fn both(alloc: Global) -> Result<Vec<u8>, NoMemory> {
    let mut script = Vec::from_slice(alloc, FIRST)?;
    script.extend_from_slice(SECOND)?;
    Ok(script)
}

/// One call that fails. No call has the number 0.
pub fn call(alloc: Global, nth: u64) -> Result<Calls, NoMemory> {
    let mut calls = Vec::new(alloc);
    calls.push(nth)?;
    Ok(Calls::from_vec(calls))
}

/// A source of the bytes that gives at most this many at once, and of which a call fails.
pub fn source(
    alloc: Global,
    bytes: &[u8],
    most: usize,
    failing: u64,
) -> Result<MemorySource, NoMemory> {
    let bytes = Bytes::from_slice(alloc, bytes)?;
    Ok(MemorySource::chunked(bytes, call(alloc, failing)?, most.max(1)))
}

pub fn empty_repository(alloc: Global) -> Result<Repository<Memory>, NoMemory> {
    let store = Memory::new(alloc, HashKind::Sha1)?;
    Ok(Repository::new(store, Settings::new()))
}

pub fn words(alloc: Global) -> Result<Vec<String>, NoMemory> {
    let mut words = Vec::new(alloc);
    words.push(String::from_str(alloc, "--memory")?)?;
    words.push(String::from_str(alloc, "apply")?)?;
    Ok(words)
}

/// The status of a run, and what was written.
#[derive(Drop)]
pub struct Outcome {
    pub status: u8,
    pub written: Bytes,
}

/// Runs what the source gives.
pub fn run_between(
    alloc: Global,
    repo: &mut Repository<Memory>,
    mut input: MemorySource,
    mut output: MemorySink,
) -> Result<Outcome, NoMemory> {
    let words = words(alloc)?;
    let status = run(alloc, &words, NOW, repo, &mut input, &mut output);
    Ok(Outcome {
        status,
        written: Bytes::from_slice(alloc, output.written())?,
    })
}

/// Applies a script.
pub fn apply(
    alloc: Global,
    repo: &mut Repository<Memory>,
    script: &[u8],
) -> Result<Outcome, NoMemory> {
    let input = source(alloc, script, usize::MAX, 0)?;
    let output = MemorySink::new(alloc, Calls::new(alloc));
    run_between(alloc, repo, input, output)
}
