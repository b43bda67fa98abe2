use crate::samples::only;
use gx_hash::{Bytes, NoMemory};
use gx_store::{Calls, MemorySource, Source, SourceError, StdSource};
use std::alloc::Global;
use std::io::{self, Read};

/// All that ten reads give, and how many of them failed.
fn read_all<S: Source>(alloc: Global, source: &mut S) -> Result<(Vec<u8>, usize), NoMemory> {
    let mut found = Vec::new(alloc);
    let mut failed: usize = 0;
    for _ in 0..10 {
        let mut buf = [0; 3];
        match source.read(&mut buf) {
            Ok(count) => found.extend_from_slice(&buf[..count])?,
            Err(SourceError::Failed) => failed = failed.saturating_add(1),
        }
    }
    Ok((found, failed))
}

/// Whether the bytes are given in pieces of that size, also where a call fails.
fn are_given(alloc: Global, size: usize, call: u64) -> Result<bool, NoMemory> {
    if size == 0 {
        return Ok(true);
    }
    let bytes = Bytes::from_slice(alloc, b"abcdef")?;
    let mut source = MemorySource::chunked(bytes, only(alloc, call)?, size);
    let (found, failed) = read_all(alloc, &mut source)?;
    Ok(found.as_slice() == b"abcdef".as_slice() && failed == usize::from(call != 0))
}

fn all_are_given(alloc: Global) -> Result<bool, NoMemory> {
    for size in 1..8 {
        for call in 0..10 {
            if !are_given(alloc, size, call)? {
                return Ok(false);
            }
        }
    }
    Ok(true)
}

#[test]
fn pieces_of_each_size_are_given_whichever_read_fails(rt: HostRuntime) {
    assert!(rt; all_are_given(rt.alloc()).unwrap_or(false));
}

fn are_sizes_kept(alloc: Global) -> Result<bool, NoMemory> {
    let bytes = Bytes::from_slice(alloc, b"abc")?;
    let mut source = MemorySource::chunked(bytes, only(alloc, 2)?, 2);
    let mut buf = [0; 4];
    Ok(
        source.read(&mut buf) == Ok(2)
            && source.read(&mut buf) == Err(SourceError::Failed)
            && source.read(&mut buf) == Ok(1)
            && buf[0] == b'c'
            && source.read(&mut buf) == Ok(0),
    )
}

#[test]
fn a_read_that_fails_takes_nothing(rt: HostRuntime) {
    assert!(rt; are_sizes_kept(rt.alloc()).unwrap_or(false));
}

fn is_all_given(alloc: Global) -> Result<bool, NoMemory> {
    let bytes = Bytes::from_slice(alloc, b"abc")?;
    let mut source = MemorySource::new(bytes, Calls::new(alloc));
    let mut buf = [0; 4];
    Ok(source.read(&mut buf) == Ok(3) && source.read(&mut buf) == Ok(0))
}

#[test]
fn all_that_fits_is_given(rt: HostRuntime) {
    assert!(rt; is_all_given(rt.alloc()).unwrap_or(false));
}

fn is_read_to_its_end() -> bool {
    let mut source = StdSource::new(b"abc".as_slice());
    let mut buf = [0; 2];
    source.read(&mut buf) == Ok(2)
        && buf == *b"ab"
        && source.read(&mut buf) == Ok(1)
        && buf[0] == b'c'
        && source.read(&mut buf) == Ok(0)
        && source.fault_count() == 0
}

#[test]
fn a_reader_is_read_to_its_end(rt: HostRuntime) {
    assert!(rt; is_read_to_its_end());
}

/// A reader that gives a byte at each second call, and else fails.
#[derive(Drop)]
struct Lame {
    works: bool,
}

impl Read for Lame {
    fn read(&mut self, buf: &mut [u8]) -> io::Result<usize> {
        self.works = !self.works;
        if !self.works || buf.is_empty() {
            return Err(io::Error::from(io::ErrorKind::Other));
        }
        buf[0] = b'a';
        Ok(1)
    }
}

fn is_error_a_fault() -> bool {
    let mut source = StdSource::new(Lame { works: true });
    let mut buf = [0; 2];
    source.read(&mut buf) == Err(SourceError::Failed)
        && source.fault_count() == 1
        && source.read(&mut buf) == Ok(1)
        && source.read(&mut buf) == Err(SourceError::Failed)
        && source.fault_count() == 2
}

#[test]
fn an_error_of_a_reader_is_a_fault(rt: HostRuntime) {
    assert!(rt; is_error_a_fault());
}
