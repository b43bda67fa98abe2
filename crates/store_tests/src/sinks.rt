use crate::samples::only;
use gx_hash::NoMemory;
use gx_store::{Calls, MemorySink, Sink, SinkError, StdSink};
use std::alloc::Global;
use std::io::{self, Write};

/// Writes each piece, of which none is empty, and tells which call fails, counted from 1; 0 where none does.
fn write_all<S: Sink>(sink: &mut S, pieces: &[&[u8]]) -> usize {
    let mut failed = 0;
    for (at, piece) in pieces.iter().enumerate() {
        if !piece.is_empty() && sink.write(piece) == Err(SinkError::Failed) {
            failed = at.saturating_add(1);
        }
    }
    failed
}

/// Of four writes the one fails, and writes nothing.
fn one_fails(alloc: Global, call: u64, wanted: &[u8]) -> Result<bool, NoMemory> {
    let mut sink = MemorySink::new(alloc, only(alloc, call)?);
    let failed = write_all(&mut sink, &[b"ab", b"c", b"def", b"g"]);
    Ok(failed as u64 == call && sink.written() == wanted)
}

fn each_fails(alloc: Global) -> Result<bool, NoMemory> {
    Ok(
        one_fails(alloc, 0, b"abcdefg")?
            && one_fails(alloc, 1, b"cdefg")?
            && one_fails(alloc, 2, b"abdefg")?
            && one_fails(alloc, 3, b"abcg")?
            && one_fails(alloc, 4, b"abcdef")?,
    )
}

#[test]
fn listed_writes_fail_and_write_nothing(rt: HostRuntime) {
    assert!(rt; each_fails(rt.alloc()).unwrap_or(false));
}

/// A writer that takes at most two bytes at once, and these bytes alone.
#[derive(Drop)]
struct Narrow {
    wanted: &'static [u8],
}

impl Write for Narrow {
    fn write(&mut self, piece: &[u8]) -> io::Result<usize> {
        let count = piece.len().min(2);
        match self.wanted.strip_prefix(&piece[..count]) {
            Some(rest) => {
                self.wanted = rest;
                Ok(count)
            }
            None => Err(io::Error::from(io::ErrorKind::InvalidData)),
        }
    }

    fn flush(&mut self) -> io::Result<()> {
        Ok(())
    }
}

fn is_written_in_pieces() -> bool {
    let mut sink = StdSink::new(Narrow { wanted: b"abcd" });
    sink.write(b"abc") == Ok(2) && sink.write(b"c") == Ok(1) && sink.fault_count() == 0
}

#[test]
fn a_writer_may_take_less(rt: HostRuntime) {
    assert!(rt; is_written_in_pieces());
}

fn is_error_a_fault() -> bool {
    let mut sink = StdSink::new(Narrow { wanted: b"abcd" });
    sink.write(b"x") == Err(SinkError::Failed)
        && sink.fault_count() == 1
        && sink.write(b"ab") == Ok(2)
        && sink.write(b"x") == Err(SinkError::Failed)
        && sink.fault_count() == 2
}

#[test]
fn an_error_of_a_writer_is_a_fault(rt: HostRuntime) {
    assert!(rt; is_error_a_fault());
}

/// A slice takes what fits into it, and then nothing.
fn is_full_a_fault(place: &mut [u8]) -> bool {
    let mut sink = StdSink::new(place);
    sink.write(b"ab") == Ok(2)
        && sink.write(b"cd") == Ok(1)
        && sink.write(b"d") == Err(SinkError::Failed)
        && sink.fault_count() == 1
}

#[test]
fn a_write_of_nothing_is_a_fault(rt: HostRuntime) {
    let mut place = [0; 3];
    let is_fault = is_full_a_fault(&mut place);
    assert!(rt; is_fault && place == *b"abc");
}

fn are_calls_kept(alloc: Global) -> Result<bool, NoMemory> {
    let calls = only(alloc, 3)?;
    Ok(
        calls.contains(3)
            && !calls.contains(2)
            && Calls::new(alloc).as_slice().is_empty()
            && calls.into_vec().as_slice() == [3].as_slice(),
    )
}

#[test]
fn calls_that_fail_are_listed(rt: HostRuntime) {
    assert!(rt; are_calls_kept(rt.alloc()).unwrap_or(false));
}
