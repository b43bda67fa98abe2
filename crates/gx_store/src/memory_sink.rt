ghost use Rattle.gx_store.specs.Faults.{Rose};
ghost use Rattle.gx_store.specs.MemoryEnds.{counted};
ghost use Rattle.gx_store.specs.Outside.{Writes};
ghost use Rattle.std.specs.Prelude.{◌≡◌, ◌↔◌, ◌++◌, ℕ, ◌<◌, ◌≤◌, List, [], Some, length, take, Contains, OnErr, IfOk};

use crate::{Calls, Sink, SinkError};
use std::alloc::Global;
use std::marker::Model;

/// Bytes that were written in memory, where listed calls fail.
#[derive(Debug, Drop)]
pub struct MemorySink {
    bytes: Vec<u8>,
    failing: Calls,
    calls: u64,
    faults: u64,
}

impl Model for MemorySink {
    ghost use Rattle.gx_store.specs.MemoryEnds.{MemorySinkState};

    ghost Value = { MemorySinkState };

    ghost view = { λ s. record { written = s.bytes.items; failing = s.failing; calls = s.calls; faults = s.faults } };
}

impl MemorySink {
    pub fn new(alloc: Global, failing: Calls) -> MemorySink
        ensures { result ≡ record { written = []; failing = failing; calls = 0; faults = 0 } }
    {
        MemorySink {
            bytes: Vec::new(alloc),
            failing,
            calls: 0,
            faults: 0,
        }
    }

    /// All that was written so far.
    pub fn written(&self) -> &[u8]
        ensures { result.now ≡ self.now.written }
    {
        &self.bytes
    }
}

impl Sink for MemorySink {
    ghost written = { λ s. Some s.written };

    ghost faults = { λ s. s.faults };

    fn write(&mut self, piece: &[u8]) -> Result<usize, SinkError>
        requires { 0 < length piece.now }
        ensures count { IfOk result (λ count. (0 < count) × (count ≤ length piece.now)) }
        ensures written { IfOk result (λ count. self.new.written ≡ self.old.written ++ take count piece.now) }
        ensures later { self.old.faults ≤ self.new.faults }
        ensures failed { result ≡ Err SinkError.Failed → Rose self.old.faults self.new.faults }
        ensures failed_writes { OnErr result (self.new.written ≡ self.old.written) }
        ensures whole { IfOk result (λ count. count ≡ length piece.now) }
        ensures fails { (result ≡ Err SinkError.Failed) ↔ Contains self.old.failing (counted self.old.calls) }
        ensures calls { self.new.calls ≡ counted self.old.calls }
        ensures same { self.new.failing ≡ self.old.failing }
    {
        self.calls = self.calls.saturating_add(1);
        if self.failing.contains(self.calls) {
            self.faults = self.faults.saturating_add(1);
            return Err(SinkError::Failed);
        }
        match self.bytes.extend_from_slice(piece) {
            Ok(()) => Ok(piece.len()),
            Err(_) => Err(SinkError::NoMemory),
        }
    }
}
