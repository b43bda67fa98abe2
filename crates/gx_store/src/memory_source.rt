ghost use Rattle.gx_store.specs.Faults.{Rose};
ghost use Rattle.gx_store.specs.MemoryEnds.{counted};
ghost use Rattle.gx_store.specs.Outside.{Takes, IsEnd};
ghost use Rattle.std.specs.Prelude.{◌≡◌, ◌↔◌, ℕ, ◌<◌, ◌≤◌, ◌-◌, ◌^◌, List, [], Some, length, min, take, drop, vec_len, Contains, IsErr, OnErr, IfOk};

use crate::{Calls, Source, SourceError};
use gx_hash::Bytes;
use std::marker::Model;

/// Bytes in memory, of which listed calls fail.
#[derive(Debug, Drop)]
pub struct MemorySource {
    bytes: Vec<u8>,
    place: usize,
    most: usize,
    failing: Calls,
    calls: u64,
    faults: u64,
}

impl Model for MemorySource {
    ghost use Rattle.gx_store.specs.MemoryEnds.{MemorySourceState};
    ghost use Rattle.std.specs.Prelude.{◌≤◌, ◌<◌, drop, vec_len};

    ghost Value = { MemorySourceState };

    ghost view = { λ s. record {
      left = drop s.place s.bytes.items;
      most = s.most;
      failing = s.failing;
      calls = s.calls;
      faults = s.faults;
    } };

    ghost invariant = { λ s. (s.place ≤ vec_len s.bytes) × (0 < s.most) };
}

impl MemorySource {
    /// A source that gives as much as is asked for.
    pub fn new(bytes: Bytes, failing: Calls) -> MemorySource
        ensures { result ≡ record { left = bytes; most = 2 ^ 64 - 1; failing = failing; calls = 0; faults = 0 } }
    {
        MemorySource::chunked(bytes, failing, usize::MAX)
    }

    /// A source that gives at most this many bytes at once.
    pub fn chunked(bytes: Bytes, failing: Calls, most: usize) -> MemorySource
        requires { 0 < most }
        ensures { result ≡ record { left = bytes; most = most; failing = failing; calls = 0; faults = 0 } }
    {
        MemorySource {
            bytes: bytes.into_vec(),
            place: 0,
            most,
            failing,
            calls: 0,
            faults: 0,
        }
    }
}

impl Source for MemorySource {
    ghost left = { λ s. Some s.left };

    ghost faults = { λ s. s.faults };

    fn read(&mut self, buf: &mut [u8]) -> Result<usize, SourceError>
        requires { 0 < length buf.old }
        ensures count { IfOk result (λ count. count ≤ length buf.new) }
        ensures taken { IfOk result (λ count. Takes (Some self.old.left) (Some self.new.left) (take count buf.new)) }
        ensures ended { IfOk result (λ count. count ≡ 0 → self.new.left ≡ []) }
        ensures later { self.old.faults ≤ self.new.faults }
        ensures failed { OnErr result (Rose self.old.faults self.new.faults) }
        ensures failed_takes { OnErr result (self.new.left ≡ self.old.left) }
        ensures size { IfOk result (λ count. count ≡ min self.old.most (min (length buf.old) (length self.old.left))) }
        ensures fails { IsErr result ↔ Contains self.old.failing (counted self.old.calls) }
        ensures calls { self.new.calls ≡ counted self.old.calls }
        ensures same { (self.new.failing ≡ self.old.failing) × (self.new.most ≡ self.old.most) }
    {
        self.calls = self.calls.saturating_add(1);
        if self.failing.contains(self.calls) {
            self.faults = self.faults.saturating_add(1);
            return Err(SourceError::Failed);
        }
        let rest = &self.bytes[self.place..];
        let count = rest.len().min(buf.len()).min(self.most);
        buf[..count].copy_from_slice(&rest[..count]);
        self.place += count;
        Ok(count)
    }
}
