ghost use Rattle.gx_store.specs.Faults.{Rose};
ghost use Rattle.gx_store.specs.MemoryEnds.{counted};
ghost use Rattle.std.specs.Prelude.{◌≡◌, ◌↔◌, ℕ, ◌≤◌, List, [], Some, Contains, OnOk, OnErr, IfOk};

use crate::{Calls, Signer, SignerError};
use gx_hash::Bytes;
use std::alloc::Global;
use std::marker::Model;

/// A signer that answers one text each time and keeps the bytes that it signed last, where listed calls fail.
#[derive(Debug, Drop)]
pub struct MemorySigner {
    text: Bytes,
    last: Bytes,
    failing: Calls,
    calls: u64,
    faults: u64,
}

impl Model for MemorySigner {
    ghost use Rattle.gx_store.specs.MemoryEnds.{MemorySignerState};

    ghost Value = { MemorySignerState };

    ghost view = { λ s. record {
      text = s.text;
      last = s.last;
      failing = s.failing;
      calls = s.calls;
      faults = s.faults;
    } };
}

impl MemorySigner {
    pub fn new(alloc: Global, text: Bytes, failing: Calls) -> MemorySigner
        ensures { result ≡ record { text = text; last = []; failing = failing; calls = 0; faults = 0 } }
    {
        MemorySigner {
            text,
            last: Bytes::new(alloc),
            failing,
            calls: 0,
            faults: 0,
        }
    }

    /// The bytes that were signed last, and none before that.
    pub fn last(&self) -> &[u8]
        ensures { result.now ≡ self.now.last }
    {
        self.last.as_slice()
    }
}

impl Signer for MemorySigner {
    ghost text = { λ s. Some s.text };

    ghost last = { λ s. Some s.last };

    ghost faults = { λ s. s.faults };

    fn sign(&mut self, alloc: Global, bytes: &[u8]) -> Result<Bytes, SignerError>
        ensures text { IfOk result (λ signature. signature ≡ self.old.text) }
        ensures told { self.new.text ≡ self.old.text }
        ensures last { OnOk result (self.new.last ≡ bytes.now) }
        ensures err_last { OnErr result (self.new.last ≡ self.old.last) }
        ensures later { self.old.faults ≤ self.new.faults }
        ensures failed { result ≡ Err SignerError.Failed → Rose self.old.faults self.new.faults }
        ensures fails { (result ≡ Err SignerError.Failed) ↔ Contains self.old.failing (counted self.old.calls) }
        ensures calls { self.new.calls ≡ counted self.old.calls }
        ensures same { self.new.failing ≡ self.old.failing }
    {
        self.calls = self.calls.saturating_add(1);
        if self.failing.contains(self.calls) {
            self.faults = self.faults.saturating_add(1);
            return Err(SignerError::Failed);
        }
        let last = Bytes::from_slice(alloc, bytes)?;
        let text = self.text.try_clone()?;
        self.last = last;
        Ok(text)
    }
}
