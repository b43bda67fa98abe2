ghost use Rattle.std.specs.Prelude.{◌≡◌, None};
ghost use Rattle.gx_store.specs.Adapters.{writer_of, write_faults};

use crate::{Sink, SinkError};
use std::io::Write;

/// A writer of std, as a sink that tells nothing. A write of no byte counts as a fault.
#[derive(Drop)]
pub struct StdSink<W> {
    inner: W,
    faults: u64,
}

impl<W: Write + Drop> StdSink<W> {
    pub fn new(inner: W) -> Self
        ensures inner { writer_of result ≡ inner }
        ensures faults { write_faults result ≡ 0 }
    {
        StdSink { inner, faults: 0 }
    }

    /// How many writes failed.
    pub fn fault_count(&self) -> u64
        ensures { result ≡ write_faults self.now }
    {
        self.faults
    }
}

impl<W: Write + Drop> Sink for StdSink<W> {
    ghost written = { λ s. None };

    ghost faults = { write_faults };

    fn write(&mut self, piece: &[u8]) -> Result<usize, SinkError> {
        match self.inner.write(piece) {
            Ok(count) if count > 0 => Ok(count),
            _ => {
                self.faults = self.faults.saturating_add(1);
                Err(SinkError::Failed)
            }
        }
    }
}
