ghost use Rattle.std.specs.Prelude.{◌≡◌, None};
ghost use Rattle.gx_store.specs.Adapters.{reader_of, read_faults};

use crate::{Source, SourceError};
use std::io::Read;

/// A reader of std, as a source that tells nothing.
#[derive(Drop)]
pub struct StdSource<R> {
    inner: R,
    faults: u64,
}

impl<R: Read + Drop> StdSource<R> {
    pub fn new(inner: R) -> Self
        ensures inner { reader_of result ≡ inner }
        ensures faults { read_faults result ≡ 0 }
    {
        StdSource { inner, faults: 0 }
    }

    /// How many reads failed.
    pub fn fault_count(&self) -> u64
        ensures { result ≡ read_faults self.now }
    {
        self.faults
    }
}

impl<R: Read + Drop> Source for StdSource<R> {
    ghost left = { λ s. None };

    ghost faults = { read_faults };

    fn read(&mut self, buf: &mut [u8]) -> Result<usize, SourceError> {
        match self.inner.read(buf) {
            Ok(count) => Ok(count),
            Err(_) => {
                self.faults = self.faults.saturating_add(1);
                Err(SourceError::Failed)
            }
        }
    }
}
