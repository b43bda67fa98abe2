ghost use Rattle.gx_store.specs.Faults.{Rose};
ghost use Rattle.gx_store.specs.Outside.{Writes};
ghost use Rattle.std.specs.Prelude.{◌≡◌, ℕ, ◌<◌, ◌≤◌, List, [], Option, length, take, OnErr, IfOk};

use thiserror::Error;

/// Why nothing was written.
#[derive(Clone, Copy, Debug, PartialEq, Eq, Error)]
pub enum SinkError {
    #[error("a write failed")]
    Failed,
    #[error("out of memory")]
    NoMemory,
}

/// Bytes that are written one after another, as replies.
pub trait Sink {
    /// What was written, where it is told. No call changes whether it is told.
    ghost written: { Self → Option (List ℕ) };

    /// How many faults were counted.
    ghost faults: { Self → ℕ };

    /// Writes a front of the piece, at least a byte of it, and answers how long that is.
    fn write(&mut self, piece: &[u8]) -> Result<usize, SinkError>
        requires { 0 < length piece.now }
        ensures count { IfOk result (λ count. (0 < count) × (count ≤ length piece.now)) }
        ensures written { IfOk result (λ count. Writes (written self.old) (written self.new) (take count piece.now)) }
        ensures later { faults self.old ≤ faults self.new }
        ensures failed { result ≡ Err SinkError.Failed → Rose (faults self.old) (faults self.new) }
        ensures failed_writes { OnErr result (Writes (written self.old) (written self.new) []) };
}
