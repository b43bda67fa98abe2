ghost use Rattle.gx_store.specs.Faults.{Rose};
ghost use Rattle.gx_store.specs.Outside.{Takes, IsEnd};
ghost use Rattle.std.specs.Prelude.{◌≡◌, ℕ, ◌<◌, ◌≤◌, List, [], Option, length, take, OnErr, IfOk};

use thiserror::Error;

/// Why nothing was read.
#[derive(Clone, Copy, Debug, PartialEq, Eq, Error)]
pub enum SourceError {
    #[error("a read failed")]
    Failed,
}

/// Bytes that are read from front to end, as a script.
pub trait Source {
    /// What is left, where it is told. No call changes whether it is told.
    ghost left: { Self → Option (List ℕ) };

    /// How many faults were counted.
    ghost faults: { Self → ℕ };

    /// Takes the next bytes, into the front of the buffer. It may take fewer than fit, but none only at the end.
    fn read(&mut self, buf: &mut [u8]) -> Result<usize, SourceError>
        requires { 0 < length buf.old }
        ensures count { IfOk result (λ count. count ≤ length buf.new) }
        ensures taken { IfOk result (λ count. Takes (left self.old) (left self.new) (take count buf.new)) }
        ensures ended { IfOk result (λ count. count ≡ 0 → IsEnd (left self.new)) }
        ensures later { faults self.old ≤ faults self.new }
        ensures failed { OnErr result (Rose (faults self.old) (faults self.new)) }
        ensures failed_takes { OnErr result (Takes (left self.old) (left self.new) []) };
}
