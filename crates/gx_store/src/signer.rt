ghost use Rattle.gx_store.specs.Faults.{Rose};
ghost use Rattle.std.specs.Prelude.{◌≡◌, ℕ, ◌≤◌, List, Option, option_map, is_some, IfOk, IfSome, OnOk, OnErr};

use gx_hash::{Bytes, NoMemory};
use std::alloc::Global;
use thiserror::Error;

/// Why nothing was signed.
#[derive(Clone, Copy, Debug, PartialEq, Eq, Error)]
pub enum SignerError {
    #[error("signing failed")]
    Failed,
    #[error("out of memory")]
    NoMemory,
}

impl From<NoMemory> for SignerError {
    ghost use Rattle.gx_store.specs.declared.signer.SignerError.TheVariants.{NoMemory as no_memory};

    ghost from_gives = { λ _ e. e ≡ no_memory };

    fn from(_: NoMemory) -> SignerError {
        SignerError::NoMemory
    }
}

/// What makes signatures, as a program that holds a key.
pub trait Signer {
    /// The signature that the next call answers with Ok, where it is told. No call changes whether it is told.
    ghost text: { Self → Option (List ℕ) };

    /// The bytes that were signed last, where they are told. No call changes whether they are told.
    ghost last: { Self → Option (List ℕ) };

    /// How many faults were counted.
    ghost faults: { Self → ℕ };

    /// Signs the bytes.
    fn sign(&mut self, alloc: Global, bytes: &[u8]) -> Result<Bytes, SignerError>
        ensures text { IfOk result (λ signature. IfSome (text self.old) (λ text. signature ≡ text)) }
        ensures told { is_some (text self.new) ≡ is_some (text self.old) }
        ensures last { OnOk result (last self.new ≡ option_map (λ _. bytes.now) (last self.old)) }
        ensures err_last { OnErr result (last self.new ≡ last self.old) }
        ensures later { faults self.old ≤ faults self.new }
        ensures failed { result ≡ Err SignerError.Failed → Rose (faults self.old) (faults self.new) };
}
