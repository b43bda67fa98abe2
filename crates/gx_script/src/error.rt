ghost use Rattle.gx_script.specs.declared.error.ScriptError.TheVariants.{NoMemory as no_memory, ReadFault as read_fault};
ghost use Rattle.std.specs.Prelude.{◌≡◌};

use gx_hash::NoMemory;
use gx_store::SourceError;
use std::alloc::{AllocError, AllocFailed};
use thiserror::Error;

/// Why a script can't be read on.
#[derive(Clone, Copy, Debug, PartialEq, Eq, Error)]
pub enum ScriptError {
    /// The bytes are no script from this line on. Lines are counted from 1.
    #[error("line {line} is malformed")]
    Malformed { line: u64 },
    /// The source failed.
    #[error("a read failed")]
    ReadFault,
    /// The source has a byte past the limit, and those before may still become requests.
    #[error("the script is too long")]
    TooLong,
    /// Memory for what was read is missing.
    #[error("out of memory")]
    NoMemory,
}

impl From<SourceError> for ScriptError {
    ghost from_gives = { λ _ e. e ≡ read_fault };

    fn from(_: SourceError) -> ScriptError {
        ScriptError::ReadFault
    }
}

impl From<NoMemory> for ScriptError {
    ghost from_gives = { λ _ e. e ≡ no_memory };

    fn from(_: NoMemory) -> ScriptError {
        ScriptError::NoMemory
    }
}

impl From<AllocError> for ScriptError {
    ghost from_gives = { λ _ e. e ≡ no_memory };

    fn from(_: AllocError) -> ScriptError {
        ScriptError::NoMemory
    }
}

impl<T: Drop> From<AllocFailed<T>> for ScriptError {
    ghost from_gives = { λ _ e. e ≡ no_memory };

    fn from(_: AllocFailed<T>) -> ScriptError {
        ScriptError::NoMemory
    }
}
