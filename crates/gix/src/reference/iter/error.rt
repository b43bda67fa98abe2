//! Why references are not listed.

use gx_store::{StoreError, What};
use thiserror::Error;

/// Why a listing is refused.
#[derive(Debug, PartialEq, Eq, Drop, Error)]
pub enum IterError {
    /// The prefix begins with a slash, or one of its components is `.` or `..`.
    #[error("the prefix is no relative path")]
    RelativePath,
    #[error("the store failed at {what:?}")]
    Store { what: What },
    #[error("out of memory")]
    NoMemory,
}

impl From<StoreError> for IterError {
    ghost use Rattle.std.specs.Prelude.{◌≡◌};
    ghost use Rattle.gix.specs.References.{of_store};

    ghost from_gives = { λ refusal e. e ≡ of_store refusal };

    fn from(refusal: StoreError) -> IterError {
        match refusal {
            StoreError::NoMemory => IterError::NoMemory,
            StoreError::Fault { what } => IterError::Store { what },
        }
    }
}
