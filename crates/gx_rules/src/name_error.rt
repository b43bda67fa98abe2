//! Why a text is no name of a reference.
ghost use Rattle.std.specs.Prelude.{◌≡◌};

use gx_hash::NoMemory;
use thiserror::Error;

/// Why a text is no full name: the first rule that it breaks, in the order of the variants. `at` is the
/// first place where it breaks that rule, counted in bytes from 0.
#[derive(Clone, Copy, Debug, PartialEq, Eq, Error)]
pub enum NameError {
    #[error("a reference name must not be empty")]
    Empty,
    /// A control character, a space, or one of `~^:?*[\`.
    #[error("byte {at} is not allowed in a reference name")]
    InvalidByte { at: usize },
    #[error("a reference name must not contain '..', as at byte {at}")]
    RepeatedDot { at: usize },
    #[error("a reference name must not contain '@{{', as at byte {at}")]
    ReflogPortion { at: usize },
    #[error("a reference name must not start with a slash")]
    StartsWithSlash,
    #[error("a reference name must not end with a slash")]
    EndsWithSlash,
    #[error("a reference name must not contain '//', as at byte {at}")]
    RepeatedSlash { at: usize },
    /// The place is that of the dot.
    #[error("no component of a reference name may start with a dot, as at byte {at}")]
    StartsWithDot { at: usize },
    /// The place is that of the suffix's dot.
    #[error("no component of a reference name may end with '.lock', as at byte {at}")]
    LockFileSuffix { at: usize },
    #[error("a reference name must not end with a dot")]
    EndsWithDot,
    #[error("a reference name must not be '@'")]
    SingleAt,
    /// A name without a slash has only capital letters and underscores, as `HEAD` and `FETCH_HEAD`.
    #[error("a reference name without a slash has capital letters and underscores only")]
    SomeLowercase,
    #[error("out of memory")]
    NoMemory,
}

impl From<NoMemory> for NameError {
    ghost use Rattle.gx_rules.specs.declared.name_error.NameError.TheVariants as name_error;

    ghost from_gives = { λ _ error. error ≡ name_error.NoMemory };

    fn from(_: NoMemory) -> NameError {
        NameError::NoMemory
    }
}
