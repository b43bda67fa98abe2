//! Why no object of a kind is found.

ghost use Rattle.std.specs.Prelude.{◌≡◌};

use super::KindError;
use super::find::FindError;
use gx_hash::ObjectId;
use gx_object::Kind;
use gx_store::What;
use thiserror::Error;

/// Why no object of the asked kind is found.
#[derive(Debug, PartialEq, Eq, Drop, Error)]
pub enum FindAsError {
    #[error("the object {id:?} is not stored")]
    NotFound {
        id: ObjectId,
    },
    #[error("the object {id:?} is a {actual:?} and no {expected:?}")]
    ObjectKind {
        id: ObjectId,
        expected: Kind,
        actual: Kind,
    },
    #[error("the store failed at {what:?}")]
    Store {
        what: What,
    },
    #[error("out of memory")]
    NoMemory,
}

impl From<FindError> for FindAsError {
    ghost use Rattle.gix.specs.FoundObjects.{find_as_error};

    ghost from_gives = { λ refusal e. e ≡ find_as_error refusal };

    fn from(refusal: FindError) -> FindAsError {
        match refusal {
            FindError::NotFound { id } => FindAsError::NotFound { id },
            FindError::Store { what } => FindAsError::Store { what },
            FindError::NoMemory => FindAsError::NoMemory,
        }
    }
}

impl From<KindError> for FindAsError {
    ghost use Rattle.gix.specs.FoundObjects.{of_other_kind};

    ghost from_gives = { λ refusal e. e ≡ of_other_kind refusal };

    fn from(refusal: KindError) -> FindAsError {
        FindAsError::ObjectKind {
            id: refusal.id,
            expected: refusal.expected,
            actual: refusal.actual,
        }
    }
}
