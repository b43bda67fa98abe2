//! Lists of references.

use gx_refs::Reference;
use std::marker::Model;

/// References as they were found, in rising order of the bytes of their names.
#[derive(Debug, Drop)]
pub struct ReferenceList {
    vec: Vec<Reference>,
}

impl Model for ReferenceList {
    ghost use Rattle.std.specs.Prelude.{List};
    ghost use Rattle.gx_refs.specs.declared.reference.Reference.{Reference};

    ghost Value = { List Reference };

    ghost view = { λ references. references.vec.items };
}

impl ReferenceList {
    ghost use Rattle.std.specs.Prelude.{◌≡◌};

    pub(crate) fn from_vec(vec: Vec<Reference>) -> ReferenceList
        ensures { result ≡ vec.items }
    {
        ReferenceList { vec }
    }

    pub fn into_vec(self) -> Vec<Reference>
        ensures { result.items ≡ self }
    {
        self.vec
    }

    pub fn as_slice(&self) -> &[Reference]
        ensures { result.now ≡ self.now }
    {
        &self.vec
    }
}
