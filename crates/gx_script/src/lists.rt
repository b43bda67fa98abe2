ghost use Rattle.std.specs.Prelude.{◌≡◌, []};

use gx_hash::{Bytes, ObjectId};
use std::alloc::Global;
use std::marker::Model;

/// An id that a walk begins at, or one whose history it hides.
#[derive(Clone, Copy, Debug, PartialEq, Eq)]
pub struct WalkId {
    pub id: ObjectId,
    pub hidden: bool,
}

/// The ids of a walk, in their order.
#[derive(Debug, Drop)]
pub struct WalkIds {
    vec: Vec<WalkId>,
}

impl Model for WalkIds {
    ghost use Rattle.std.specs.Prelude.{List};
    ghost use Rattle.gx_script.specs.declared.lists.WalkId.{WalkId};

    ghost Value = { List WalkId };

    ghost view = { λ ids. ids.vec.items };
}

impl WalkIds {
    /// No ids.
    pub fn new(alloc: Global) -> WalkIds
        ensures { result ≡ [] }
    {
        WalkIds {
            vec: Vec::new(alloc),
        }
    }

    /// The ids of the vector.
    pub fn from_vec(vec: Vec<WalkId>) -> WalkIds
        ensures { result ≡ vec.items }
    {
        WalkIds { vec }
    }

    /// The ids as a vector.
    pub fn into_vec(self) -> Vec<WalkId>
        ensures { result.items ≡ self }
    {
        self.vec
    }

    /// The ids as a slice.
    pub fn as_slice(&self) -> &[WalkId]
        ensures { result.now ≡ self.now }
    {
        &self.vec
    }
}

/// Patterns of names of references, in their order.
#[derive(Debug, Drop)]
pub struct Patterns {
    vec: Vec<Bytes>,
}

impl Model for Patterns {
    ghost use Rattle.std.specs.Prelude.{List, ℕ};

    ghost Value = { List (List ℕ) };

    ghost view = { λ patterns. patterns.vec.items };
}

impl Patterns {
    /// No patterns.
    pub fn new(alloc: Global) -> Patterns
        ensures { result ≡ [] }
    {
        Patterns {
            vec: Vec::new(alloc),
        }
    }

    /// The patterns of the vector.
    pub fn from_vec(vec: Vec<Bytes>) -> Patterns
        ensures { result ≡ vec.items }
    {
        Patterns { vec }
    }

    /// The patterns as a vector.
    pub fn into_vec(self) -> Vec<Bytes>
        ensures { result.items ≡ self }
    {
        self.vec
    }

    /// The patterns as a slice.
    pub fn as_slice(&self) -> &[Bytes]
        ensures { result.now ≡ self.now }
    {
        &self.vec
    }
}
