ghost use Rattle.std.specs.Prelude.{◌≡◌, [], ◌↔◌, IsTrue, Contains};

use std::alloc::Global;
use std::marker::Model;

/// The numbers of the calls that fail, counted from 1.
#[derive(Debug, Drop)]
pub struct Calls {
    vec: Vec<u64>,
}

impl Model for Calls {
    ghost use Rattle.std.specs.Prelude.{List, ℕ};

    ghost Value = { List ℕ };

    ghost view = { λ calls. calls.vec.items };
}

impl Calls {
    pub fn new(alloc: Global) -> Calls
        ensures { result ≡ [] }
    {
        Calls {
            vec: Vec::new(alloc),
        }
    }

    pub fn from_vec(vec: Vec<u64>) -> Calls
        ensures { result ≡ vec.items }
    {
        Calls { vec }
    }

    pub fn into_vec(self) -> Vec<u64>
        ensures { result.items ≡ self }
    {
        self.vec
    }

    pub fn as_slice(&self) -> &[u64]
        ensures { result.now ≡ self.now }
    {
        &self.vec
    }

    pub fn contains(&self, call: u64) -> bool
        ensures { IsTrue result ↔ Contains self.now call }
    {
        self.vec.contains(&call)
    }
}
