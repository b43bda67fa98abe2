ghost use Rattle.std.specs.Prelude.{◌≡◌, [], IfOk};

use gx_hash::NoMemory;
use gx_rules::FullName;
use std::alloc::Global;
use std::marker::Model;

/// A list of reference names.
#[derive(Debug, Drop)]
pub struct Names {
    vec: Vec<FullName>,
}

impl Model for Names {
    ghost use Rattle.std.specs.Prelude.{List, ℕ};

    ghost Value = { List (List ℕ) };

    ghost view = { λ names. names.vec.items };
}

impl Names {
    pub fn new(alloc: Global) -> Names
        ensures { result ≡ [] }
    {
        Names {
            vec: Vec::new(alloc),
        }
    }

    pub fn from_vec(vec: Vec<FullName>) -> Names
        ensures { result ≡ vec.items }
    {
        Names { vec }
    }

    pub fn into_vec(self) -> Vec<FullName>
        ensures { result.items ≡ self }
    {
        self.vec
    }

    pub fn as_slice(&self) -> &[FullName]
        ensures { result.now ≡ self.now }
    {
        &self.vec
    }

    pub fn try_clone(&self) -> Result<Names, NoMemory>
        ensures { IfOk result (λ copy. copy ≡ self.now) }
    {
        let mut copies = Vec::with_capacity(*self.vec.allocator(), self.vec.len())?;
        for name in self.vec.as_slice() {
            copies.push(name.try_clone()?)?;
        }
        Ok(Names { vec: copies })
    }
}
