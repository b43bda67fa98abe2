//! The nearest name of a commit.

mod function;
mod name_map;
mod search;
mod text;

ghost use Rattle.std.specs.Prelude.{◌≡◌, ◌↔◌, false, IsTrue};
ghost use Rattle.gx_walk.specs.Describe.{parents_by};

use crate::Parents;
pub use function::describe;
use gx_hash::{Bytes, ObjectId};
pub use name_map::NameMap;

/// How a commit is described.
#[derive(Drop)]
pub struct Options {
    pub names: NameMap,
    /// Where there is no name, the id alone is the description.
    pub fallback: bool,
    /// Only the first parent of each commit is followed.
    pub first_parent: bool,
    /// How many named commits are compared. With 0, only the commit's own name counts.
    pub max_candidates: usize,
}

impl Options {
    /// The parents that are followed.
    fn parents(&self) -> Parents
        ensures { result ≡ parents_by self.now.first_parent }
    {
        if self.first_parent {
            Parents::First
        } else {
            Parents::All
        }
    }
}

/// The description of a commit.
#[derive(Debug, Drop)]
pub struct Outcome {
    /// The name of the nearest commit that has one. There is none where the id itself is the description.
    pub name: Option<Bytes>,
    /// The commit that is described.
    pub id: ObjectId,
    /// How many commits it reaches that the named one does not; 0 without a name.
    pub depth: u64,
}

impl Outcome {
    /// What is printed, with so many hex digits of the id. It is short: set `long` to have it long.
    pub fn into_format(self, hex_len: usize) -> Format
        ensures { result ≡ record {
          name = self.name;
          id = self.id;
          hex_len = hex_len;
          depth = self.depth;
          long = false;
        } }
    {
        Format {
            name: self.name,
            id: self.id,
            hex_len,
            depth: self.depth,
            long: false,
        }
    }
}

/// A description to be printed. Its text is `v1` for a commit that has that name, `v1-2-g0123456` for another, and
/// `0123456` without a name.
#[derive(Debug, Drop)]
pub struct Format {
    pub name: Option<Bytes>,
    pub id: ObjectId,
    /// How many hex digits of the id there are, at most.
    pub hex_len: usize,
    pub depth: u64,
    /// The depth and the id are shown for a commit that has the name itself, too.
    pub long: bool,
}

impl Format {
    /// Whether the depth is 0: the commit has the name itself, or there is no name.
    pub fn is_exact_match(&self) -> bool
        ensures { IsTrue result ↔ (self.now.depth ≡ 0) }
    {
        self.depth == 0
    }
}
