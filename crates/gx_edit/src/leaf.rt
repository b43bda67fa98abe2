//! What stands at the end of a path.

use gx_hash::ObjectId;
use gx_object::{EntryKind, EntryMode};

/// What a path can end at: a file, a link or a submodule, and the id of its content.
#[derive(Clone, Copy, Debug, PartialEq, Eq)]
pub struct Leaf {
    pub mode: EntryMode,
    pub id: ObjectId,
}

impl Leaf {
    ghost use Rattle.std.specs.Prelude.{◌≡◌};
    ghost use Rattle.gx_edit.specs.PathList.{leaf_of};

    /// The leaf of an entry of this kind.
    pub fn new(kind: EntryKind, id: ObjectId) -> Leaf
        ensures { result ≡ leaf_of kind id }
    {
        Leaf {
            mode: EntryMode::from(kind),
            id,
        }
    }
}
