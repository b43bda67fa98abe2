// The paths of a map, one by one.

use crate::Leaf;
use gx_hash::ObjectId;
use gx_object::EntryMode;
use std::collections::btree_map::Iter;
use std::marker::Model;

/// A path of a map, and the leaf that stands there.
#[derive(Clone, Copy, Debug, PartialEq, Eq)]
pub struct PathEntry<'a> {
    pub path: &'a [u8],
    pub mode: EntryMode,
    pub id: ObjectId,
}

/// The paths of a map that are left, in byte order of the whole paths.
#[derive(Drop)]
pub struct PathEntries<'a> {
    rest: Iter<'a, Vec<u8>, Leaf>,
}

impl<'a> Model for PathEntries<'a> {
    ghost use Rattle.gx_edit.specs.PathList.{PathList};
    ghost use Rattle.gx_edit.specs.PathTexts.{rows_in};

    ghost Value = { PathList };

    ghost view = { λ entries. rows_in entries.rest };
}

impl<'a> PathEntries<'a> {
    ghost use Rattle.std.specs.Prelude.{◌≡◌};
    ghost use Rattle.gx_edit.specs.PathTexts.{rows_in};

    pub(super) fn new(rest: Iter<'a, Vec<u8>, Leaf>) -> PathEntries<'a>
        ensures { result ≡ rows_in rest.entry }
    {
        PathEntries { rest }
    }
}

impl<'a> Iterator for PathEntries<'a> {
    ghost use Rattle.std.specs.Iterator.{YieldsFirstBy, item_count};

    type Item = PathEntry<'a>;

    ghost next_gives = { YieldsFirstBy (λ entry. (entry.path.now, record { mode = entry.mode; id = entry.id }))
        (λ rows. rows) };

    ghost remaining = { item_count (λ rows. rows) };

    fn next(&mut self) -> Option<PathEntry<'a>> {
        let (path, leaf) = self.rest.next()?;
        Some(PathEntry {
            path: path.as_slice(),
            mode: leaf.mode,
            id: leaf.id,
        })
    }
}
