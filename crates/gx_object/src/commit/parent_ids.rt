//! The ids of a commit's parents, one by one.
ghost use Rattle.gx_object.specs.ParentReach.{HasLeft};
ghost use Rattle.gx_object.specs.PartsRead.{object_text};

use crate::CommitRefIter;
use crate::commit::lines::{id_line, id_of};
use gx_hash::{HashKind, ObjectId};
use std::marker::Model;

/// Gives the ids of a commit's parents, in their order, without taking memory. It ends in front of the first line
/// that names no parent, be it an error or the author.
#[derive(Clone, Debug, Drop)]
pub struct ParentIds<'a> {
    bytes: &'a [u8],
    rest: &'a [u8],
    hash: HashKind,
    /// How many ids it has given.
    given: usize,
}

impl<'a> Model for ParentIds<'a> {
    ghost use Rattle.gx_object.specs.PartsRead.{PartsRead, object_text};

    ghost Value = { PartsRead };

    ghost use Rattle.gx_object.specs.ParentReach.{HasLeft, read_at};

    ghost view = { λ it. read_at (object_text it.hash it.bytes.now) it.given };

    ghost invariant = { λ it. HasLeft (object_text it.hash it.bytes.now) it.rest.now it.given };
}

impl<'a> CommitRefIter<'a> {
    ghost use Rattle.std.specs.Prelude.{◌≡◌, Some};

    /// The ids of the commit's parents up to the first error, however far this iterator has come.
    pub fn parent_ids(&self) -> ParentIds<'a>
        ensures { result ≡ record { text = self.now.text; given = Some 0 } }
    {
        ParentIds {
            bytes: self.bytes,
            rest: after_tree(self.bytes, self.hash),
            hash: self.hash,
            given: 0,
        }
    }
}

// What follows the line with the tree, or nothing where there is none.
fn after_tree(bytes: &[u8], hash: HashKind) -> &[u8]
    ensures { HasLeft (object_text hash bytes.now) result.now 0 }
{
    match id_line(bytes, b"tree ", hash) {
        Some((_, rest)) => rest,
        None => b"",
    }
}

impl<'a> Iterator for ParentIds<'a> {
    ghost use Rattle.std.specs.Iterator.{at_most};
    ghost use Rattle.gx_object.specs.ParentIds.{GivesParent, ids_left};

    type Item = ObjectId;

    ghost next_gives = { GivesParent };

    ghost remaining = { λ read. at_most (ids_left read) };

    fn next(&mut self) -> Option<ObjectId> {
        let (text, rest) = id_line(self.rest, b"parent ", self.hash)?;
        self.rest = rest;
        self.given += 1;
        Some(id_of(text.as_bytes(), self.hash))
    }
}
