//! The entries of a tree, one by one.

use super::decode::split_entry;
use crate::{DecodeError, EntryRef};
use gx_hash::HashKind;
use std::marker::Model;

/// The entries that a tree's bytes spell, one by one. It takes no memory, and after an error it ends.
#[derive(Clone, Debug, Drop)]
pub struct TreeRefIter<'a> {
    bytes: &'a [u8],
    at: usize,
    hash: HashKind,
    /// How many entries it has given.
    given: usize,
    has_failed: bool,
}

impl<'a> Model for TreeRefIter<'a> {
    ghost use Rattle.gx_object.specs.PartsRead.{PartsRead, object_text};

    ghost Value = { PartsRead };

    ghost use Rattle.gx_object.specs.TreeReach.{HasGiven, read_at};

    ghost view = { λ it. read_at (object_text it.hash it.bytes.now) it.given it.has_failed };

    ghost invariant = { λ it. HasGiven (object_text it.hash it.bytes.now) it.at it.given };
}

impl<'a> TreeRefIter<'a> {
    ghost use Rattle.std.specs.Prelude.{◌≡◌, Some};

    /// An iterator over the entries that the bytes spell, with ids of this kind.
    pub fn from_bytes(bytes: &'a [u8], hash: HashKind) -> TreeRefIter<'a>
        ensures { result ≡ record { text = record { hash = hash; bytes = bytes.now }; given = Some 0 } }
    {
        TreeRefIter {
            bytes,
            at: 0,
            hash,
            given: 0,
            has_failed: false,
        }
    }
}

impl<'a> Iterator for TreeRefIter<'a> {
    ghost use Rattle.std.specs.Iterator.{at_most};
    ghost use Rattle.gx_object.specs.TreeIter.{GivesEntry, entries_left};

    type Item = Result<EntryRef<'a>, DecodeError>;

    ghost next_gives = { GivesEntry };

    ghost remaining = { λ read. at_most (entries_left read) };

    fn next(&mut self) -> Option<Result<EntryRef<'a>, DecodeError>> {
        if self.has_failed {
            return None;
        }
        let rest = self.bytes.split_at(self.at).1;
        if rest.is_empty() {
            return None;
        }
        match split_entry(self.hash, rest) {
            Some((entry, behind)) => {
                self.at = self.bytes.len() - behind.len();
                self.given += 1;
                Some(Ok(entry))
            }
            None => {
                self.has_failed = true;
                Some(Err(DecodeError::Decode { at: self.at }))
            }
        }
    }
}
