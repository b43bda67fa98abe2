//! A tag's parts, one after another.

use crate::DecodeError;
use crate::commit::bad_line;
use crate::tag::items::{Stage, TagToken, next_item};
use gx_hash::HashKind;
use std::marker::Model;

/// Gives the parts of a tag without taking memory. After an error it ends.
///
/// ```
/// for part in TagRefIter::from_bytes(bytes, HashKind::Sha1) {
///     if let TagToken::Name(name) = part? {
///         println!(rt; "{name}")?;
///     }
/// }
/// ```
#[derive(Clone, Debug, Drop)]
pub struct TagRefIter<'a> {
    pub(crate) bytes: &'a [u8],
    rest: &'a [u8],
    stage: Stage,
    pub(crate) hash: HashKind,
}

impl<'a> Model for TagRefIter<'a> {
    ghost use Rattle.gx_object.specs.PartsRead.{PartsRead};

    ghost Value = { PartsRead };

    ghost use Rattle.gx_object.specs.TagFronts.{next_of, StandsAt};
    ghost use Rattle.gx_object.specs.TagItems.{read_before};

    ghost view = { λ it. read_before it.hash it.bytes.now (next_of it.stage) };

    ghost invariant = { λ it. StandsAt it.hash (next_of it.stage) it.bytes.now it.rest.now };
}

impl<'a> TagRefIter<'a> {
    ghost use Rattle.std.specs.Prelude.{◌≡◌, Some};

    /// The parts of the tag that the bytes spell, in a repository of this kind.
    pub fn from_bytes(bytes: &'a [u8], hash: HashKind) -> TagRefIter<'a>
        ensures { result ≡ record { text = record { hash = hash; bytes = bytes.now }; given = Some 0 } }
    {
        TagRefIter {
            bytes,
            rest: bytes,
            stage: Stage::Target,
            hash,
        }
    }
}

impl<'a> Iterator for TagRefIter<'a> {
    ghost use Rattle.std.specs.Iterator.{at_most};
    ghost use Rattle.gx_object.specs.TagItems.{GivesPart, parts_left};

    type Item = Result<TagToken<'a>, DecodeError>;

    ghost next_gives = { GivesPart };

    ghost remaining = { λ read. at_most (parts_left read) };

    fn next(&mut self) -> Option<Result<TagToken<'a>, DecodeError>> {
        if let Stage::End = self.stage {
            return None;
        }
        match next_item(self.rest, self.stage, self.hash) {
            Some((token, rest, stage)) => {
                self.rest = rest;
                self.stage = stage;
                Some(Ok(token))
            }
            None => {
                let error = bad_line(self.bytes, self.rest);
                self.stage = Stage::End;
                Some(Err(error))
            }
        }
    }
}
