//! Annotated tags of a repository.

mod read;

use crate::{Id, ObjectDetached, Tag};
use gx_hash::{Bytes, NoMemory};
use gx_object::Kind;
use std::alloc::Global;
use std::convert::AsSlice;
use std::fmt;

impl<'repo, S> Tag<'repo, S> {
    ghost use Rattle.std.specs.Prelude.{◌≡◌, [], IfOk};
    ghost use Rattle.gix.specs.AttachedObjects.{attached_id, of_tag, of_id};

    /// The id, with the repository.
    pub fn id(&self) -> Id<'repo, S>
        ensures { of_id result ≡ attached_id self.now.id (of_tag self.now).repository }
    {
        Id {
            inner: self.id,
            repo: self.repo,
        }
    }

    /// The same tag, with a copy of the bytes.
    pub fn try_clone(&self) -> Result<Tag<'repo, S>, NoMemory>
        ensures { IfOk result (λ copy. of_tag copy ≡ of_tag self.now) }
    {
        Ok(Tag {
            id: self.id,
            bytes: self.bytes.try_clone()?,
            repo: self.repo,
        })
    }

    /// A copy of the tag that knows no repository.
    pub fn detached(&self) -> Result<ObjectDetached, NoMemory>
        ensures { IfOk result (λ copy. copy ≡ (of_tag self.now).object) }
    {
        Ok(ObjectDetached {
            id: self.id,
            kind: Kind::Tag,
            bytes: self.bytes.try_clone()?,
        })
    }

    /// The tag without the repository.
    pub fn detach(self) -> ObjectDetached
        ensures { result ≡ (of_tag self.entry).object }
    {
        ObjectDetached::from(self)
    }

    /// The bytes, of which none are left here.
    pub fn take_data(&mut self, alloc: Global) -> Bytes
        ensures bytes { result ≡ self.old.bytes }
        ensures rest { self.new ≡ record self.old { bytes = [] } }
    {
        std::mem::replace(&mut self.bytes, Bytes::new(alloc))
    }
}

impl<'repo, S> From<Tag<'repo, S>> for ObjectDetached {
    ghost use Rattle.std.specs.Prelude.{◌≡◌};
    ghost use Rattle.gix.specs.AttachedObjects.{of_tag};

    ghost from_gives = { λ tag detached. detached ≡ (of_tag tag).object };

    fn from(tag: Tag<'repo, S>) -> ObjectDetached {
        let Tag { id, bytes, repo: _ } = tag;
        ObjectDetached {
            id,
            kind: Kind::Tag,
            bytes,
        }
    }
}

impl<'repo, S> AsSlice<u8> for Tag<'repo, S> {
    ghost items = { λ tag. tag.bytes };

    fn as_slice(&self) -> &[u8] {
        self.bytes.as_slice()
    }
}

impl<'repo, S> fmt::Debug for Tag<'repo, S> {
    ghost use Rattle.std.specs.Prelude.{◌++◌, Some, codes};
    ghost use Rattle.gx_hash.specs.ObjectId.{hex_of};

    ghost debug_output = { λ tag. Some (codes "Tag(" ++ hex_of tag.id ++ codes ")") };

    fn fmt<W: fmt::Write>(&self, f: &mut fmt::Formatter<W>) -> fmt::Result {
        write!(f, "Tag({})", self.id)
    }
}
