//! Blobs of a repository.

use crate::{Blob, Id, ObjectDetached};
use gx_hash::{Bytes, NoMemory};
use gx_object::Kind;
use std::alloc::Global;
use std::convert::AsSlice;
use std::fmt;

impl<'repo, S> Blob<'repo, S> {
    ghost use Rattle.std.specs.Prelude.{◌≡◌, [], IfOk};
    ghost use Rattle.gix.specs.AttachedObjects.{attached_id, of_blob, of_id};

    /// The id, with the repository.
    pub fn id(&self) -> Id<'repo, S>
        ensures { of_id result ≡ attached_id self.now.id (of_blob self.now).repository }
    {
        Id {
            inner: self.id,
            repo: self.repo,
        }
    }

    /// The same blob, with a copy of the bytes.
    pub fn try_clone(&self) -> Result<Blob<'repo, S>, NoMemory>
        ensures { IfOk result (λ copy. of_blob copy ≡ of_blob self.now) }
    {
        Ok(Blob {
            id: self.id,
            bytes: self.bytes.try_clone()?,
            repo: self.repo,
        })
    }

    /// A copy of the blob that knows no repository.
    pub fn detached(&self) -> Result<ObjectDetached, NoMemory>
        ensures { IfOk result (λ copy. copy ≡ (of_blob self.now).object) }
    {
        Ok(ObjectDetached {
            id: self.id,
            kind: Kind::Blob,
            bytes: self.bytes.try_clone()?,
        })
    }

    /// The blob without the repository.
    pub fn detach(self) -> ObjectDetached
        ensures { result ≡ (of_blob self.entry).object }
    {
        ObjectDetached::from(self)
    }

    /// The bytes, of which none are left here.
    pub fn take_data(&mut self, alloc: Global) -> Bytes
        ensures bytes { result ≡ self.old.bytes }
        ensures rest { self.new ≡ record self.old { bytes = [] } }
    {
        std::mem::replace(&mut self.bytes, Bytes::new(alloc))
    }
}

impl<'repo, S> From<Blob<'repo, S>> for ObjectDetached {
    ghost use Rattle.std.specs.Prelude.{◌≡◌};
    ghost use Rattle.gix.specs.AttachedObjects.{of_blob};

    ghost from_gives = { λ blob detached. detached ≡ (of_blob blob).object };

    fn from(blob: Blob<'repo, S>) -> ObjectDetached {
        let Blob { id, bytes, repo: _ } = blob;
        ObjectDetached {
            id,
            kind: Kind::Blob,
            bytes,
        }
    }
}

impl<'repo, S> AsSlice<u8> for Blob<'repo, S> {
    ghost items = { λ blob. blob.bytes };

    fn as_slice(&self) -> &[u8] {
        self.bytes.as_slice()
    }
}

impl<'repo, S> fmt::Debug for Blob<'repo, S> {
    ghost use Rattle.std.specs.Prelude.{◌++◌, Some, codes};
    ghost use Rattle.gx_hash.specs.ObjectId.{hex_of};

    ghost debug_output = { λ blob. Some (codes "Blob(" ++ hex_of blob.id ++ codes ")") };

    fn fmt<W: fmt::Write>(&self, f: &mut fmt::Formatter<W>) -> fmt::Result {
        write!(f, "Blob({})", self.id)
    }
}
