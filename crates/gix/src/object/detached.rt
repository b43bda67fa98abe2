//! Objects with and without their repository.

ghost use Rattle.std.specs.Prelude.{◌≡◌};
ghost use Rattle.gix.specs.AttachedObjects.{shown_name};

use crate::{Id, Object, ObjectDetached, Repository};
use gx_hash::{Bytes, NoMemory};
use gx_object::Kind;
use std::alloc::Global;
use std::convert::AsSlice;
use std::fmt;

impl<'repo, S> Object<'repo, S> {
    ghost use Rattle.std.specs.Prelude.{◌≡◌, [], IfOk};
    ghost use Rattle.gix.specs.AttachedObjects.{attached_id, of_object, of_id};

    /// The id, with the repository.
    pub fn id(&self) -> Id<'repo, S>
        ensures { of_id result ≡ attached_id self.now.id (of_object self.now).repository }
    {
        Id {
            inner: self.id,
            repo: self.repo,
        }
    }

    /// The same object, with a copy of the bytes.
    pub fn try_clone(&self) -> Result<Object<'repo, S>, NoMemory>
        ensures { IfOk result (λ copy. of_object copy ≡ of_object self.now) }
    {
        Ok(Object {
            id: self.id,
            kind: self.kind,
            bytes: self.bytes.try_clone()?,
            repo: self.repo,
        })
    }

    /// A copy of the object that knows no repository.
    pub fn detached(&self) -> Result<ObjectDetached, NoMemory>
        ensures { IfOk result (λ copy. copy ≡ (of_object self.now).object) }
    {
        Ok(ObjectDetached {
            id: self.id,
            kind: self.kind,
            bytes: self.bytes.try_clone()?,
        })
    }

    /// The object without the repository.
    pub fn detach(self) -> ObjectDetached
        ensures { result ≡ (of_object self.entry).object }
    {
        ObjectDetached::from(self)
    }

    /// The bytes, of which none are left here.
    pub fn take_data(&mut self, alloc: Global) -> Bytes
        ensures bytes { result ≡ self.old.bytes }
        ensures rest { self.new ≡ record self.old { bytes = [] } }
    {
        std::mem::replace(&mut self.bytes, Bytes::new(alloc))
    }
}

impl<'repo, S> From<Object<'repo, S>> for ObjectDetached {
    ghost use Rattle.std.specs.Prelude.{◌≡◌};
    ghost use Rattle.gix.specs.AttachedObjects.{of_object};

    ghost from_gives = { λ object detached. detached ≡ (of_object object).object };

    fn from(object: Object<'repo, S>) -> ObjectDetached {
        let Object {
            id,
            kind,
            bytes,
            repo: _,
        } = object;
        ObjectDetached { id, kind, bytes }
    }
}

impl<'repo, S> AsSlice<u8> for Object<'repo, S> {
    ghost items = { λ object. object.bytes };

    fn as_slice(&self) -> &[u8] {
        self.bytes.as_slice()
    }
}

impl ObjectDetached {
    ghost use Rattle.std.specs.Prelude.{◌≡◌, IfOk};
    ghost use Rattle.gix.specs.AttachedObjects.{attached, of_object};

    /// The object as one of the repository, which is not read.
    pub fn attach<S>(self, repo: &Repository<S>) -> Object<'_, S>
        ensures { of_object result ≡ attached self.id self.kind self.bytes repo.now }
    {
        let ObjectDetached { id, kind, bytes } = self;
        Object {
            id,
            kind,
            bytes,
            repo,
        }
    }

    /// The same object, with a copy of the bytes.
    pub fn try_clone(&self) -> Result<ObjectDetached, NoMemory>
        ensures { IfOk result (λ copy. copy ≡ self.now) }
    {
        Ok(ObjectDetached {
            id: self.id,
            kind: self.kind,
            bytes: self.bytes.try_clone()?,
        })
    }
}

impl AsSlice<u8> for ObjectDetached {
    ghost items = { λ object. object.bytes };

    fn as_slice(&self) -> &[u8] {
        self.bytes.as_slice()
    }
}

/// What an object of the kind is called where it is shown.
fn shown_name(kind: Kind) -> &'static str
    ensures { result.now ≡ shown_name kind }
{
    match kind {
        Kind::Blob => "Blob",
        Kind::Tree => "Tree",
        Kind::Commit => "Commit",
        Kind::Tag => "Tag",
    }
}

impl<'repo, S> fmt::Debug for Object<'repo, S> {
    ghost use Rattle.std.specs.Prelude.{◌++◌, Some, codes};
    ghost use Rattle.gx_hash.specs.ObjectId.{hex_of};
    ghost use Rattle.gix.specs.AttachedObjects.{shown_name};

    ghost debug_output = { λ object. Some (shown_name object.kind ++ codes "(" ++ hex_of object.id ++ codes ")") };

    fn fmt<W: fmt::Write>(&self, f: &mut fmt::Formatter<W>) -> fmt::Result {
        write!(f, "{}({})", shown_name(self.kind), self.id)
    }
}

impl fmt::Debug for ObjectDetached {
    ghost use Rattle.std.specs.Prelude.{◌++◌, Some, codes};
    ghost use Rattle.gx_hash.specs.ObjectId.{hex_of};
    ghost use Rattle.gix.specs.AttachedObjects.{shown_name};

    ghost debug_output = { λ object. Some (shown_name object.kind ++ codes "(" ++ hex_of object.id ++ codes ")") };

    fn fmt<W: fmt::Write>(&self, f: &mut fmt::Formatter<W>) -> fmt::Result {
        write!(f, "{}({})", shown_name(self.kind), self.id)
    }
}
