//! Objects that are written.

use crate::object::write::WriteError;
use crate::{Repository, object_laws};
use gx_hash::ObjectId;
use gx_object::{Kind, WriteTo};
use gx_store::Store;
use std::alloc::Global;

impl<S: Store> Repository<S> {
    ghost use Rattle.std.specs.Prelude.{◌≡◌};
    ghost use Rattle.gx_object.specs.declared.kind.Kind.TheVariants as object_kind;
    ghost use Rattle.gx_store.specs.Content.{id_of};
    ghost use Rattle.gix.specs.Meaning.{Means};
    ghost use Rattle.gix.specs.Repository.{held_by, store_of};
    ghost use Rattle.gix.specs.Writes.{buffer_writing, object_writing, writes};

    /// Stores an object of these bytes, whatever they spell, and answers its id. One whose id is there is not written
    /// again.
    ///
    /// ```
    /// let id = repo.write_buf(alloc, Kind::Blob, b"hello world")?;
    /// ```
    ///
    /// # Errors
    /// `Store` if the write failed; `NoMemory`.
    pub fn write_buf(
        &mut self,
        alloc: Global,
        kind: Kind,
        from: &[u8],
    ) -> Result<ObjectId, WriteError>
        ensures { Means (writes (buffer_writing kind from.now)) (held_by S.state self.old) result
            (held_by S.state self.new) }
    {
        object_laws::written_object_is_stored();
        Ok(gx_store::write_object(alloc, &mut self.store, kind, from)?)
    }

    /// The same of a blob.
    pub fn write_blob(&mut self, alloc: Global, bytes: &[u8]) -> Result<ObjectId, WriteError>
        ensures { Means (writes (buffer_writing object_kind.Blob bytes.now)) (held_by S.state self.old) result
            (held_by S.state self.new) }
    {
        self.write_buf(alloc, Kind::Blob, bytes)
    }

    /// The same as `write_buf`, where the id is known. It is not computed again.
    pub fn write_buf_with_known_id(
        &mut self,
        alloc: Global,
        kind: Kind,
        from: &[u8],
        id: ObjectId,
    ) -> Result<ObjectId, WriteError>
        requires { id ≡ id_of (S.state (store_of self.old)).hash (kind, from.now) }
        ensures { Means (writes (buffer_writing kind from.now)) (held_by S.state self.old) result
            (held_by S.state self.new) }
    {
        object_laws::written_object_is_stored();
        self.store.write(alloc, id, kind, from)?;
        Ok(id)
    }

    /// Stores an object in its spelling, and answers its id.
    ///
    /// # Errors
    /// `Unwritable` for the first field that can't be written; `Store` if the write failed; `NoMemory`.
    pub fn write_object<O: WriteTo>(
        &mut self,
        alloc: Global,
        object: &O,
    ) -> Result<ObjectId, WriteError>
        ensures { Means
            (writes (object_writing (O.object_kind object.now) (O.spelling object.now) (O.is_writable object.now)))
            (held_by S.state self.old) result (held_by S.state self.new) }
    {
        let bytes = object.to_bytes(alloc)?;
        object_laws::written_object_is_stored();
        Ok(gx_store::write_object(alloc, &mut self.store, object.kind(), bytes.as_slice())?)
    }
}
