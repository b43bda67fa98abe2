//! Objects that are written of all that a source has.

ghost use Rattle.std.specs.Prelude.{◌≡◌, ◌<◌, ◌≤◌, IfOk, IfErr, IfSome, OnOk};
ghost use Rattle.gx_store.specs.Content.{id_of};
ghost use Rattle.gix.specs.Reading.{CheckedCauses, IsOtherId, IsOtherSize, ReadCauses, ReadsMore, ReadsOne, TookAll, WroteAll, WroteNone};
ghost use Rattle.gix.specs.Streams.{source_state};
ghost use Rattle.gix.specs.Writes.{Stores};

use crate::object::write::WriteError;
use crate::{Repository, object_laws};
use gx_hash::{Bytes, NoMemory, ObjectId, object_id};
use gx_object::Kind;
use gx_store::{Objects, Source, Store};
use std::alloc::Global;

/// How many bytes are asked for at once.
const CHUNK: usize = 16384;

/// The most bytes of an object that comes from a source.
const STREAM_LIMIT: usize = 1 << 30;

/// Makes room for a chunk. A buffer that grows doubles, but goes no further than a chunk past what is wanted.
fn make_room(bytes: &mut Vec<u8>, wanted: usize) -> Result<(), NoMemory>
    ensures { bytes.new.items ≡ bytes.old.items }
{
    let held = bytes.len();
    if bytes.capacity().saturating_sub(held) < CHUNK {
        let missing = wanted.saturating_sub(held);
        bytes.reserve_exact(missing.min(held).saturating_add(CHUNK))?;
    }
    Ok(())
}

/// Reads up to this many bytes, and adds them to those that are there. None only at the end.
fn read_onto<I: Source>(from: &mut I, bytes: &mut Vec<u8>, most: usize) -> Result<usize, WriteError>
    requires { 0 < most }
    ensures read { ReadsMore most (source_state I.left I.faults from.old) bytes.old.items
        (source_state I.left I.faults from.new) bytes.new.items result }
    ensures later { I.faults from.old ≤ I.faults from.new }
{
    let mut chunk = [0u8; CHUNK];
    let size = most.min(CHUNK);
    let count = from.read(&mut chunk[..size])?;
    bytes.extend_from_slice(&chunk[..count])?;
    Ok(count)
}

/// Asks for one byte. False at the end.
fn read_one<I: Source>(from: &mut I) -> Result<bool, WriteError>
    ensures read { ReadsOne (source_state I.left I.faults from.old) (source_state I.left I.faults from.new) result }
    ensures later { I.faults from.old ≤ I.faults from.new }
{
    let mut byte = [0u8; 1];
    Ok(from.read(&mut byte)? != 0)
}

/// All bytes that a source has. `wanted` is a guess how many these are.
fn read_all<I: Source>(alloc: Global, from: &mut I, wanted: usize) -> Result<Bytes, WriteError>
    ensures ok { IfOk result
        (TookAll (source_state I.left I.faults from.old) (source_state I.left I.faults from.new)) }
    ensures causes { IfErr result
        (ReadCauses (source_state I.left I.faults from.old) (source_state I.left I.faults from.new)) }
    ensures later { I.faults from.old ≤ I.faults from.new }
{
    let mut bytes = Vec::new(alloc);
    'reads: while bytes.len() < STREAM_LIMIT {
        make_room(&mut bytes, wanted)?;
        let room = STREAM_LIMIT - bytes.len();
        if read_onto(from, &mut bytes, room)? == 0 {
            return Ok(Bytes::from_vec(bytes));
        }
    }
    if read_one(from)? {
        return Err(WriteError::TooLarge);
    }
    Ok(Bytes::from_vec(bytes))
}

/// The bytes are of the declared size.
fn check_size(declared: Option<u64>, found: u64) -> Result<(), WriteError>
    ensures ok { OnOk result (IfSome declared (λ size. size ≡ found)) }
    ensures causes { IfErr result (IsOtherSize declared found) }
{
    match declared {
        Some(size) if size != found => Err(WriteError::SizeMismatch {
            declared: size,
            found,
        }),
        _ => Ok(()),
    }
}

/// The id is the given one.
fn check_id(given: Option<ObjectId>, found: ObjectId) -> Result<(), WriteError>
    ensures ok { OnOk result (IfSome given (λ id. id ≡ found)) }
    ensures causes { IfErr result (IsOtherId given found) }
{
    match given {
        Some(id) if id != found => Err(WriteError::IdMismatch { given: id, found }),
        _ => Ok(()),
    }
}

/// Stores an object of these bytes, if its id is the given one.
fn write_checked<S: Objects>(
    alloc: Global,
    store: &mut S,
    kind: Kind,
    given: Option<ObjectId>,
    bytes: &[u8],
) -> Result<ObjectId, WriteError>
    ensures ok { IfOk result (λ id.
        Stores (kind, bytes.now) (S.state store.old) id (S.state store.new)
        × IfSome given (λ given. given ≡ id_of (S.state store.old).hash (kind, bytes.now))) }
    ensures causes { IfErr result
        (CheckedCauses (kind, bytes.now) given (S.state store.old) (S.state store.new)) }
{
    let id = object_id(store.hash_kind(), kind.as_bytes(), bytes);
    check_id(given, id)?;
    store.write(alloc, id, kind, bytes)?;
    Ok(id)
}

/// Stores the object that a source has, if it is as it is declared.
fn write_from<S: Objects, I: Source>(
    alloc: Global,
    store: &mut S,
    from: &mut I,
    kind: Kind,
    size: Option<u64>,
    id: Option<ObjectId>,
) -> Result<ObjectId, WriteError>
    ensures ok { IfOk result (WroteAll (record { kind = kind; size = size; id = id })
        (source_state I.left I.faults from.old) (S.state store.old) (source_state I.left I.faults from.new)
        (S.state store.new)) }
    ensures err { IfErr result (WroteNone (record { kind = kind; size = size; id = id })
        (source_state I.left I.faults from.old) (S.state store.old) (source_state I.left I.faults from.new)
        (S.state store.new)) }
    ensures later { I.faults from.old ≤ I.faults from.new }
{
    let bytes = read_all(alloc, from, wanted_of(size))?;
    check_size(size, bytes.len() as u64)?;
    write_checked(alloc, store, kind, id, bytes.as_slice())
}

/// How much room the declared bytes want, of which not more are read than the limit.
fn wanted_of(size: Option<u64>) -> usize {
    match size {
        Some(size) => size.min(STREAM_LIMIT as u64) as usize,
        None => 0,
    }
}

impl<S: Store> Repository<S> {
    ghost use Rattle.std.specs.Prelude.{Some, None};
    ghost use Rattle.gx_object.specs.declared.kind.Kind.TheVariants as object_kind;
    ghost use Rattle.gix.specs.Repository.{held_by};
    ghost use Rattle.gix.specs.Streams.{WritesStream, source_state};

    /// Stores a blob of all that a source has, and answers its id. It is kept in memory until it is stored.
    ///
    /// # Errors
    /// `Read` if a read failed; `TooLarge` where more than 2^30 bytes come; `Store` if the write failed; `NoMemory`.
    /// But for the last two nothing of the store has changed.
    pub fn write_blob_stream<I: Source>(
        &mut self,
        alloc: Global,
        bytes: &mut I,
    ) -> Result<ObjectId, WriteError>
        ensures { WritesStream (record { kind = object_kind.Blob; size = None; id = None })
            (source_state I.left I.faults bytes.old) (held_by S.state self.old) result
            (source_state I.left I.faults bytes.new) (held_by S.state self.new) }
    {
        object_laws::written_object_is_stored();
        write_from(alloc, &mut self.store, bytes, Kind::Blob, None, None)
    }

    /// The same of an object of any kind, whose size is given.
    ///
    /// # Errors
    /// Besides, `SizeMismatch` where the source has another number of bytes.
    pub fn write_stream<I: Source>(
        &mut self,
        alloc: Global,
        kind: Kind,
        size: u64,
        from: &mut I,
    ) -> Result<ObjectId, WriteError>
        ensures { WritesStream (record { kind = kind; size = Some size; id = None })
            (source_state I.left I.faults from.old) (held_by S.state self.old) result
            (source_state I.left I.faults from.new) (held_by S.state self.new) }
    {
        object_laws::written_object_is_stored();
        write_from(alloc, &mut self.store, from, kind, Some(size), None)
    }

    /// The same of an object whose id is given too.
    ///
    /// # Errors
    /// Besides, `IdMismatch` where the bytes have another id.
    pub fn write_stream_with_known_id<I: Source>(
        &mut self,
        alloc: Global,
        kind: Kind,
        size: u64,
        from: &mut I,
        id: ObjectId,
    ) -> Result<ObjectId, WriteError>
        ensures { WritesStream (record { kind = kind; size = Some size; id = Some id })
            (source_state I.left I.faults from.old) (held_by S.state self.old) result
            (source_state I.left I.faults from.new) (held_by S.state self.new) }
    {
        object_laws::written_object_is_stored();
        write_from(alloc, &mut self.store, from, kind, Some(size), Some(id))
    }
}
