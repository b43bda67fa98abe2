// Objects in a tree map.
ghost use Rattle.std.specs.Prelude.{◌≡◌, IfOk, OnOk, OnErr, option_map};
ghost use Rattle.std.specs.FinMap.{get, insert, contains_key, len};
ghost use Rattle.gx_store.specs.Content.{with_object};
ghost use Rattle.gx_store.specs.Headers.{header_of};
ghost use Rattle.gx_store.specs.Kept.{content_of};

use crate::Header;
use gx_hash::{Bytes, NoMemory, ObjectId};
use gx_object::Kind;
use std::alloc::Global;
use std::collections::BTreeMap;
use std::collections::btree_map::Entry;

fn copy_of(object: &(Kind, Bytes)) -> Result<(Kind, Bytes), NoMemory>
    ensures { IfOk result (λ copy. copy ≡ object.now) }
{
    Ok((object.0, object.1.try_clone()?))
}

fn header_of(object: &(Kind, Bytes)) -> Header
    ensures { result ≡ header_of object.now }
{
    Header {
        kind: object.0,
        size: object.1.as_slice().len() as u64,
    }
}

#[tactic(auto, using(crate::proofs::MapLemmas::get_object))]
pub(crate) fn object_at(
    map: &BTreeMap<ObjectId, (Kind, Bytes)>,
    id: &ObjectId,
) -> Result<Option<(Kind, Bytes)>, NoMemory>
    ensures { IfOk result (λ found. found ≡ get (content_of map.now) id.now) }
{
    match map.get(id) {
        None => Ok(None),
        Some(object) => Ok(Some(copy_of(object)?)),
    }
}

#[tactic(auto, using(crate::proofs::MapLemmas::get_object))]
pub(crate) fn header_at(map: &BTreeMap<ObjectId, (Kind, Bytes)>, id: &ObjectId) -> Option<Header>
    ensures { result ≡ option_map header_of (get (content_of map.now) id.now) }
{
    match map.get(id) {
        None => None,
        Some(object) => Some(header_of(object)),
    }
}

#[tactic(auto, using(crate::proofs::MapLemmas::get_object))]
pub(crate) fn has_object(map: &BTreeMap<ObjectId, (Kind, Bytes)>, id: &ObjectId) -> bool
    ensures { result ≡ contains_key (content_of map.now) id.now }
{
    map.contains_key(id)
}

#[tactic(auto, using(crate::proofs::MapLemmas::len_kept))]
pub(crate) fn count(map: &BTreeMap<ObjectId, (Kind, Bytes)>) -> u64
    ensures { result ≡ len (content_of map.now) }
{
    map.len() as u64
}

/// Puts an object at an id, over what is there.
pub(crate) fn put_object(
    map: &mut BTreeMap<ObjectId, (Kind, Bytes)>,
    id: ObjectId,
    kind: Kind,
    bytes: Bytes,
) -> Result<(), NoMemory>
    ensures ok { OnOk result (content_of map.new ≡ insert (content_of map.old) id (kind, bytes)) }
    ensures err { OnErr result (content_of map.new ≡ content_of map.old) }
{
    map.insert(id, (kind, bytes))?;
    Ok(())
}

/// Puts a copy of an object at an id, unless one is there. It searches once, and copies only where it puts.
pub(crate) fn add_object(
    map: &mut BTreeMap<ObjectId, (Kind, Bytes)>,
    alloc: Global,
    id: ObjectId,
    kind: Kind,
    bytes: &[u8],
) -> Result<(), NoMemory>
    ensures ok { OnOk result (content_of map.new ≡ with_object id (kind, bytes.now) (content_of map.old)) }
    ensures err { OnErr result (content_of map.new ≡ content_of map.old) }
{
    match map.entry(id)? {
        Entry::Occupied(_) => Ok(()),
        Entry::Vacant(place) => {
            let bytes = Bytes::from_slice(alloc, bytes)?;
            place.insert((kind, bytes));
            Ok(())
        }
    }
}
