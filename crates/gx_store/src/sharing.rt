// How far the ids of a tree map begin alike. They are in order, so of those before an id, and of those after it, the
// nearest one shares the most digits with it.
ghost use Rattle.std.specs.Prelude.{◌≡◌, ◌≢◌};
ghost use Rattle.hex.specs.Hex.{IsBytes};
ghost use Rattle.gx_hash.specs.HashKind.{kind_of};
ghost use Rattle.gx_store.specs.Kept.{content_of};
ghost use Rattle.gx_store.specs.Sharing.{IsAfter, IsBefore, IsLongestShared, IsMostShared, shared_digits};

use gx_hash::laws::id_has_digits;
use gx_hash::{Bytes, ObjectId};
use gx_object::Kind;
use std::collections::BTreeMap;
use std::ops::Bound;

/// How many first hex digits the ids share.
fn shared_digits(id: &ObjectId, other: &ObjectId) -> usize
    ensures { result ≡ shared_digits id.now other.now }
{
    let (a, b) = (id.as_bytes(), other.as_bytes());
    let most = a.len().min(b.len());
    for at in 0..most {
        if a[at] != b[at] {
            return 2 * at + usize::from(a[at] / 16 == b[at] / 16);
        }
    }
    2 * most
}

/// The same, and 0 for ids of two kinds.
fn shared_with(id: &ObjectId, other: &ObjectId) -> usize
    ensures same { kind_of other.now ≡ kind_of id.now → result ≡ shared_digits id.now other.now }
    ensures apart { kind_of other.now ≢ kind_of id.now → result ≡ 0 }
{
    if other.kind() != id.kind() {
        return 0;
    }
    shared_digits(id, other)
}

fn are_bytes(bytes: &[u8])
    ensures { IsBytes bytes.now }
{}

/// How many first hex digits the id shares with those before it.
fn shared_before(map: &BTreeMap<ObjectId, (Kind, Bytes)>, id: &ObjectId) -> usize
    ensures { IsMostShared (IsBefore (content_of map.now) id.now) id.now result }
{
    are_bytes(id.as_bytes());
    match map.range(..id).next_back() {
        None => 0,
        Some((nearest, _)) => {
            id_has_digits(nearest);
            shared_with(id, nearest)
        }
    }
}

/// How many first hex digits the id shares with those after it.
fn shared_after(map: &BTreeMap<ObjectId, (Kind, Bytes)>, id: &ObjectId) -> usize
    ensures { IsMostShared (IsAfter (content_of map.now) id.now) id.now result }
{
    are_bytes(id.as_bytes());
    match map.range((Bound::Excluded(id), Bound::Unbounded)).next() {
        None => 0,
        Some((nearest, _)) => {
            id_has_digits(nearest);
            shared_with(id, nearest)
        }
    }
}

/// The greatest number of first hex digits that the id shares with another one.
#[tactic(auto, using(crate::proofs::NearestLemmas::both_sides))]
pub(crate) fn longest_shared(map: &BTreeMap<ObjectId, (Kind, Bytes)>, id: &ObjectId) -> usize
    ensures { IsLongestShared (content_of map.now) id.now result }
{
    shared_before(map, id).max(shared_after(map, id))
}
