//! One tree of a traversal.

ghost use Rattle.std.specs.Prelude.{◌≡◌, List, IfOk, IfErr, IfSome, MatchOption, Some};
ghost use Rattle.gx_object.specs.declared.kind.Kind.TheVariants as object_kind;
ghost use Rattle.gx_object.specs.declared.tree.Entry.{Entry};
ghost use Rattle.gx_object.specs.TreeSpelling.{SpellsTree};
ghost use Rattle.gx_store.specs.Content.{lookup};
ghost use Rattle.gx_walk.specs.Traversal.{IsTreeIn};
ghost use Rattle.gx_walk.specs.OpenTree.{OpenCauses};

use crate::WalkError;
use gx_hash::{Bytes, HashKind, NoMemory, ObjectId};
use gx_object::{DecodeError, Entry, Kind, TreeRef};
use gx_store::Objects;
use std::alloc::Global;

/// A tree that is entered and not left.
#[derive(Drop)]
pub(super) struct OpenTree {
    pub(super) id: ObjectId,
    pub(super) entries: Vec<Entry>,
    /// How many of its entries were visited.
    pub(super) place: usize,
    /// The length of its path, followed by a slash.
    pub(super) at: usize,
}

/// The bytes of the tree at an id.
fn tree_bytes<S: Objects>(alloc: Global, store: &S, id: ObjectId) -> Result<Bytes, WalkError>
    ensures ok { IfOk result (λ bytes. IfSome (S.state store.now).content (λ content.
        lookup content id ≡ Some (object_kind.Tree, bytes))) }
    ensures causes { IfErr result (OpenCauses (S.state store.now) id) }
{
    match store.read(alloc, &id)? {
        Some((Kind::Tree, bytes)) => Ok(bytes),
        Some(_) => Err(WalkError::NotATree { id }),
        None if id.is_empty_tree() => Ok(Bytes::new(alloc)),
        None => Err(WalkError::Missing { id }),
    }
}

/// The entries that the bytes spell, if they spell a tree.
pub(super) fn entries_of(
    alloc: Global,
    hash: HashKind,
    bytes: &[u8],
) -> Result<Option<Vec<Entry>>, NoMemory>
    ensures { IfOk result (λ found. MatchOption found ((entries : List Entry) → ¬ SpellsTree hash bytes.now entries)
        (λ entries. SpellsTree hash bytes.now entries.items)) }
{
    match TreeRef::from_bytes(alloc, bytes, hash) {
        Ok(tree) => Ok(Some(tree.to_owned()?.entries.into_vec())),
        Err(DecodeError::Decode { .. }) => Ok(None),
        Err(DecodeError::NoMemory) => Err(NoMemory),
    }
}

/// Opens the tree at an id.
pub(super) fn open_tree<S: Objects>(
    alloc: Global,
    store: &S,
    id: ObjectId,
    at: usize,
) -> Result<OpenTree, WalkError>
    ensures opened { IfOk result (λ tree.
        IsTreeIn (S.state store.now).hash (S.state store.now).content id tree.entries.items) }
    ensures id { IfOk result (λ tree. tree.id ≡ id) }
    ensures place { IfOk result (λ tree. tree.place ≡ 0) }
    ensures at { IfOk result (λ tree. tree.at ≡ at) }
    ensures causes { IfErr result (OpenCauses (S.state store.now) id) }
{
    let hash = store.hash_kind();
    let bytes = tree_bytes(alloc, store, id)?;
    let Some(entries) = entries_of(alloc, hash, bytes.as_slice())? else {
        return Err(WalkError::Decode { id });
    };
    Ok(OpenTree {
        id,
        entries,
        place: 0,
        at,
    })
}
