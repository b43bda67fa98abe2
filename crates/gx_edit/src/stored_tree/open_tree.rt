// One tree of a stored tree.
ghost use Rattle.std.specs.Prelude.{◌≡◌, ◌⊎◌, IsTrue, IfOk, IfErr, IfSome, Some};
ghost use Rattle.gx_object.specs.declared.kind.Kind.TheVariants as object_kind;
ghost use Rattle.gx_store.specs.Content.{lookup};
ghost use Rattle.gx_edit.specs.StoredTree.{TellsEntries};
ghost use Rattle.gx_edit.specs.OpenTree.{IsOpened, IsOneOf, LoadCauses, OpenCauses};

use super::listing::entries_of;
use crate::EditError;
use gx_hash::{Bytes, HashKind, ObjectId, object_id};
use gx_object::{DecodeError, Entry, Kind, Tree, TreeRef};
use gx_store::{Objects, StoreError};
use std::alloc::Global;

/// A tree that is being read.
#[derive(Drop)]
pub(super) struct OpenTree {
    pub id: ObjectId,
    pub entries: Vec<Entry>,
    /// How many of its entries are read, with the one that is begun.
    pub place: usize,
    /// How long the directory's path is, with its slash.
    pub at: usize,
}

/// The object at an id, and the empty tree at its own.
fn find_object<S: Objects>(
    alloc: Global,
    store: &S,
    id: ObjectId,
) -> Result<Option<(Kind, Bytes)>, EditError>
    ensures found { IfOk result (λ found. IfSome (S.state store.now).content (λ content. found ≡ lookup content id)) }
    ensures refused { IfErr result (LoadCauses (S.state store.now) id) }
{
    match store.read(alloc, &id) {
        Ok(Some(object)) => Ok(Some(object)),
        Ok(None) if id.is_empty_tree() => Ok(Some((Kind::Tree, Bytes::new(alloc)))),
        Ok(None) => Ok(None),
        Err(StoreError::NoMemory) => Err(EditError::NoMemory),
        Err(StoreError::Fault { what }) => Err(EditError::Store { what }),
    }
}

/// The bytes of the tree at an id.
fn tree_at<S: Objects>(alloc: Global, store: &S, id: ObjectId) -> Result<Bytes, EditError>
    ensures found { IfOk result (λ bytes. IfSome (S.state store.now).content
        (λ content. lookup content id ≡ Some (object_kind.Tree, bytes))) }
    ensures refused { IfErr result (LoadCauses (S.state store.now) id) }
{
    match find_object(alloc, store, id)? {
        None => Err(EditError::FindExistingObject { id }),
        Some((Kind::Tree, bytes)) => Ok(bytes),
        Some((actual, _)) => Err(EditError::ObjectKind { id, actual }),
    }
}

/// The tree at an id, as it is spelled.
pub(crate) fn read_tree<S: Objects>(
    alloc: Global,
    store: &S,
    hash: HashKind,
    id: ObjectId,
) -> Result<Tree, EditError>
    requires kind { hash ≡ (S.state store.now).hash }
    ensures found { IfOk result (λ tree. TellsEntries (S.state store.now) id tree.entries) }
    ensures refused { IfErr result (LoadCauses (S.state store.now) id) }
{
    let bytes = tree_at(alloc, store, id)?;
    match TreeRef::from_bytes(alloc, bytes.as_slice(), hash) {
        Ok(tree) => Ok(tree.to_owned()?),
        Err(DecodeError::Decode { .. }) => Err(EditError::Decode { id }),
        Err(DecodeError::NoMemory) => Err(EditError::NoMemory),
    }
}

/// Opens the tree at an id, where Git would have written it there. Its names may still stand twice.
pub(super) fn open_tree<S: Objects>(
    alloc: Global,
    store: &S,
    id: ObjectId,
    at: usize,
) -> Result<OpenTree, EditError>
    ensures opened { IfOk result (λ tree. IsOpened (S.state store.now).hash (S.state store.now).content id tree) }
    ensures place { IfOk result (λ tree. tree.place ≡ 0) }
    ensures at { IfOk result (λ tree. tree.at ≡ at) }
    ensures refused { IfErr result (OpenCauses (S.state store.now) id) }
{
    let hash = store.hash_kind();
    let bytes = tree_at(alloc, store, id)?;
    if object_id(hash, b"tree", bytes.as_slice()) != id {
        return Err(EditError::Decode { id });
    }
    let Some(entries) = entries_of(alloc, hash, bytes.as_slice())? else {
        return Err(EditError::Decode { id });
    };
    Ok(OpenTree {
        id,
        entries,
        place: 0,
        at,
    })
}

/// Whether the tree or the marked one of those above it has this id.
pub(super) fn is_open(levels: &[OpenTree], mark: usize, tree: &OpenTree, id: &ObjectId) -> bool
    ensures { IsTrue result → (tree.now.id ≡ id.now) ⊎ IsOneOf id.now levels.now }
{
    if tree.id == *id {
        return true;
    }
    match levels.get(mark) {
        None => false,
        Some(marked) => marked.id == *id,
    }
}
