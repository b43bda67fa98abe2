//! Path maps, edited one path at a time.

mod entries;
mod texts;

use crate::path::has_empty_name;
use crate::{EditError, Leaf};
pub use entries::{PathEntries, PathEntry};
use gx_hash::ObjectId;
use gx_object::EntryKind;
use std::alloc::Global;
use std::collections::BTreeMap;
use std::marker::Model;

/// Which leaf stands at each path of a tree: the files, links and submodules, and no directories, since these follow
/// from the paths. A path is written with a slash between its names. Contracts see the list of the paths, in byte
/// order.
///
/// ```
/// let mut map = PathMap::new(alloc);
/// map.put(b"docs/hello", EntryKind::Blob, id)?;
/// let root = write_plain(alloc, &mut store, &map, None)?;
/// let again = read_map(alloc, &store, root)?;
/// ```
#[derive(Drop)]
pub struct PathMap {
    leaves: BTreeMap<Vec<u8>, Leaf>,
    alloc: Global,
}

impl Model for PathMap {
    ghost use Rattle.gx_edit.specs.PathList.{PathList, map_of, IsPathMap};
    ghost use Rattle.gx_edit.specs.PathTexts.{rows_of};

    ghost Value = { PathList };

    ghost view = { λ m. rows_of m.leaves };

    ghost invariant = { λ m. IsPathMap (map_of (rows_of m.leaves)) };
}

impl PathMap {
    ghost use Rattle.std.specs.Prelude.{◌≡◌, ◌≢◌, ◌↔◌, [], false, length, IsTrue, OnOk, OnErr, IfErr};
    ghost use Rattle.gx_hash.specs.ObjectId.{null_id};
    ghost use Rattle.gx_hash.specs.HashKind.{kind_of};
    ghost use Rattle.gx_object.specs.declared.tree.EntryKind.TheVariants as entry_kind;
    ghost use Rattle.gx_edit.specs.Path.{Path, components};
    ghost use Rattle.gx_edit.specs.PathMap.{put, dropped};
    ghost use Rattle.gx_edit.specs.PathList.{map_of, leaf_of, has_empty_name, IsPathMap, IsRising, Refused};
    ghost use Rattle.gx_edit.specs.PathTexts.{rows_of};

    /// The map of the empty tree.
    pub fn new(alloc: Global) -> PathMap
        ensures { result ≡ [] }
    {
        PathMap {
            leaves: BTreeMap::new(alloc),
            alloc,
        }
    }

    /// The map with these leaves.
    pub(crate) fn from_leaves(alloc: Global, leaves: BTreeMap<Vec<u8>, Leaf>) -> PathMap
        requires { IsPathMap (map_of (rows_of leaves)) }
        ensures { result ≡ rows_of leaves }
    {
        PathMap { leaves, alloc }
    }

    /// How many paths have a leaf.
    pub fn len(&self) -> usize
        ensures { result ≡ length self.now }
    {
        self.leaves.len()
    }

    pub fn is_empty(&self) -> bool
        ensures { IsTrue result ↔ (self.now ≡ []) }
    {
        self.leaves.is_empty()
    }

    /// The leaf at a path.
    pub fn get(&self, path: &[u8]) -> Option<Leaf>
        ensures { result ≡ map_of self.now (components path.now) }
    {
        texts::leaf_at(&self.leaves, path)
    }

    /// The paths with their leaves, in byte order of the whole paths.
    pub fn iter(&self) -> PathEntries<'_>
        ensures all { result ≡ self.now }
        ensures rising { IsRising self.now }
        ensures map { IsPathMap (map_of self.now) }
    {
        PathEntries::new(self.leaves.iter())
    }

    /// Puts a leaf at a path, in place of what stands above it and below it.
    ///
    /// # Errors
    /// `EmptyPathComponent` and `NoMemory`.
    pub fn put(&mut self, path: &[u8], kind: EntryKind, id: ObjectId) -> Result<(), EditError>
        requires kind { kind ≢ entry_kind.Tree }
        requires id { id ≢ null_id (kind_of id) }
        ensures ok { OnOk result ((q : Path)
            → map_of self.new q ≡ put (map_of self.old) (components path.now) (leaf_of kind id) q) }
        ensures err { OnErr result (self.new ≡ self.old) }
        ensures refused { IfErr result (Refused (components path.now)) }
        ensures named { OnOk result (has_empty_name (components path.now) ≡ false) }
    {
        if has_empty_name(path) {
            return Err(EditError::EmptyPathComponent);
        }
        texts::put(self.alloc, &mut self.leaves, path, Leaf::new(kind, id))?;
        Ok(())
    }

    /// Takes away a path and all below it. A path where nothing stands is no error.
    ///
    /// # Errors
    /// `EmptyPathComponent` and `NoMemory`.
    pub fn remove(&mut self, path: &[u8]) -> Result<(), EditError>
        ensures ok { OnOk result ((q : Path) → map_of self.new q ≡ dropped (map_of self.old) (components path.now) q) }
        ensures err { OnErr result (self.new ≡ self.old) }
        ensures refused { IfErr result (Refused (components path.now)) }
        ensures named { OnOk result (has_empty_name (components path.now) ≡ false) }
    {
        if has_empty_name(path) {
            return Err(EditError::EmptyPathComponent);
        }
        texts::drop_path(self.alloc, &mut self.leaves, path)?;
        Ok(())
    }
}
