// What a directory holds, and its trees.
ghost use Rattle.std.specs.Prelude.{◌≡◌, ◌≢◌, ◌∷◌, [], ◌++◌, ◌↔◌, IfOk, OnOk, IsTrue, MatchOption};
ghost use Rattle.gx_object.specs.declared.kind.Kind.TheVariants as object_kind;
ghost use Rattle.gx_object.specs.Tree.{tree_bytes};
ghost use Rattle.gx_hash.specs.ObjectId.{object_id};
ghost use Rattle.gx_object.specs.Kind.{kind_name};
ghost use Rattle.gx_edit.specs.Path.{path_eq};
ghost use Rattle.gx_edit.specs.CanonicalTree.{Directory, leaf_at, Follow, IsLeafMode, IsCanonical, entries_of, root_of, trees_below, trees_of, tree_of};
ghost use Rattle.gx_edit.specs.CanonicalTree.Directory.{End as NoEntry, File as FileEntry, Sub as SubEntry};

use crate::listing::{Line, Listing};
use crate::names::{differ, is_below, is_name, is_same_name, is_same_path, with_slash};
use gx_edit::Leaf;
use gx_hash::{Bytes, HashKind, NoMemory, ObjectId, object_id};
use gx_object::{Entry, EntryKind, EntryMode, Kind, push_tree};
use std::alloc::Global;

impl Listing {
    pub fn end() -> Listing
        ensures { result ≡ NoEntry }
    {
        Listing { first: Line::End }
    }

    pub(crate) fn file(
        alloc: Global,
        name: &[u8],
        leaf: Leaf,
        rest: Listing,
    ) -> Result<Listing, NoMemory>
        ensures { IfOk result (λ listing. listing ≡ FileEntry name.now leaf rest) }
    {
        let name = Bytes::from_slice(alloc, name)?;
        let rest = Box::new(alloc, rest)?;
        Ok(Listing {
            first: Line::File(name, leaf, rest),
        })
    }

    pub fn sub(
        alloc: Global,
        name: &[u8],
        inner: Listing,
        rest: Listing,
    ) -> Result<Listing, NoMemory>
        ensures { IfOk result (λ listing. listing ≡ SubEntry name.now inner rest) }
    {
        let name = Bytes::from_slice(alloc, name)?;
        let inner = Box::new(alloc, inner)?;
        let rest = Box::new(alloc, rest)?;
        Ok(Listing {
            first: Line::Sub(name, inner, rest),
        })
    }

    /// The leaf at a path.
    pub fn leaf_at(&self, path: &[Bytes]) -> Option<Leaf>
        ensures { result ≡ leaf_at self.now path.now }
    {
        match &self.first {
            Line::End => None,
            Line::File(name, leaf, rest) => {
                if is_only(name.as_slice(), path) {
                    Some(*leaf)
                } else {
                    rest.leaf_at(path)
                }
            }
            Line::Sub(name, inner, rest) => match strip_name(name.as_slice(), path) {
                Some(below) => inner.leaf_at(below),
                None => rest.leaf_at(path),
            },
        }
    }

    /// Whether there is no entry.
    fn is_not_end(&self) -> bool
        ensures { IsTrue result ↔ (self.now ≢ NoEntry) }
    {
        match &self.first {
            Line::End => false,
            Line::File(..) => true,
            Line::Sub(..) => true,
        }
    }

    /// Whether each entry is sorted after the key, and none has the name.
    fn follows(&self, alloc: Global, name: &[u8], key: &[u8]) -> Result<bool, NoMemory>
        ensures { IfOk result (λ yes. IsTrue yes ↔ Follow name.now key.now self.now) }
    {
        match &self.first {
            Line::End => Ok(true),
            Line::File(other, _, rest) => {
                let apart = differ(name, other.as_slice());
                let below = is_below(key, other.as_slice());
                let others = rest.follows(alloc, name, key)?;
                Ok(apart && below && others)
            }
            Line::Sub(other, _, rest) => {
                let other_key = with_slash(alloc, other.as_slice())?;
                let apart = differ(name, other.as_slice());
                let below = is_below(key, other_key.as_slice());
                let others = rest.follows(alloc, name, key)?;
                Ok(apart && below && others)
            }
        }
    }

    /// Whether the directory is written as Git writes it.
    pub fn is_canonical(&self, alloc: Global) -> Result<bool, NoMemory>
        ensures { IfOk result (λ yes. IsTrue yes ↔ IsCanonical self.now) }
    {
        match &self.first {
            Line::End => Ok(true),
            Line::File(name, leaf, rest) => {
                let named = is_name(name.as_slice());
                let behind = rest.follows(alloc, name.as_slice(), name.as_slice())?;
                let others = rest.is_canonical(alloc)?;
                Ok(named && behind && others && is_leaf_mode(leaf.mode))
            }
            Line::Sub(name, inner, rest) => {
                let key = with_slash(alloc, name.as_slice())?;
                let named = is_name(name.as_slice());
                let filled = inner.is_not_end();
                let below = inner.is_canonical(alloc)?;
                let behind = rest.follows(alloc, name.as_slice(), key.as_slice())?;
                let others = rest.is_canonical(alloc)?;
                Ok(named && filled && below && behind && others)
            }
        }
    }

    fn push_entries(
        &self,
        alloc: Global,
        hash: HashKind,
        entries: &mut Vec<Entry>,
    ) -> Result<(), NoMemory>
        ensures { OnOk result (entries.new.items ≡ entries.old.items ++ entries_of hash self.now) }
    {
        match &self.first {
            Line::End => Ok(()),
            Line::File(name, leaf, rest) => {
                entries.push(entry(name.try_clone()?, leaf.mode, leaf.id))?;
                rest.push_entries(alloc, hash, entries)
            }
            Line::Sub(name, inner, rest) => {
                let mut below = Vec::new(alloc);
                inner.push_entries(alloc, hash, &mut below)?;
                let id = tree_id(alloc, hash, &below)?;
                let mode = EntryMode::from(EntryKind::Tree);
                entries.push(entry(name.try_clone()?, mode, id))?;
                rest.push_entries(alloc, hash, entries)
            }
        }
    }

    /// The entries of the directory's tree object.
    pub(crate) fn entries(&self, alloc: Global, hash: HashKind) -> Result<Vec<Entry>, NoMemory>
        ensures { IfOk result (λ entries. entries.items ≡ entries_of hash self.now) }
    {
        let mut entries = Vec::new(alloc);
        self.push_entries(alloc, hash, &mut entries)?;
        Ok(entries)
    }

    /// The id of the directory's tree object.
    pub fn root(&self, alloc: Global, hash: HashKind) -> Result<ObjectId, NoMemory>
        ensures { IfOk result (λ root. root ≡ root_of hash self.now) }
    {
        let entries = self.entries(alloc, hash)?;
        tree_id(alloc, hash, &entries)
    }

    /// The directory's tree object.
    fn tree(&self, alloc: Global, hash: HashKind) -> Result<(Kind, Bytes), NoMemory>
        ensures { IfOk result (λ tree. tree ≡ tree_of hash self.now) }
    {
        let entries = self.entries(alloc, hash)?;
        let bytes = bytes_of(alloc, &entries)?;
        Ok((Kind::Tree, bytes))
    }

    fn push_trees_below(
        &self,
        alloc: Global,
        hash: HashKind,
        trees: &mut Vec<(Kind, Bytes)>,
    ) -> Result<(), NoMemory>
        ensures { OnOk result (trees.new.items ≡ trees.old.items ++ trees_below hash self.now) }
    {
        match &self.first {
            Line::End => Ok(()),
            Line::File(_, _, rest) => rest.push_trees_below(alloc, hash, trees),
            Line::Sub(_, inner, rest) => {
                inner.push_trees_below(alloc, hash, trees)?;
                trees.push(inner.tree(alloc, hash)?)?;
                rest.push_trees_below(alloc, hash, trees)
            }
        }
    }

    /// All tree objects of the directory, its own last.
    pub fn trees(&self, alloc: Global, hash: HashKind) -> Result<Vec<(Kind, Bytes)>, NoMemory>
        ensures { IfOk result (λ trees. trees.items ≡ trees_of hash self.now) }
    {
        let mut trees = Vec::new(alloc);
        self.push_trees_below(alloc, hash, &mut trees)?;
        trees.push(self.tree(alloc, hash)?)?;
        Ok(trees)
    }
}

/// Whether a leaf may have this mode.
fn is_leaf_mode(mode: EntryMode) -> bool
    ensures { IsTrue result ↔ IsLeafMode mode.value }
{
    matches!(mode.value, 0o100644 | 0o100755 | 0o120000 | 0o160000)
}

fn entry(filename: Bytes, mode: EntryMode, oid: ObjectId) -> Entry
    ensures { result ≡ record { mode = mode; filename = filename; oid = oid } }
{
    Entry {
        mode,
        filename,
        oid,
    }
}

fn bytes_of(alloc: Global, entries: &[Entry]) -> Result<Bytes, NoMemory>
    ensures { IfOk result (λ bytes. bytes ≡ tree_bytes entries.now) }
{
    let mut bytes = Vec::new(alloc);
    push_tree(&mut bytes, entries)?;
    Ok(Bytes::from_vec(bytes))
}

fn tree_id(alloc: Global, hash: HashKind, entries: &[Entry]) -> Result<ObjectId, NoMemory>
    ensures { IfOk result (λ id. id ≡ object_id hash (kind_name object_kind.Tree) (tree_bytes entries.now)) }
{
    let bytes = bytes_of(alloc, entries)?;
    Ok(object_id(hash, Kind::Tree.as_bytes(), bytes.as_slice()))
}

/// Whether the path is just this name.
fn is_only(name: &[u8], path: &[Bytes]) -> bool
    ensures { result ≡ path_eq (name.now ∷ []) path.now }
{
    let Some((first, below)) = path.split_first() else {
        return false;
    };
    let same = is_same_name(name, first.as_slice());
    same && below.is_empty()
}

/// The path after its first name, where that is the given one.
fn strip_name<'a>(name: &[u8], path: &'a [Bytes]) -> Option<&'a [Bytes]>
    ensures { MatchOption result
        ((inner rest : Directory) → leaf_at (SubEntry name.now inner rest) path.now ≡ leaf_at rest path.now)
        (λ below. (inner rest : Directory)
        → leaf_at (SubEntry name.now inner rest) path.now ≡ leaf_at inner below.now) }
{
    let Some((first, below)) = path.split_first() else {
        return None;
    };
    if is_same_name(name, first.as_slice()) {
        Some(below)
    } else {
        None
    }
}
