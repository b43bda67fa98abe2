// The leaves of a map that is being read, by the bytes of their paths.
ghost use Rattle.std.specs.Prelude.{◌≡◌, ◌++◌, if◌then◌else◌, Some, is_some, OnOk};
ghost use Rattle.gx_edit.specs.Path.{Path, path_eq, components};
ghost use Rattle.gx_edit.specs.PathList.{map_of};
ghost use Rattle.gx_edit.specs.PathTexts.{rows_of};

use crate::Leaf;
use gx_hash::NoMemory;
use gx_object::Entry;
use std::alloc::Global;
use std::collections::BTreeMap;

/// Whether a leaf stands at the path.
pub(super) fn has_leaf(leaves: &BTreeMap<Vec<u8>, Leaf>, path: &[u8]) -> bool
    ensures { result ≡ is_some (map_of (rows_of leaves.now) (components path.now)) }
{
    leaves.get(path).is_some()
}

/// Puts the entry of a directory, whose path is given with a slash after it.
pub(super) fn insert_leaf(
    alloc: Global,
    leaves: &mut BTreeMap<Vec<u8>, Leaf>,
    directory: &[u8],
    entry: &Entry,
) -> Result<(), NoMemory>
    ensures { OnOk result ((q : Path)
        → map_of (rows_of leaves.new) q ≡ (if path_eq (components (directory.now ++ entry.now.filename)) q
        then Some (record { mode = entry.now.mode; id = entry.now.oid }) else map_of (rows_of leaves.old) q)) }
{
    let name = entry.filename.as_slice();
    let mut path = Vec::with_capacity(alloc, directory.len().saturating_add(name.len()))?;
    path.extend_from_slice(directory)?;
    path.extend_from_slice(name)?;
    leaves.insert(
        path,
        Leaf {
            mode: entry.mode,
            id: entry.oid,
        },
    )?;
    Ok(())
}
