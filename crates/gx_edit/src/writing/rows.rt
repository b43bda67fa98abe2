// The rows of a map.
ghost use Rattle.std.specs.Prelude.{◌≡◌, ◌==◌, IfOk};
ghost use Rattle.std.specs.List.{list_any};
ghost use Rattle.gx_edit.specs.PathList.{map_of, has_zero, IsPathMap, IsRising};
ghost use Rattle.gx_edit.specs.Planning.{texts_of};

use super::groups::Row;
use crate::{Leaf, PathMap};
use gx_hash::NoMemory;
use std::alloc::Global;

fn holds_zero(path: &[u8]) -> bool
    ensures { result ≡ list_any (λ b. b == 0) path.now }
{
    path.iter().any(|byte| *byte == 0)
}

/// Whether a path of the map holds a zero byte.
pub(super) fn has_zero(map: &PathMap) -> bool
    ensures zero { result ≡ has_zero map.now }
    ensures rising { IsRising map.now }
    ensures map { IsPathMap (map_of map.now) }
{
    for entry in map.iter() {
        if holds_zero(entry.path) {
            return true;
        }
    }
    false
}

/// The paths of a map with their leaves, in their order.
pub(super) fn rows_of(alloc: Global, map: &PathMap) -> Result<Vec<Row>, NoMemory>
    ensures { IfOk result (λ rows. texts_of rows.items ≡ map.now) }
{
    let mut rows = Vec::with_capacity(alloc, map.len())?;
    for entry in map.iter() {
        let leaf = Leaf {
            mode: entry.mode,
            id: entry.id,
        };
        let path = Vec::from_slice(alloc, entry.path)?;
        rows.push(Row { path, leaf })?;
    }
    Ok(rows)
}
