// The rows of a map that stand in one directory.
ghost use Rattle.std.specs.Prelude.{◌≡◌, ◌≤◌, ◌<◌, length, drop};
ghost use Rattle.gx_edit.specs.Path.{components};
ghost use Rattle.gx_edit.specs.Planning.{goes_into, rows_at, run, Reach, IsFrontGroup};

use crate::Leaf;
use crate::path::split_first_name;

/// A path of a map, and the leaf that stands there.
#[derive(Drop)]
pub(super) struct Row {
    pub(super) path: Vec<u8>,
    pub(super) leaf: Leaf,
}

/// What is left of a path after the directories that are entered.
pub(super) fn rest_of(row: &Row, at: usize) -> &[u8]
    requires { at ≤ length row.now.path.items }
    ensures { result.now ≡ drop at row.now.path.items }
{
    row.path.split_at(at).1
}

/// Whether the path goes into the directory of this name.
fn leads_into(path: &[u8], name: &[u8]) -> bool
    ensures { result ≡ goes_into name.now (components path.now) }
{
    match split_first_name(path) {
        None => false,
        Some((first, _)) => first == name,
    }
}

/// How many rows from the first on go into the directory of this name.
fn group_len(rows: &[Row], at: usize, name: &[u8]) -> usize
    requires { Reach at rows.now }
    ensures within { result ≤ length rows.now }
    ensures count { result ≡ run name.now (rows_at at rows.now) }
{
    let mut count = 0;
    for row in rows {
        if !leads_into(rest_of(row, at), name) {
            return count;
        }
        count += 1;
    }
    count
}

/// Parts the rows that go into the directory of this name from those after them.
pub(super) fn first_group<'a>(rows: &'a [Row], at: usize, name: &[u8]) -> (&'a [Row], &'a [Row])
    requires reach { Reach at rows.now }
    requires some { 0 < run name.now (rows_at at rows.now) }
    ensures { IsFrontGroup at rows.now name.now result.0.now result.1.now }
{
    rows.split_at(group_len(rows, at, name))
}
