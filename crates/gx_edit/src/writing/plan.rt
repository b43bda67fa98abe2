// The trees of a map, planned before any is written.
//
// Directories that are begun stand in a list of their own, so that the depth of a path costs no stack.
ghost use Rattle.std.specs.Prelude.{◌≡◌, ◌++◌, IfOk, OnOk};
ghost use Rattle.gx_hash.specs.declared.kind.HashKind.{HashKind};
ghost use Rattle.gx_object.specs.Tree.{entry_bytes};
ghost use Rattle.gx_object.specs.declared.kind.Kind.TheVariants as object_kind;
ghost use Rattle.gx_edit.specs.CanonicalTree.{Directory, IsCanonical};
ghost use Rattle.gx_edit.specs.Planning.{leaves_of, rows_at, made, planned, with_tree, with_entry, IsPlan};

use super::groups::{Row, first_group, rest_of};
use crate::output::PlannedTree;
use crate::path::split_first_name;
use gx_hash::{Bytes, HashKind, NoMemory, ObjectId, object_id};
use gx_object::{Entry, EntryKind, EntryMode, Kind, push_entry};
use std::alloc::Global;

/// The trees of a map, children first, and the entries in them.
#[derive(Drop)]
pub(super) struct Plan {
    pub(super) trees: Vec<PlannedTree>,
    pub(super) entries: Vec<Entry>,
}

/// A directory that is begun: a directory in it is being planned.
#[derive(Drop)]
struct OpenDirectory<'a> {
    /// The name of the directory that is being planned.
    name: &'a [u8],
    /// What comes after that directory.
    after: &'a [Row],
    /// Where the names of this directory stand in its paths.
    at: usize,
    /// The entries so far.
    bytes: Vec<u8>,
}

impl Plan {
    fn push_tree(&mut self, hash: HashKind, bytes: Vec<u8>) -> Result<ObjectId, NoMemory>
        ensures { IfOk result (λ id. (id ≡ (planned hash (object_kind.Tree, bytes.items)).id)
            × (made self.new ≡ with_tree (planned hash (object_kind.Tree, bytes.items)) (made self.old))) }
    {
        let bytes = Bytes::from_vec(bytes);
        let id = object_id(hash, Kind::Tree.as_bytes(), bytes.as_slice());
        self.trees.push(PlannedTree { id, bytes })?;
        Ok(id)
    }

    fn push_entry(
        &mut self,
        alloc: Global,
        bytes: &mut Vec<u8>,
        mode: EntryMode,
        name: &[u8],
        id: ObjectId,
    ) -> Result<(), NoMemory>
        ensures bytes { OnOk result (bytes.new.items ≡ bytes.old.items ++ entry_bytes
            (record { mode = mode; filename = name.now; oid = id })) }
        ensures entry { OnOk result (made self.new ≡ with_entry (record { mode = mode; filename = name.now; oid = id })
            (made self.old)) }
    {
        let entry = Entry {
            mode,
            filename: Bytes::from_slice(alloc, name)?,
            oid: id,
        };
        push_entry(bytes, &entry)?;
        self.entries.push(entry)?;
        Ok(())
    }
}

/// Plans the trees of these rows, and answers the root.
pub(super) fn plan_trees(
    alloc: Global,
    hash: HashKind,
    rows: &[Row],
) -> Result<(Plan, ObjectId), NoMemory>
    ensures { IfOk result (λ answer. (d : Directory) → IsCanonical d → leaves_of d ≡ rows_at 0 rows.now
        → IsPlan hash d answer.0 answer.1) }
{
    let mut plan = Plan {
        trees: Vec::new(alloc),
        entries: Vec::new(alloc),
    };
    let mut open: Vec<OpenDirectory> = Vec::new(alloc);
    let mut bytes = Vec::new(alloc);
    let mut rest = rows;
    let mut at = 0;
    loop {
        match rest.split_first() {
            None => {
                let id = plan.push_tree(hash, bytes)?;
                match open.pop() {
                    None => return Ok((plan, id)),
                    Some(outer) => {
                        bytes = outer.bytes;
                        let mode = EntryMode::from(EntryKind::Tree);
                        plan.push_entry(alloc, &mut bytes, mode, outer.name, id)?;
                        rest = outer.after;
                        at = outer.at;
                    }
                }
            }
            Some((row, others)) => {
                let path = rest_of(row, at);
                match split_first_name(path) {
                    None => {
                        plan.push_entry(alloc, &mut bytes, row.leaf.mode, path, row.leaf.id)?;
                        rest = others;
                    }
                    Some((name, _)) => {
                        let (group, after) = first_group(rest, at, name);
                        open.push(OpenDirectory {
                            name,
                            after,
                            at,
                            bytes,
                        })?;
                        bytes = Vec::new(alloc);
                        rest = group;
                        at = at + name.len() + 1;
                    }
                }
            }
        }
    }
}
