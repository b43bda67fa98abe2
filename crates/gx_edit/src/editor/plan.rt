// What is to be written of loaded directories, planned before any of it is stored.
ghost use Rattle.std.specs.Prelude.{◌≡◌, ◌<◌, ◌+◌, ◌==◌, not, length, IfOk, IfErr, OnOk};
ghost use Rattle.std.specs.List.{list_all};
ghost use Rattle.gx_object.specs.Tree.{is_writable_filename};
ghost use Rattle.gx_edit.specs.EditorPlan.{IsReached, id_if, PlansTree, PlansRows, IsPlanned, IsRootPlanned};
ghost use Rattle.gx_edit.specs.EditorPlan.{output_with, Misspells};
ghost use Rattle.gx_edit.specs.EditorWriting.{AreSpelled, PlanViewCauses};
ghost use Rattle.gx_edit.specs.Nodes.{places_of, view_at, AreLinked};
ghost use Rattle.gx_edit.specs.Planning.{ArePlanned};
ghost use Rattle.gx_edit.specs.Written.{IsOutputOfView, id_with};

use super::marks::reached;
use super::nodes::Node;
use super::rows::rows_of;
use crate::EditError;
use crate::output::{Output, PlannedTree};
use gx_hash::{Bytes, HashKind, NoMemory, ObjectId, object_id};
use gx_object::{Entry, Field, Kind, push_tree};
use std::alloc::Global;

/// What is planned so far: trees, the last directory's first, the entries in them, and the id of each directory that
/// has a tree.
#[derive(Drop)]
pub(super) struct Planned {
    trees: Vec<PlannedTree>,
    entries: Vec<Entry>,
    done: Vec<Option<ObjectId>>,
}

/// Plans the tree with these entries, and answers its id.
fn plan_tree(
    alloc: Global,
    hash: HashKind,
    planned: &mut Planned,
    mut rows: Vec<Entry>,
) -> Result<ObjectId, NoMemory>
    ensures { IfOk result (λ id. (id ≡ id_with hash rows.items) × PlansTree hash rows.items planned.old planned.new) }
{
    let mut bytes = Vec::new(alloc);
    push_tree(&mut bytes, &rows)?;
    let bytes = Bytes::from_vec(bytes);
    let id = object_id(hash, Kind::Tree.as_bytes(), bytes.as_slice());
    planned.trees.push(PlannedTree { id, bytes })?;
    planned.entries.append(&mut rows)?;
    Ok(id)
}

/// The same where there are entries. A directory below the root is not written without any.
fn plan_rows(
    alloc: Global,
    hash: HashKind,
    planned: &mut Planned,
    rows: Vec<Entry>,
) -> Result<Option<ObjectId>, NoMemory>
    ensures { IfOk result (λ id. (id ≡ id_if hash rows.items) × PlansRows hash rows.items planned.old planned.new) }
{
    if rows.is_empty() {
        return Ok(None);
    }
    Ok(Some(plan_tree(alloc, hash, planned, rows)?))
}

/// Plans a directory that the root leads to, once all after it are planned.
fn plan_directory(
    alloc: Global,
    hash: HashKind,
    nodes: &[Node],
    at: usize,
    planned: &mut Planned,
) -> Result<(), NoMemory>
    requires links { AreLinked (places_of nodes.now) }
    requires within { at < length nodes.now }
    requires below_root { 0 < at }
    requires reached { IsReached (places_of nodes.now) at }
    requires so_far { IsPlanned hash (places_of nodes.now) (at + 1) planned.old }
    ensures { OnOk result (IsPlanned hash (places_of nodes.now) at planned.new) }
{
    let rows = rows_of(alloc, &nodes[at], &planned.done)?;
    let id = plan_rows(alloc, hash, planned, rows)?;
    planned.done[at] = id;
    Ok(())
}

/// Plans all directories that the root leads to, the last first, but not the root.
fn plan_below(alloc: Global, hash: HashKind, nodes: &[Node]) -> Result<Planned, NoMemory>
    requires { AreLinked (places_of nodes.now) }
    ensures { IfOk result (IsPlanned hash (places_of nodes.now) 1) }
{
    let marks = reached(alloc, nodes)?;
    let mut planned = Planned {
        trees: Vec::new(alloc),
        entries: Vec::new(alloc),
        done: Vec::from_elem(alloc, None, nodes.len())?,
    };
    for at in (1..nodes.len()).rev() {
        if marks[at] {
            plan_directory(alloc, hash, nodes, at, &mut planned)?;
        }
    }
    Ok(planned)
}

/// Plans all but the root, and the entries that are written of the root.
pub(super) fn plan_to_root(
    alloc: Global,
    hash: HashKind,
    nodes: &[Node],
) -> Result<(Planned, Vec<Entry>), NoMemory>
    requires { AreLinked (places_of nodes.now) }
    ensures { IfOk result (λ plan. IsRootPlanned hash (places_of nodes.now) plan.0 plan.1.items) }
{
    let planned = plan_below(alloc, hash, nodes)?;
    let rows = rows_of(alloc, &nodes[0], &planned.done)?;
    Ok((planned, rows))
}

fn has_no_zero(name: &[u8]) -> bool
    ensures { result ≡ list_all (λ b. not (b == 0)) name.now }
{
    name.iter().all(|byte| *byte != 0)
}

fn is_spelled(entry: &Entry) -> bool
    ensures { result ≡ is_writable_filename entry.now.filename }
{
    let name = entry.filename.as_slice();
    !name.is_empty() && has_no_zero(name)
}

fn are_spelled(entries: &[Entry]) -> bool
    ensures { result ≡ list_all (λ entry. is_writable_filename entry.filename) entries.now }
{
    entries.iter().all(|entry| is_spelled(entry))
}

/// Plans the root, which always has a tree, and refuses what can't be spelled.
pub(super) fn output_of(
    alloc: Global,
    hash: HashKind,
    mut planned: Planned,
    rows: Vec<Entry>,
) -> Result<Output, EditError>
    requires { ArePlanned hash planned.trees.items }
    ensures ok { IfOk result (λ output. output ≡ output_with hash planned rows.items) }
    ensures spelled { IfOk result AreSpelled }
    ensures causes { IfErr result (Misspells (output_with hash planned rows.items)) }
{
    let root = plan_tree(alloc, hash, &mut planned, rows)?;
    if !are_spelled(&planned.entries) {
        return Err(EditError::WriteObject {
            field: Field::FileName,
        });
    }
    Ok(Output::new(hash, planned.trees, planned.entries, root))
}

/// What is to be written of the view of the first directory.
pub(super) fn plan_nodes(alloc: Global, hash: HashKind, nodes: &[Node]) -> Result<Output, EditError>
    requires { AreLinked (places_of nodes.now) }
    ensures ok { IfOk result (IsOutputOfView hash (view_at (places_of nodes.now) 0)) }
    ensures spelled { IfOk result AreSpelled }
    ensures causes { IfErr result (PlanViewCauses hash (view_at (places_of nodes.now) 0)) }
{
    let (planned, rows) = plan_to_root(alloc, hash, nodes)?;
    output_of(alloc, hash, planned, rows)
}
