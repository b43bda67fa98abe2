// What an editor holds, written as trees.
ghost use Rattle.std.specs.Prelude.{◌≡◌, IfOk, IfErr, OnOk};
ghost use Rattle.std.specs.FinMap as fin;
ghost use Rattle.gx_edit.specs.EditorPlan.{IsRewrite};
ghost use Rattle.gx_edit.specs.EditorWriting.{AreSpelled, PlanViewCauses};
ghost use Rattle.gx_edit.specs.Nodes.{place_of, places_of, view_at, AreLinked};
ghost use Rattle.gx_edit.specs.View.{names_of, only};

use super::Editor;
use super::item::Item;
use super::nodes::{Node, new_node, put_name};
use super::plan::{output_of, plan_nodes, plan_to_root};
use crate::{EditError, Output};
use gx_hash::{HashKind, NoMemory, ObjectId};
use gx_object::Entry;
use gx_rules::Protect;
use gx_store::Objects;
use std::alloc::Global;

fn put_row(alloc: Global, node: &mut Node, row: &Entry) -> Result<(), NoMemory>
    ensures { OnOk result (place_of node.new ≡ record {
      names = fin.insert (place_of node.old).names row.now.filename
          (record { mode = row.now.mode; id = row.now.oid });
      inner = (place_of node.old).inner;
    }) }
{
    let item = Item {
        mode: row.mode,
        id: row.oid,
    };
    put_name(alloc, &mut node.names, row.filename.as_slice(), item)
}

/// The directory with these entries, which are kept.
fn node_with(alloc: Global, rows: &[Entry]) -> Result<Node, NoMemory>
    ensures { IfOk result (λ node. place_of node ≡ record { names = names_of rows.now; inner = fin.empty }) }
{
    let mut node = new_node(alloc);
    for row in rows.iter().rev() {
        put_row(alloc, &mut node, row)?;
    }
    Ok(node)
}

/// A list of the directory with these entries alone.
fn lone_node(alloc: Global, rows: &[Entry]) -> Result<Vec<Node>, NoMemory>
    ensures links { IfOk result (λ nodes. AreLinked (places_of nodes.items)) }
    ensures view { IfOk result (λ nodes. view_at (places_of nodes.items) 0 ≡ only (names_of rows.now)) }
{
    let node = node_with(alloc, rows)?;
    let mut nodes = Vec::with_capacity(alloc, 1)?;
    nodes.push(node)?;
    Ok(nodes)
}

/// What is to be written, and the directories that are loaded once it is: the root alone.
fn plan_write(
    alloc: Global,
    hash: HashKind,
    nodes: &[Node],
) -> Result<(Output, Vec<Node>), EditError>
    requires { AreLinked (places_of nodes.now) }
    ensures ok { IfOk result (λ plan. IsRewrite hash (places_of nodes.now) plan.0 (places_of plan.1.items)) }
    ensures spelled { IfOk result (λ plan. AreSpelled plan.0) }
    ensures causes { IfErr result (PlanViewCauses hash (view_at (places_of nodes.now) 0)) }
{
    let (planned, rows) = plan_to_root(alloc, hash, nodes)?;
    let root = lone_node(alloc, &rows)?;
    let output = output_of(alloc, hash, planned, rows)?;
    Ok((output, root))
}

impl Editor {
    ghost use Rattle.std.specs.Prelude.{◌≡◌, IfOk, IfErr, OnOk, OnErr};
    ghost use Rattle.gx_edit.specs.Editor.{view_of, hash_of};
    ghost use Rattle.gx_edit.specs.EditorWriting.{AreSpelled, PlanViewCauses};
    ghost use Rattle.gx_edit.specs.EditorWriting.{WritesView, KeepsRoot, RepresentsView, WriteViewCauses};
    ghost use Rattle.gx_edit.specs.Written.{IsOutputOfView};

    /// What is to be written of the loaded directories. Nothing is stored.
    ///
    /// # Errors
    /// `WriteObject` where a name in what is written is empty or holds a zero byte; `NoMemory`.
    pub fn plan(&self) -> Result<Output, EditError>
        ensures ok { IfOk result (IsOutputOfView (hash_of self.now) (view_of self.now)) }
        ensures spelled { IfOk result AreSpelled }
        ensures causes { IfErr result (PlanViewCauses (hash_of self.now) (view_of self.now)) }
    {
        plan_nodes(self.alloc, self.hash, &self.nodes)
    }

    /// Stores what is to be written, each tree after those that it names and where it is absent, and answers the
    /// root, which alone is loaded then.
    ///
    /// With `protect`, entries whose names may not be checked out are refused before anything is written, and
    /// entries, other than submodules, that name nothing are refused once the trees are stored.
    ///
    /// # Errors
    /// `WriteObject` as for `plan`; `InvalidFilename` and `MissingObject` with `protect` alone; `Store` and
    /// `NoMemory`. The view stays as it was then.
    pub fn write<S: Objects>(
        &mut self,
        store: &mut S,
        protect: Option<Protect>,
    ) -> Result<ObjectId, EditError>
        requires { hash_of self.old ≡ (S.state store.old).hash }
        ensures ok { IfOk result (λ id.
            WritesView (view_of self.old) protect (S.state store.old) id (S.state store.new)) }
        ensures view { OnOk result (KeepsRoot (hash_of self.old) (view_of self.old) (view_of self.new)) }
        ensures leaves { OnErr result (view_of self.new ≡ view_of self.old) }
        ensures represents { IfOk result (λ id.
            RepresentsView (view_of self.old) (S.state store.old) id (S.state store.new)) }
        ensures causes { IfErr result
            (WriteViewCauses (view_of self.old) protect (S.state store.old) (S.state store.new)) }
        ensures kind { hash_of self.new ≡ hash_of self.old }
    {
        gx_store::laws::writing_adds();
        gx_store::laws::added_is_found();
        gx_store::laws::found_stays();
        let (output, nodes) = plan_write(self.alloc, self.hash, &self.nodes)?;
        let id = output.write(self.alloc, store, protect)?;
        self.nodes = nodes;
        Ok(id)
    }
}
