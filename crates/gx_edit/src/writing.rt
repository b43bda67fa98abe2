//! Path maps written as their canonical trees.

mod groups;
mod plan;
mod rows;

ghost use Rattle.std.specs.Prelude.{IfOk, IfErr};
ghost use Rattle.gx_edit.specs.PathList.{map_of};
ghost use Rattle.gx_edit.specs.Writing.{WritesMap, RepresentsMap, WriteMapCauses};

use crate::{EditError, Output, PathMap};
use gx_hash::{HashKind, ObjectId};
use gx_object::Field;
use gx_rules::Protect;
use gx_store::Objects;
use plan::plan_trees;
use rows::{has_zero, rows_of};
use std::alloc::Global;

impl PathMap {
    ghost use Rattle.std.specs.Prelude.{IfOk, IfErr};
    ghost use Rattle.gx_edit.specs.PathList.{map_of};
    ghost use Rattle.gx_edit.specs.Output.{IsOutputOf, PlanCauses};

    /// The trees of the map, children first, with their ids of the kind.
    ///
    /// # Errors
    /// `WriteObject` for a path with a zero byte; `NoMemory`.
    pub fn plan(&self, alloc: Global, hash: HashKind) -> Result<Output, EditError>
        ensures ok { IfOk result (IsOutputOf hash (map_of self.now)) }
        ensures causes { IfErr result (PlanCauses self.now) }
    {
        if has_zero(self) {
            return Err(EditError::WriteObject {
                field: Field::FileName,
            });
        }
        let rows = rows_of(alloc, self)?;
        let (plan, root) = plan_trees(alloc, hash, &rows)?;
        Ok(Output::new(hash, plan.trees, plan.entries, root))
    }
}

/// Stores the trees of a map, each once and where it is absent, children first, and answers the root. The root of the
/// empty map is the empty tree.
///
/// With `protect`, entries whose names may not be checked out are refused before anything is written, and entries,
/// other than submodules, that name nothing are refused once the trees are stored.
///
/// # Errors
/// `WriteObject` for a path with a zero byte; `InvalidFilename` and `MissingObject` with `protect` alone; `Store` and
/// `NoMemory`.
pub fn write_plain<S: Objects>(
    alloc: Global,
    store: &mut S,
    map: &PathMap,
    protect: Option<Protect>,
) -> Result<ObjectId, EditError>
    ensures ok { IfOk result (λ id. WritesMap map.now protect (S.state store.old) id (S.state store.new)) }
    ensures represents { IfOk result (λ id. RepresentsMap (map_of map.now) (S.state store.old) id (S.state store.new)) }
    ensures causes { IfErr result (WriteMapCauses map.now protect (S.state store.old) (S.state store.new)) }
{
    gx_store::laws::writing_adds();
    gx_store::laws::added_is_found();
    let output = map.plan(alloc, store.hash_kind())?;
    output.write(alloc, store, protect)
}
