// Which of the loaded directories the root leads to. A directory that an edit forgot stands in the list still.
ghost use Rattle.std.specs.Prelude.{length, IfOk};
ghost use Rattle.gx_edit.specs.Nodes.{places_of, map_in, AreLinked};
ghost use Rattle.gx_edit.specs.EditorPlan.{AreWithin, Marks, TellsReached};

use super::nodes::Node;
use gx_hash::NoMemory;
use std::alloc::Global;
use std::collections::BTreeMap;

/// Marks the directories that are loaded in one.
fn mark_inner(inner: &BTreeMap<Vec<u8>, usize>, marks: &mut [bool])
    requires { AreWithin (map_in inner.now) (length marks.old) }
    ensures { Marks (map_in inner.now) marks.old marks.new }
{
    for (_, place) in inner.iter() {
        marks[*place] = true;
    }
}

/// Marks the directories that the root leads to. Each stands after the one that it is loaded in, so one pass does.
pub(super) fn reached(alloc: Global, nodes: &[Node]) -> Result<Vec<bool>, NoMemory>
    requires { AreLinked (places_of nodes.now) }
    ensures { IfOk result (λ marks. TellsReached (places_of nodes.now) marks.items) }
{
    let mut marks = Vec::from_elem(alloc, false, nodes.len())?;
    marks[0] = true;
    for (at, node) in nodes.iter().enumerate() {
        if marks[at] {
            mark_inner(&node.inner, &mut marks);
        }
    }
    Ok(marks)
}
