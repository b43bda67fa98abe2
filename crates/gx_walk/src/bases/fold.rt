//! The base of several commits, one after the other.

ghost use Rattle.std.specs.Prelude.{◌≡◌, true, Some, IfOk, IfErr};
ghost use Rattle.gx_hash.specs.ObjectIds.{has_id};
ghost use Rattle.gx_hash.specs.declared.oid.ObjectId.{ObjectId};
ghost use Rattle.gx_walk.specs.Causes.{CommitCauses};
ghost use Rattle.gx_walk.specs.Graph.{Extends, IsGraphIn};
ghost use Rattle.gx_walk.specs.History.{Told};
ghost use Rattle.gx_walk.specs.MergeBase.{IsOctopus, IsReadForOctopus};

use crate::{Graph, WalkError, merge_base};
use gx_hash::ObjectId;
use gx_store::Objects;
use std::alloc::Global;

/// The base of a commit and all others: the first merge base with the first other, then of that with the next, and so
/// on. There is none if two of these have none.
///
/// Parameters and errors are those of `merge_base`. If all others are the commit itself, it is the answer, and nothing
/// is read.
pub fn octopus<S: Objects>(
    alloc: Global,
    store: &S,
    shallow: &[ObjectId],
    one: ObjectId,
    others: &[ObjectId],
    graph: &mut Graph<()>,
) -> Result<Option<ObjectId>, WalkError>
    requires { IsGraphIn (S.state store.now) graph.old }
    ensures alone { ((other : ObjectId) → has_id others.now other ≡ true → other ≡ one)
        → IfOk result (λ found. found ≡ Some one) }
    ensures ok { IfOk result (λ found. Told (S.state store.now) (λ history.
        IsOctopus history shallow.now one others.now found)) }
    ensures graph { IsGraphIn (S.state store.now) graph.new }
    ensures keeps { Extends graph.old graph.new }
    ensures causes { IfErr result (CommitCauses (S.state store.now)
        (IsReadForOctopus (S.state store.now) shallow.now one others.now)) }
{
    let mut base = one;
    for other in others {
        let bases = merge_base(alloc, store, shallow, base, &[*other], graph)?;
        let Some(first) = bases.as_slice().first() else {
            return Ok(None);
        };
        base = *first;
    }
    Ok(Some(base))
}
