//! Merge bases: the best common ancestors of commits.
ghost use Rattle.std.specs.Prelude.{◌≡◌, [], ◌∷◌, ◌↔◌, IsTrue, IfOk, IfErr};
ghost use Rattle.gx_walk.specs.Causes.{CommitCauses};
ghost use Rattle.gx_walk.specs.Graph.{Extends, IsGraphIn};
ghost use Rattle.gx_walk.specs.History.{Told};
ghost use Rattle.gx_walk.specs.MergeBase.{AreBases, IsAlone, IsReadForBases};

mod best;
mod fold;

use crate::commit::{reached, set_of};
use crate::{Graph, Parents, WalkError};
use best::best_of;
pub use fold::octopus;
use gx_hash::ObjectId;
use gx_object::Ids;
use gx_store::Objects;
use std::alloc::Global;

/// The merge bases of a commit and some others, taken together: newest first, of equal times the lower id first.
///
/// The ids in `shallow` count as commits without parents. All that the commits reach is read, so that a base is found
/// whatever the times; what is in the graph is not read again, and what is read is put there. If there are no others,
/// or the commit is one of them, it is the answer, and nothing is read. (git-merge-base(1), `--all`)
pub fn merge_base<S: Objects>(
    alloc: Global,
    store: &S,
    shallow: &[ObjectId],
    one: ObjectId,
    others: &[ObjectId],
    graph: &mut Graph<()>,
) -> Result<Ids, WalkError>
    requires { IsGraphIn (S.state store.now) graph.old }
    ensures alone { IsAlone one others.now → IfOk result (λ bases. bases ≡ one ∷ []) }
    ensures ok { IfOk result (λ bases. Told (S.state store.now) (λ history.
        AreBases history shallow.now one others.now bases)) }
    ensures graph { IsGraphIn (S.state store.now) graph.new }
    ensures keeps { Extends graph.old graph.new }
    ensures causes { IfErr result (CommitCauses (S.state store.now)
        (IsReadForBases (S.state store.now) shallow.now one others.now)) }
{
    if is_alone(one, others) {
        return Ok(Ids::from_vec(vec![in alloc; one]?));
    }
    let shallow = set_of(alloc, shallow)?;
    let of_one = reached(alloc, store, graph, Parents::All, &shallow, &[one])?;
    let of_others = reached(alloc, store, graph, Parents::All, &shallow, others)?;
    Ok(best_of(alloc, graph, &shallow, &of_one, &of_others)?)
}

/// Whether the commit is itself the answer: there are no others, or it is one of them.
fn is_alone(one: ObjectId, others: &[ObjectId]) -> bool
    ensures { IsTrue result ↔ IsAlone one others.now }
{
    others.is_empty() || others.contains(&one)
}
