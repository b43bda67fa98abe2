//! The search for the description of a commit.

ghost use Rattle.std.specs.Prelude.{◌≡◌, ◌≢◌, ℕ, false, List, Some, IfOk, IfErr, OnOk, IsSome, MatchOption};
ghost use Rattle.gx_walk.specs.Causes.{CommitCauses};
ghost use Rattle.gx_walk.specs.Describe.{bare, IsByCandidates, IsDescription, IsReadForDescription};
ghost use Rattle.gx_walk.specs.History.{Told, time_of};
ghost use Rattle.gx_hash.specs.ObjectIds.{has_id};
ghost use Rattle.gx_walk.specs.NameMap.{name_of};
ghost use Rattle.gx_walk.specs.Search.{follow, IsReached};

use crate::commit::read_commit;
use crate::describe::search::Search;
use crate::describe::{NameMap, Options, Outcome};
use crate::{Graph, WalkError};
use gx_hash::{Bytes, NoMemory, ObjectId};
use gx_object::Ids;
use gx_store::Objects;
use std::alloc::Global;

/// Describes a commit by the nearest name in its history. `shallow` are commits that count as ones without parents.
///
/// The graph is neither read nor changed.
///
/// ```
/// let outcome = describe(alloc, &store, &[], id, &mut Graph::new(alloc), options)?;
/// let text = match outcome {
///     Some(outcome) => outcome.into_format(7).to_bytes(alloc)?,
///     None => Bytes::new(alloc),
/// };
/// ```
pub fn describe<S: Objects>(
    alloc: Global,
    store: &S,
    shallow: &[ObjectId],
    id: ObjectId,
    graph: &mut Graph<()>,
    options: Options,
) -> Result<Option<Outcome>, WalkError>
    ensures ok { IfOk result (λ answer. Told (S.state store.now) (λ history.
        IsDescription history (has_id shallow.now) options id answer)) }
    ensures commit { OnOk result (Told (S.state store.now) (λ history. IsSome (history id))) }
    ensures graph { graph.new ≡ graph.old }
    ensures own { (name : List ℕ) → name_of options.names id ≡ Some name
        → IfOk result (λ answer. answer ≡ Some (record { name = Some name; id = id; depth = 0 })) }
    ensures always { IfOk result (λ answer.
        MatchOption answer (options.fallback ≡ false) (λ outcome. outcome.id ≡ id)) }
    ensures causes { IfErr result (CommitCauses (S.state store.now)
        (IsReadForDescription (S.state store.now) (has_id shallow.now) options id)) }
{
    read_commit(alloc, store, id)?;
    if let Some(name) = name(&options.names, &id)? {
        return Ok(Some(Outcome {
            name: Some(name),
            id,
            depth: 0,
        }));
    }
    let search = Search {
        id,
        parents: options.parents(),
        shallow: Ids::from_vec(shallow.to_vec(alloc)?),
    };
    by_nearest(alloc, store, &search, &options)
}

/// Describes a commit without a name of its own.
fn by_nearest<S: Objects>(
    alloc: Global,
    store: &S,
    search: &Search,
    options: &Options,
) -> Result<Option<Outcome>, WalkError>
    ensures ok { IfOk result (λ answer. Told (S.state store.now) (λ history.
        IsByCandidates (follow history search.now) (time_of history) options.now search.now.id answer)) }
    ensures always { IfOk result (λ answer.
        MatchOption answer (options.now.fallback ≡ false) (λ outcome. outcome.id ≡ search.now.id)) }
    ensures causes { IfErr result (CommitCauses (S.state store.now) (λ one. (options.now.max_candidates ≢ 0)
        × Told (S.state store.now) (λ history. IsReached history search.now one))) }
{
    if options.max_candidates == 0 {
        return Ok(bare(options.fallback, search.id));
    }
    let candidates = search.candidates(alloc, store, &options.names, options.max_candidates)?;
    match search.nearest(alloc, store, &candidates)? {
        Some(nearest) => Ok(Some(Outcome {
            name: name(&options.names, &nearest.id)?,
            id: search.id,
            depth: nearest.depth,
        })),
        None => Ok(bare(options.fallback, search.id)),
    }
}

/// A copy of a commit's name.
fn name(names: &NameMap, id: &ObjectId) -> Result<Option<Bytes>, NoMemory>
    ensures { IfOk result (λ name. name ≡ name_of names.now id.now) }
{
    match names.get(id) {
        Some(name) => Ok(Some(name.try_clone()?)),
        None => Ok(None),
    }
}

/// The bare id, if it was asked for.
fn bare(fallback: bool, id: ObjectId) -> Option<Outcome>
    ensures { result ≡ bare fallback id }
{
    if !fallback {
        return None;
    }
    Some(Outcome {
        name: None,
        id,
        depth: 0,
    })
}
