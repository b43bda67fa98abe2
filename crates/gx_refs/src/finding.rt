//! References by a part of their names.
ghost use Rattle.std.specs.Prelude.{◌≡◌, ◌<◌, ◌++◌, Some, slice_get, IfOk, IfErr, IfSome, IfNone, option_copied};
ghost use Rattle.gx_rules.specs.Name.{IsFullName};
ghost use Rattle.gx_store.specs.Kinds.{IsTargetOfKind};
ghost use Rattle.gx_refs.specs.Finding.{candidates, MeansNothing, IsReference, Means, FindCauses, CandidateCauses};
ghost use Rattle.gx_refs.specs.Shown.{prefix_of};

use crate::shown::{Space, shown_target};
use crate::{RefError, Reference};
use gx_hash::{Bytes, NoMemory};
use gx_rules::{FullName, NameError, Namespace, PartialName};
use gx_store::References;
use std::alloc::Global;

/// A part of a name may mean so many full names.
const CANDIDATES: usize = 6;

fn joined(alloc: Global, front: &[u8], name: &[u8], end: &[u8]) -> Result<Bytes, NoMemory>
    ensures { IfOk result (λ bytes. bytes ≡ front.now ++ name.now ++ end.now) }
{
    let mut bytes = Vec::from_slice(alloc, front)?;
    bytes.extend_from_slice(name)?;
    bytes.extend_from_slice(end)?;
    Ok(Bytes::from_vec(bytes))
}

/// The candidate at a place in the order in which they are looked for.
fn candidate(alloc: Global, name: &[u8], at: usize) -> Result<Bytes, NoMemory>
    requires { at < 6 }
    ensures { IfOk result (λ bytes. slice_get (candidates name.now) at ≡ Some bytes) }
{
    match at {
        0 => joined(alloc, b"", name, b""),
        1 => joined(alloc, b"refs/", name, b""),
        2 => joined(alloc, b"refs/tags/", name, b""),
        3 => joined(alloc, b"refs/heads/", name, b""),
        4 => joined(alloc, b"refs/remotes/", name, b""),
        _ => joined(alloc, b"refs/remotes/", name, b"/HEAD"),
    }
}

/// The text as a full name, if it is one.
fn full_name(alloc: Global, text: &[u8]) -> Result<Option<FullName>, NoMemory>
    ensures some { IfOk result (λ found. IfSome found (λ name. (name ≡ text.now) × IsFullName text.now)) }
    ensures none { IfOk result (λ found. IfNone found (¬ IsFullName text.now)) }
{
    match FullName::new(alloc, text) {
        Ok(name) => Ok(Some(name)),
        Err(NameError::NoMemory) => Err(NoMemory),
        Err(_) => Ok(None),
    }
}

/// The reference that a candidate means.
fn reference_at<S: References>(
    alloc: Global,
    store: &S,
    space: &Space,
    text: &[u8],
) -> Result<Option<Reference>, RefError>
    ensures some { IfOk result
        (λ found. IfSome found
        (λ reference. IsFullName text.now × IsReference space.now (S.state store.now).references text.now reference)) }
    ensures none { IfOk result
        (λ found. IfNone found
        (IfSome (S.state store.now).references (λ refs. MeansNothing space.now refs.targets text.now))) }
    ensures kind { IfOk result
        (λ found. IfSome found (λ reference. IsTargetOfKind (S.state store.now).hash reference.target)) }
    ensures causes { IfErr result (CandidateCauses space.now (S.state store.now) text.now) }
{
    let Some(name) = full_name(alloc, text)? else {
        return Ok(None);
    };
    let stored = space.stored(&name)?;
    let Some(target) = store.find(alloc, &stored)? else {
        return Ok(None);
    };
    let target = shown_target(alloc, space, &target)?;
    Ok(Some(Reference {
        name,
        target,
        peeled: None,
    }))
}

/// What the first of the candidates that means a reference means.
#[tactic(auto, using(crate::proofs::FindLemmas::finding))]
fn find_in<S: References>(
    alloc: Global,
    store: &S,
    space: &Space,
    name: &[u8],
) -> Result<Option<Reference>, RefError>
    ensures ok { IfOk result (Means space.now (S.state store.now).references name.now) }
    ensures kind { IfOk result
        (λ found. IfSome found (λ reference. IsTargetOfKind (S.state store.now).hash reference.target)) }
    ensures causes { IfErr result (FindCauses space.now (S.state store.now) name.now) }
{
    for at in 0..CANDIDATES {
        let text = candidate(alloc, name, at)?;
        if let Some(found) = reference_at(alloc, store, space, text.as_slice())? {
            return Ok(Some(found));
        }
    }
    Ok(None)
}

/// The reference that a part of its name means: that name itself, or with `refs/`, `refs/tags/`, `refs/heads/` or
/// `refs/remotes/` in front, or the `HEAD` of a remote of that name.
///
/// ```
/// let main = PartialName::new(alloc, b"main")?;
/// let branch = find(alloc, &store, None, &main)?;
/// ```
pub fn find<S: References>(
    alloc: Global,
    store: &S,
    space: Option<&Namespace>,
    name: &PartialName,
) -> Result<Option<Reference>, RefError>
    ensures ok { IfOk result (Means (prefix_of (option_copied space.entry)) (S.state store.now).references name.now) }
    ensures kind { IfOk result
        (λ found. IfSome found (λ reference. IsTargetOfKind (S.state store.now).hash reference.target)) }
    ensures causes { IfErr result (FindCauses (prefix_of (option_copied space.entry)) (S.state store.now) name.now) }
{
    find_in(alloc, store, &Space::of(space)?, name.as_slice())
}
