// References that conflict with a name. None but those above and below the name are looked at.
ghost use Rattle.std.specs.Prelude.{◌≡◌, ◌<◌, ℕ, List, length, slice_get, filter, nat_eq, None, IsSome, IfOk, IfSome, IfNone};
ghost use Rattle.std.specs.List.{starts_with};
ghost use Rattle.std.specs.FinMap.{get, keys};
ghost use Rattle.gx_store.specs.Slots.{refs_of};
ghost use Rattle.gx_store.specs.Conflict.{Conflict, IsFree, IsProperPrefix};

use crate::slots::{self, Slot};
use gx_hash::{Bytes, NoMemory};
use gx_rules::FullName;
use std::alloc::Global;
use std::collections::BTreeMap;

/// The first name with a target that begins with the prefix.
fn first_with_prefix(
    alloc: Global,
    map: &BTreeMap<Bytes, Slot>,
    prefix: &[u8],
) -> Result<Option<FullName>, NoMemory>
    ensures { IfOk result (λ found. found
        ≡ slice_get (filter (λ name. starts_with nat_eq name prefix.now) (keys (refs_of map.now).targets)) 0) }
{
    let from = Bytes::from_slice(alloc, prefix)?;
    for (name, slot) in map.range(from..) {
        if !name.as_slice().starts_with(prefix) {
            return Ok(None);
        }
        if slot.has_target() {
            return Ok(Some(slots::name_of(alloc, name.as_slice())?));
        }
    }
    Ok(None)
}

/// The part of the name before a place, where a slash is there and a reference has that name.
#[tactic(auto, using(crate::proofs::ConflictLemmas::one_above))]
fn reference_above(
    alloc: Global,
    map: &BTreeMap<Bytes, Slot>,
    name: &[u8],
    at: usize,
) -> Result<Option<FullName>, NoMemory>
    requires { at < length name.now }
    ensures some { IfOk result (λ found. IfSome found (λ other. IsProperPrefix other name.now
        × IsSome (get (refs_of map.now).targets other))) }
    ensures none { IfOk result (λ found. IfNone found ((other : List ℕ) → IsProperPrefix other name.now
        → length other ≡ at → get (refs_of map.now).targets other ≡ None)) }
{
    if name[at] != b'/' {
        return Ok(None);
    }
    let above = Bytes::from_slice(alloc, &name[..at])?;
    if slots::has_target(map, &above) {
        Ok(Some(slots::name_of(alloc, above.as_slice())?))
    } else {
        Ok(None)
    }
}

/// A reference whose name is a proper prefix of the name.
#[tactic(auto, using(crate::proofs::ConflictLemmas::above_more, crate::proofs::ConflictLemmas::above_all))]
fn conflict_above(
    alloc: Global,
    map: &BTreeMap<Bytes, Slot>,
    name: &[u8],
) -> Result<Option<FullName>, NoMemory>
    ensures some { IfOk result (λ found. IfSome found (λ other. IsProperPrefix other name.now
        × IsSome (get (refs_of map.now).targets other))) }
    ensures none { IfOk result (λ found. IfNone found ((other : List ℕ) → IsProperPrefix other name.now
        → get (refs_of map.now).targets other ≡ None)) }
{
    for at in 0..name.len() {
        if let Some(found) = reference_above(alloc, map, name, at)? {
            return Ok(Some(found));
        }
    }
    Ok(None)
}

/// A reference whose name the name is a proper prefix of.
#[tactic(auto, using(crate::proofs::ConflictLemmas::below_some, crate::proofs::ConflictLemmas::below_none))]
fn conflict_below(
    alloc: Global,
    map: &BTreeMap<Bytes, Slot>,
    name: &[u8],
) -> Result<Option<FullName>, NoMemory>
    ensures some { IfOk result (λ found. IfSome found (λ other. IsProperPrefix name.now other
        × IsSome (get (refs_of map.now).targets other))) }
    ensures none { IfOk result (λ found. IfNone found ((other : List ℕ) → IsProperPrefix name.now other
        → get (refs_of map.now).targets other ≡ None)) }
{
    let mut directory = Vec::with_capacity(alloc, name.len().saturating_add(1))?;
    directory.extend_from_slice(name)?;
    directory.push(b'/')?;
    let found = first_with_prefix(alloc, map, &directory)?;
    Ok(found)
}

/// A reference that conflicts with the name.
pub(crate) fn conflict_of(
    alloc: Global,
    map: &BTreeMap<Bytes, Slot>,
    name: &FullName,
) -> Result<Option<FullName>, NoMemory>
    ensures conflict { IfOk result (λ found. IfSome found (Conflict name.now)) }
    ensures stored { IfOk result (λ found. IfSome found (λ other. IsSome (get (refs_of map.now).targets other))) }
    ensures none { IfOk result (λ found. IfNone found (IsFree (refs_of map.now).targets name.now)) }
{
    if let Some(found) = conflict_above(alloc, map, name.as_slice())? {
        return Ok(Some(found));
    }
    let found = conflict_below(alloc, map, name.as_slice())?;
    Ok(found)
}
