//! Listings of references.
ghost use Rattle.std.specs.Prelude.{◌≡◌, ◌∷◌, ◌++◌, [], ℕ, List, IfOk, IfErr, IfSome, OnOk, option_copied};
ghost use Rattle.gx_store.specs.Listing as listing;
ghost use Rattle.gx_refs.specs.Finding.{IsListing, ListCauses};
ghost use Rattle.gx_refs.specs.Listed.{KeepsWithin};
ghost use Rattle.gx_refs.specs.Shown.{prefix_of};

use crate::RefError;
use crate::shown::{Space, within};
use gx_hash::NoMemory;
use gx_rules::{FullName, Namespace};
use gx_store::{Names, References};
use std::alloc::Global;

/// Adds a stored name as it is shown, if it is within the namespace.
#[tactic(auto, using(crate::proofs::ListLemmas::keep_more, crate::proofs::ListLemmas::keep_same))]
fn keep_within(
    alloc: Global,
    space: &Space,
    name: &FullName,
    names: &mut Vec<FullName>,
) -> Result<(), NoMemory>
    ensures { (stored : List (List ℕ)) → KeepsWithin space.now stored names.old.items
        → OnOk result (KeepsWithin space.now (stored ++ name.now ∷ []) names.new.items) }
{
    let Some(short) = within(alloc, space, name)? else {
        return Ok(());
    };
    names.push(short)?;
    Ok(())
}

/// The names within a namespace, as they are shown.
#[tactic(auto, using(crate::proofs::ListLemmas::one_name_more))]
fn names_within(alloc: Global, space: &Space, stored: &[FullName]) -> Result<Names, NoMemory>
    ensures { IfOk result (KeepsWithin space.now stored.now) }
{
    let mut names = Vec::with_capacity(alloc, stored.len())?;
    for name in stored {
        keep_within(alloc, space, name, &mut names)?;
    }
    Ok(Names::from_vec(names))
}

/// The names of the references that begin with the prefix, in rising order of bytes. Also over a store that tells
/// nothing there are no others, and they are in that order.
#[tactic(auto, using(crate::proofs::ListLemmas::told_lists))]
pub fn iterate<S: References>(
    alloc: Global,
    store: &S,
    space: Option<&Namespace>,
    prefix: &[u8],
) -> Result<Names, RefError>
    ensures ok { IfOk result (λ names. IfSome (S.state store.now).references (λ refs.
        IsListing (prefix_of (option_copied space.entry)) prefix.now refs.targets names)) }
    ensures listing { IfOk result (listing.IsListing prefix.now) }
    ensures causes { IfErr result (ListCauses (S.state store.now)) }
{
    let under = Space::of(space)?;
    let mut from = Vec::from_slice(alloc, under.prefix())?;
    from.extend_from_slice(prefix)?;
    let stored = store.list(alloc, &from)?;
    let names = names_within(alloc, &under, stored.as_slice())?;
    Ok(names)
}
