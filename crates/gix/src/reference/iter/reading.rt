//! References that are listed, and then read one by one.

ghost use Rattle.std.specs.Prelude.{◌≡◌, ◌++◌, ◌∷◌, ◌&&◌, [], filter, not, None, List, ℕ, IfOk, IfErr, IfSome, IfNone, OnOk, option_copied, Contains};
ghost use Rattle.std.specs.FinMap.{get};
ghost use Rattle.std.specs.List.{AllByRecursion, list_all};
ghost use Rattle.gx_rules.specs.Path.{components};
ghost use Rattle.gx_store.specs.Kinds.{IsTargetOfKind};
ghost use Rattle.gx_store.specs.Listing as listing;
ghost use Rattle.gx_store.specs.State.{IfFault, IsUnreadable};
ghost use Rattle.gx_store.specs.declared.error.What.TheVariants as part;
ghost use Rattle.gx_refs.specs.Finding.{IsListing, ListCauses};
ghost use Rattle.gx_refs.specs.Shown.{prefix_of, stored_name};
ghost use Rattle.gx_refs.specs.declared.reference.Reference.{Reference};
ghost use Rattle.gix.specs.Found.{AreFound, IsFound};
ghost use Rattle.gix.specs.References.{ArePseudo, AreReferences, ReadsListing, ReadsPseudo, is_pseudo, is_relative_path, is_step, names_of, store_error};
ghost use Rattle.gix.specs.Repository.{settings_of, store_of};
ghost use Rattle.gix.specs.Space.{space_of};

use super::ReferenceList;
use crate::Repository;
use crate::space::{namespace_of, shown_target, stored_name};
use gx_refs::{RefError, Reference, iterate};
use gx_rules::{FullName, Namespace, components};
use gx_store::{Names, Store, StoreError};
use std::alloc::Global;

/// A component that names a directory by the way to it.
fn is_step(name: &[u8]) -> bool
    ensures { result ≡ is_step name.now }
{
    name == b".".as_slice() || name == b"..".as_slice()
}

fn has_no_steps(prefix: &[u8]) -> bool
    ensures { result ≡ list_all (λ name. not (is_step name)) (components prefix.now) }
{
    components(prefix).all(|name| !is_step(name))
}

/// Whether the prefix begins with no slash, and no component of it is `.` or `..`.
pub(super) fn is_relative_path(prefix: &[u8]) -> bool
    ensures { result ≡ is_relative_path prefix.now }
{
    !prefix.starts_with(b"/") && has_no_steps(prefix)
}

/// The reference of a name, as it is shown.
fn reference_at<S: Store>(
    alloc: Global,
    store: &S,
    space: Option<&Namespace>,
    name: &FullName,
) -> Result<Option<Reference>, StoreError>
    ensures some { IfOk result (λ found. IfSome found (IsFound (prefix_of (option_copied space.entry))
        (S.state store.now).hash (S.state store.now).references name.now)) }
    ensures none { IfOk result (λ found. IfNone found (IfSome (S.state store.now).references (λ refs.
        get refs.targets (stored_name (prefix_of (option_copied space.entry)) name.now) ≡ None))) }
    ensures fault { IfFault result (IsUnreadable (S.state store.now)
        (part.Name (stored_name (prefix_of (option_copied space.entry)) name.now))) }
{
    let stored = stored_name(space, name)?;
    let Some(target) = store.find(alloc, &stored)? else {
        return Ok(None);
    };
    let target = shown_target(alloc, space, &target)?;
    let name = name.try_clone()?;
    Ok(Some(Reference {
        name,
        target,
        peeled: None,
    }))
}

/// Adds the reference of a name, if it is there.
fn keep_found<S: Store>(
    alloc: Global,
    store: &S,
    space: Option<&Namespace>,
    name: &FullName,
    list: &mut Vec<Reference>,
) -> Result<(), StoreError>
    ensures found { (names : List (List ℕ)) → AreFound (prefix_of (option_copied space.entry))
        (S.state store.now).hash (S.state store.now).references names list.old.items
        → OnOk result (AreFound (prefix_of (option_copied space.entry)) (S.state store.now).hash
        (S.state store.now).references (names ++ name.now ∷ []) list.new.items) }
    ensures fault { IfFault result (IsUnreadable (S.state store.now)
        (part.Name (stored_name (prefix_of (option_copied space.entry)) name.now))) }
{
    let Some(reference) = reference_at(alloc, store, space, name)? else {
        return Ok(());
    };
    list.push(reference)?;
    Ok(())
}

/// The references of these names, as they are shown.
fn read_names<S: Store>(
    alloc: Global,
    store: &S,
    space: Option<&Namespace>,
    names: &[FullName],
) -> Result<Vec<Reference>, StoreError>
    ensures found { IfOk result (λ list. AreFound (prefix_of (option_copied space.entry))
        (S.state store.now).hash (S.state store.now).references names.now list.items) }
    ensures fault { IfFault result (λ fault. (name : List ℕ) × Contains names.now name
        × IsUnreadable (S.state store.now)
        (part.Name (stored_name (prefix_of (option_copied space.entry)) name)) fault) }
{
    let mut list = Vec::with_capacity(alloc, names.len())?;
    for name in names {
        keep_found(alloc, store, space, name, &mut list)?;
    }
    Ok(list)
}

/// What of a refused listing or look-up is the store's. They are refused for nothing else.
pub(crate) fn store_error(error: RefError) -> StoreError
    ensures { result ≡ store_error error }
{
    match error {
        RefError::Store { what } => StoreError::Fault { what },
        _ => StoreError::NoMemory,
    }
}

/// The names of the references that begin with the prefix, as they are shown.
fn list_names<S: Store>(
    alloc: Global,
    store: &S,
    space: Option<&Namespace>,
    prefix: &[u8],
) -> Result<Names, StoreError>
    ensures ok { IfOk result (λ names. IfSome (S.state store.now).references (λ refs.
        IsListing (prefix_of (option_copied space.entry)) prefix.now refs.targets names)) }
    ensures listing { IfOk result (listing.IsListing prefix.now) }
    ensures fault { IfFault result (IsUnreadable (S.state store.now) part.Listing) }
{
    match iterate(alloc, store, space, prefix) {
        Ok(names) => Ok(names),
        Err(error) => Err(store_error(error)),
    }
}

/// The references whose names begin with the prefix, as they are shown.
pub(super) fn read_references<S: Store>(
    alloc: Global,
    repo: &Repository<S>,
    prefix: &[u8],
) -> Result<ReferenceList, StoreError>
    ensures kinds { IfOk result (λ list. AllByRecursion
        (λ (reference : Reference). IsTargetOfKind (S.state (store_of repo.now)).hash reference.target) list) }
    ensures ok { IfOk result (λ list. IfSome (S.state (store_of repo.now)).references (λ refs.
        AreReferences (space_of (settings_of repo.now)) prefix.now refs list)) }
    ensures listing { IfOk result (λ list. listing.IsListing prefix.now (names_of list)) }
    ensures fault { IfFault result (λ fault. IsUnreadable (S.state (store_of repo.now)) fault fault
        × ReadsListing (space_of (settings_of repo.now)) prefix.now (S.state (store_of repo.now)).references fault) }
{
    let space = namespace_of(&repo.settings);
    let names = list_names(alloc, &repo.store, space, prefix)?;
    let list = read_names(alloc, &repo.store, space, names.as_slice())?;
    Ok(ReferenceList::from_vec(list))
}

/// Whether the name is of no directory.
fn is_pseudo(name: &FullName) -> bool
    ensures { result ≡ is_pseudo name.now }
{
    name.as_slice().iter().all(|byte| *byte != b'/')
}

/// Those of the names that are of no directory.
fn pseudo_names(names: Names) -> Names
    ensures { result ≡ filter is_pseudo names }
{
    let mut kept = names.into_vec();
    kept.retain(|name| is_pseudo(name));
    Names::from_vec(kept)
}

/// The references whose names are of no directory, as they are shown.
pub(super) fn read_pseudo<S: Store>(
    alloc: Global,
    repo: &Repository<S>,
) -> Result<ReferenceList, StoreError>
    ensures kinds { IfOk result (λ list. AllByRecursion
        (λ (reference : Reference). IsTargetOfKind (S.state (store_of repo.now)).hash reference.target) list) }
    ensures ok { IfOk result (λ list. IfSome (S.state (store_of repo.now)).references (λ refs.
        ArePseudo (space_of (settings_of repo.now)) refs list)) }
    ensures fault { IfFault result (λ fault. IsUnreadable (S.state (store_of repo.now)) fault fault
        × ReadsPseudo (space_of (settings_of repo.now)) (S.state (store_of repo.now)).references fault) }
{
    let space = namespace_of(&repo.settings);
    let names = pseudo_names(list_names(alloc, &repo.store, space, b"")?);
    let list = read_names(alloc, &repo.store, space, names.as_slice())?;
    Ok(ReferenceList::from_vec(list))
}
