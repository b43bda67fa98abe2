//! Names under the namespace of a repository.

ghost use Rattle.std.specs.Prelude.{◌≡◌, [], IfOk, option_copied};
ghost use Rattle.gx_hash.specs.declared.kind.HashKind.{HashKind};
ghost use Rattle.gx_store.specs.Kinds.{IsTargetOfKind};
ghost use Rattle.gx_refs.specs.Shown.{prefix_of, stored_name, IsShown, IsShownTarget};
ghost use Rattle.gix.specs.Space.{space_of};

use crate::Settings;
use gx_hash::NoMemory;
use gx_rules::{FullName, NameError, Namespace};
use gx_store::Target;
use std::alloc::Global;

/// The namespace in which names are given.
pub(crate) fn namespace_of(settings: &Settings) -> Option<&Namespace>
    ensures { prefix_of (option_copied result) ≡ space_of settings.now }
{
    settings.namespace.as_ref()
}

/// A given name as it is stored.
pub(crate) fn stored_name(space: Option<&Namespace>, name: &FullName) -> Result<FullName, NoMemory>
    ensures { IfOk result (λ full. full ≡ stored_name (prefix_of (option_copied space.entry)) name.now) }
{
    match space {
        None => name.try_clone(),
        Some(space) => space.full_name(name),
    }
}

/// A stored name as it is shown where there is no namespace.
fn whole_name(alloc: Global, name: &FullName) -> Result<FullName, NoMemory>
    ensures { IfOk result (IsShown [] name.now) }
{
    match FullName::new(alloc, name.as_slice()) {
        Ok(same) => Ok(same),
        Err(NameError::NoMemory) => Err(NoMemory),
        Err(_) => name.try_clone(),
    }
}

/// A stored name as it is shown in a namespace.
fn name_within(alloc: Global, space: &Namespace, name: &FullName) -> Result<FullName, NoMemory>
    ensures { IfOk result (IsShown space.now name.now) }
{
    match space.strip(alloc, name)? {
        Some(short) => Ok(short),
        None => name.try_clone(),
    }
}

/// A stored name as it is shown.
fn shown_name(
    alloc: Global,
    space: Option<&Namespace>,
    name: &FullName,
) -> Result<FullName, NoMemory>
    ensures { IfOk result (IsShown (prefix_of (option_copied space.entry)) name.now) }
{
    match space {
        None => whole_name(alloc, name),
        Some(space) => name_within(alloc, space, name),
    }
}

/// A stored target as it is shown.
pub(crate) fn shown_target(
    alloc: Global,
    space: Option<&Namespace>,
    target: &Target,
) -> Result<Target, NoMemory>
    ensures shown { IfOk result (IsShownTarget (prefix_of (option_copied space.entry)) target.now) }
    ensures kind { (hash : HashKind) → IsTargetOfKind hash target.now → IfOk result (IsTargetOfKind hash) }
{
    match target {
        Target::Object(id) => Ok(Target::Object(*id)),
        Target::Symbolic(name) => Ok(Target::Symbolic(shown_name(alloc, space, name)?)),
    }
}
