//! Names under a namespace.
ghost use Rattle.std.specs.Prelude.{◌≡◌, ℕ, List, IfOk, IfSome, IfNone, option_copied};
ghost use Rattle.gx_hash.specs.declared.kind.HashKind.{HashKind};
ghost use Rattle.gx_rules.specs.Namespace.{IsWithin};
ghost use Rattle.gx_store.specs.Kinds.{IsTargetOfKind};
ghost use Rattle.gx_refs.specs.Shown.{prefix_of, stored_name, stored_target, IsShown, IsShownTarget, IsShownFound};

use gx_hash::NoMemory;
use gx_rules::{FullName, Namespace};
use gx_store::Target;
use std::alloc::Global;
use std::marker::Model;

/// The namespace that names are given in, or none.
#[derive(Debug, Drop)]
pub struct Space {
    namespace: Option<Namespace>,
}

impl Model for Space {
    ghost use Rattle.std.specs.Prelude.{List, ℕ};
    ghost use Rattle.gx_refs.specs.Shown.{prefix_of};

    ghost Value = { List ℕ };

    ghost view = { λ space. prefix_of space.namespace };
}

impl Space {
    pub(crate) fn of(namespace: Option<&Namespace>) -> Result<Space, NoMemory>
        ensures { IfOk result (λ space. space ≡ prefix_of (option_copied namespace.entry)) }
    {
        let namespace = match namespace {
            Some(namespace) => Some(namespace.try_clone()?),
            None => None,
        };
        Ok(Space { namespace })
    }

    /// The prefix of the names that are stored. Without a namespace it has no bytes.
    pub fn prefix(&self) -> &[u8]
        ensures { result.now ≡ self.now }
    {
        match &self.namespace {
            Some(namespace) => namespace.as_slice(),
            None => &[],
        }
    }

    /// A given name as it is stored.
    pub(crate) fn stored(&self, name: &FullName) -> Result<FullName, NoMemory>
        ensures { IfOk result (λ full. full ≡ stored_name self.now name.now) }
    {
        match &self.namespace {
            Some(namespace) => namespace.full_name(name),
            None => name.try_clone(),
        }
    }

    /// A given target as it is stored.
    pub(crate) fn stored_target(&self, given: &Target) -> Result<Target, NoMemory>
        ensures { IfOk result (λ full. full ≡ stored_target self.now given.now) }
    {
        match given {
            Target::Object(id) => Ok(Target::Object(*id)),
            Target::Symbolic(name) => Ok(Target::Symbolic(self.stored(name)?)),
        }
    }
}

/// The name in the namespace of a reference that is stored under that name, if it has one.
pub(crate) fn within(
    alloc: Global,
    space: &Space,
    name: &FullName,
) -> Result<Option<FullName>, NoMemory>
    ensures some { IfOk result (λ found. IfSome found (IsWithin space.now name.now)) }
    ensures none { IfOk result (λ found. IfNone found ((rest : List ℕ) → ¬ IsWithin space.now name.now rest)) }
{
    match &space.namespace {
        Some(namespace) => namespace.strip(alloc, name),
        None => Ok(Some(name.try_clone()?)),
    }
}

/// A stored name as it is shown.
pub(crate) fn shown(alloc: Global, space: &Space, name: &FullName) -> Result<FullName, NoMemory>
    ensures { IfOk result (IsShown space.now name.now) }
{
    match within(alloc, space, name)? {
        Some(short) => Ok(short),
        None => name.try_clone(),
    }
}

/// A stored target as it is shown.
pub(crate) fn shown_target(
    alloc: Global,
    space: &Space,
    target: &Target,
) -> Result<Target, NoMemory>
    ensures shown { IfOk result (IsShownTarget space.now target.now) }
    ensures kind { (hash : HashKind) → IsTargetOfKind hash target.now → IfOk result (IsTargetOfKind hash) }
{
    match target {
        Target::Object(id) => Ok(Target::Object(*id)),
        Target::Symbolic(name) => Ok(Target::Symbolic(shown(alloc, space, name)?)),
    }
}

/// What was found at a name, as it is shown.
pub(crate) fn shown_found(
    alloc: Global,
    space: &Space,
    found: &Option<Target>,
) -> Result<Option<Target>, NoMemory>
    ensures { IfOk result (IsShownFound space.now found.now) }
{
    match found {
        None => Ok(None),
        Some(target) => Ok(Some(shown_target(alloc, space, target)?)),
    }
}
