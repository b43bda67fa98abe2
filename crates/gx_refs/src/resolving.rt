//! The chain of a reference: the names that its symbolic targets lead through.

ghost use Rattle.std.specs.Prelude.{◌≡◌, ◌++◌, ◌∷◌, [], ℕ, List, IfOk, IfErr, IfSome};
ghost use Rattle.gx_store.specs.Kinds.{IsTargetOfKind};
ghost use Rattle.gx_refs.specs.Chain.{IsChain, IsEnd, EndsIn, ChainCauses};

use crate::ChainError;
use gx_rules::FullName;
use gx_store::{Names, References, Target};
use std::alloc::Global;

/// A chain has no more names: five symbolic steps lead to the sixth.
const MAX_NAMES: usize = 6;

/// Where a reference leads.
#[derive(Debug, Drop)]
pub struct Chain {
    /// From the given name to the end.
    pub names: Names,
    /// What the end names, if it is there. It is no symbolic reference.
    pub target: Option<Target>,
}

/// Follows symbolic references from a name to the first that is absent or names an object.
///
/// ```
/// let head = FullName::new(alloc, b"HEAD")?;
/// let chain = resolve(alloc, &store, &head)?;
/// ```
pub fn resolve<S: References>(
    alloc: Global,
    store: &S,
    name: &FullName,
) -> Result<Chain, ChainError>
    ensures ends { IfOk result (λ chain. IfSome (S.state store.now).references (λ refs.
        (end : List ℕ) × EndsIn refs.targets name.now chain.names end chain.target)) }
    ensures names { IfOk result (λ chain. IsChain name.now chain.names) }
    ensures end { IfOk result (λ chain. IsEnd chain.target) }
    ensures kind { IfOk result (λ chain. IfSome chain.target (IsTargetOfKind (S.state store.now).hash)) }
    ensures causes { IfErr result (ChainCauses (S.state store.now) name.now) }
{
    let mut names = Vec::new(alloc);
    let mut current = name.try_clone()?;
    loop {
        let target = store.find(alloc, &current)?;
        names.push(current)?;
        let Some(Target::Symbolic(next)) = target else {
            let names = Names::from_vec(names);
            return Ok(Chain { names, target });
        };
        if names.contains(&next) {
            let name = name.try_clone()?;
            return Err(ChainError::Cycle { name });
        }
        if names.len() == MAX_NAMES {
            let name = name.try_clone()?;
            return Err(ChainError::DepthLimitExceeded { name });
        }
        current = next;
    }
}
