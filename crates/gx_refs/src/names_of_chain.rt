ghost use Rattle.std.specs.Prelude.{◌≡◌, IfOk, IfErr, IfSome};
ghost use Rattle.gx_refs.specs.Chain.{IsChain, Ends, ChainCauses};
ghost use Rattle.gx_refs.specs.Errors.{of_chain};
ghost use Rattle.gx_refs.specs.declared.chain_error.ChainError.{ChainError};

use crate::{RefError, resolve};
use gx_rules::FullName;
use gx_store::{Names, References};
use std::alloc::Global;

/// The names that a reference leads through, from the name itself to the first that is absent or names an object.
pub fn chain<S: References>(alloc: Global, store: &S, name: &FullName) -> Result<Names, RefError>
    ensures ends { IfOk result (λ names. IfSome (S.state store.now).references (λ refs.
        Ends refs.targets name.now names)) }
    ensures names { IfOk result (IsChain name.now) }
    ensures causes { IfErr result (λ error. (cause : ChainError) × (error ≡ of_chain cause)
        × ChainCauses (S.state store.now) name.now cause) }
{
    Ok(resolve(alloc, store, name)?.names)
}
