ghost use Rattle.std.specs.Prelude.{◌≡◌, IfOk, option_copied};
ghost use Rattle.gx_refs.specs.Edits.{terms_of};

use crate::WriteReflog;
use crate::shown::Space;
use gx_hash::NoMemory;
use gx_object::Signature;
use gx_rules::Namespace;

/// What edits are made under.
#[derive(Debug, Drop)]
pub struct Terms {
    /// The namespace that names are given in.
    pub space: Space,
    pub mode: WriteReflog,
    /// Who writes to logs.
    pub committer: Option<Signature>,
}

pub(crate) fn terms_of(
    space: Option<&Namespace>,
    mode: WriteReflog,
    committer: Option<&Signature>,
) -> Result<Terms, NoMemory>
    ensures { IfOk result (λ terms. terms ≡ terms_of (option_copied space.entry) mode (option_copied committer.entry)) }
{
    let committer = match committer {
        Some(who) => Some(who.try_clone()?),
        None => None,
    };
    Ok(Terms {
        space: Space::of(space)?,
        mode,
        committer,
    })
}
