//! An identity whose texts are lent, with its time read.
ghost use Rattle.std.specs.Prelude.{◌≡◌, IfOk};
ghost use Rattle.gx_actor.specs.Identity.{identity};

use bstr::BStr;
use gx_hash::{Bytes, NoMemory};
use gx_object::{Signature, Time};
use std::alloc::Global;

/// Who did something, and when.
#[derive(Clone, Copy, Debug)]
pub struct IdentityRef<'a> {
    pub name: BStr<'a>,
    pub email: BStr<'a>,
    pub time: Time,
}

impl<'a> IdentityRef<'a> {
    /// A copy that owns its texts.
    pub fn to_owned(&self, alloc: Global) -> Result<Signature, NoMemory>
        ensures { IfOk result (λ owned. owned ≡ identity self.now) }
    {
        Ok(Signature {
            name: Bytes::from_slice(alloc, self.name.as_bytes())?,
            email: Bytes::from_slice(alloc, self.email.as_bytes())?,
            time: self.time,
        })
    }
}
