//! Who did something, and when.
ghost use Rattle.std.specs.Prelude.{◌≡◌, IfOk};
ghost use Rattle.gx_object.specs.Identity.{is_writable_identity};

mod date;
mod decode;
mod write;

pub(crate) use decode::split_identity;
pub use decode::{BadTime, SignatureError, SignatureRef};
use gx_hash::{Bytes, NoMemory};
pub(crate) use write::{can_write_offset, can_write_text};
pub use write::{is_writable_identity, push_identity, unwritable_identity};

/// A moment, and how far ahead of UTC the clock was that told it.
#[derive(Clone, Copy, Debug, PartialEq, Eq)]
pub struct Time {
    /// Seconds since the Unix epoch.
    pub seconds: i64,
    /// Seconds ahead of UTC.
    pub offset: i32,
}

/// Who did something, and when.
#[derive(Debug, Drop)]
pub struct Signature {
    pub name: Bytes,
    pub email: Bytes,
    pub time: Time,
}

impl Signature {
    pub fn try_clone(&self) -> Result<Signature, NoMemory>
        ensures { IfOk result (λ copy. copy ≡ self.now) }
    {
        Ok(Signature {
            name: self.name.try_clone()?,
            email: self.email.try_clone()?,
            time: self.time,
        })
    }
}
