//! Identities as objects contain them.
ghost use Rattle.std.specs.Prelude.{◌≡◌, ◌↔◌, MatchOption, MatchResult, IfOk, IsErrOf};
ghost use Rattle.bstr.specs.BStr.{bstr_bytes};
ghost use Rattle.gx_object.specs.declared.signature.Time.{Time};
ghost use Rattle.gx_object.specs.declared.signature.decode.SignatureError.TheVariants.{BadTime as bad_time, NoMemory as no_memory};
ghost use Rattle.gx_object.specs.IdentitySpelling.{IdentityText, identity_text, trimmed, SpellsIdentity, DropsSpaceBehind, DropsSpaceInFront};
ghost use Rattle.gx_object.specs.TimeSpelling.{SpellsTime, BeginsWithSeconds};

use super::date::{leading_seconds, read_time};
use crate::message::{trim_end, trim_start};
use crate::{Signature, Time};
use bstr::BStr;
use gx_hash::{Bytes, NoMemory};
use memchr::{memchr, memrchr};
use std::alloc::Global;
use thiserror::Error;

/// A text is no time of an identity.
#[derive(Clone, Copy, Debug, PartialEq, Eq, Error)]
#[error("the time can't be read")]
pub struct BadTime;

/// Why an identity was not taken over from the text of an object.
#[derive(Clone, Copy, Debug, PartialEq, Eq, Error)]
pub enum SignatureError {
    #[error("the time can't be read")]
    BadTime,
    #[error("out of memory")]
    NoMemory,
}

impl From<BadTime> for SignatureError {
    ghost from_gives = { λ _ e. e ≡ bad_time };

    fn from(_: BadTime) -> SignatureError {
        SignatureError::BadTime
    }
}

impl From<NoMemory> for SignatureError {
    ghost from_gives = { λ _ e. e ≡ no_memory };

    fn from(_: NoMemory) -> SignatureError {
        SignatureError::NoMemory
    }
}

/// Who did something, and when, in the texts that an object has. All are slices of it.
#[derive(Clone, Copy, Debug)]
pub struct SignatureRef<'a> {
    pub name: BStr<'a>,
    pub email: BStr<'a>,
    /// The text of the time, which may be no time: `time` reads it.
    pub time: BStr<'a>,
}

impl<'a> SignatureRef<'a> {
    /// The parts of an identity's text, as a line of a log has it: all that is between the words around it. The time is
    /// not read.
    pub fn from_bytes(text: &'a [u8]) -> Option<SignatureRef<'a>>
        ensures { MatchOption result ((who : IdentityText)
            → ¬ SpellsIdentity text.now who) (λ who. SpellsIdentity text.now (identity_text who)) }
    {
        split_identity(text)
    }

    /// The same without white space at the ends of the name and the email.
    pub fn trim(&self) -> SignatureRef<'a>
        ensures { identity_text result ≡ trimmed (identity_text self.now) }
    {
        SignatureRef {
            name: BStr::new(trim_end(trim_start(self.name.as_bytes()))),
            email: BStr::new(trim_end(trim_start(self.email.as_bytes()))),
            time: self.time,
        }
    }

    /// The seconds since the Unix epoch that the time begins with, or 0.
    pub fn seconds(&self) -> i64
        ensures { BeginsWithSeconds (bstr_bytes self.now.time) result }
    {
        leading_seconds(self.time.as_bytes()).unwrap_or(0)
    }

    /// The time, where the text is one, and nothing else.
    pub fn time(&self) -> Result<Time, BadTime>
        ensures { MatchResult result (SpellsTime (bstr_bytes self.now.time)) (λ _. (time : Time)
            → ¬ SpellsTime (bstr_bytes self.now.time) time) }
    {
        read_time(self.time.as_bytes()).ok_or(BadTime)
    }

    /// A copy that owns its texts. The time is read first.
    pub fn to_owned(&self, alloc: Global) -> Result<Signature, SignatureError>
        ensures name { IfOk result (λ owned. owned.name ≡ bstr_bytes self.now.name) }
        ensures email { IfOk result (λ owned. owned.email ≡ bstr_bytes self.now.email) }
        ensures time { IfOk result (λ owned. SpellsTime (bstr_bytes self.now.time) owned.time) }
        ensures causes { IsErrOf result SignatureError.BadTime
            ↔ ((time : Time) → ¬ SpellsTime (bstr_bytes self.now.time) time) }
    {
        let time = self.time()?;
        Ok(Signature {
            name: Bytes::from_slice(alloc, self.name.as_bytes())?,
            email: Bytes::from_slice(alloc, self.email.as_bytes())?,
            time,
        })
    }
}

/// The parts of an identity's line, without the word in front and the newline at its end.
pub(crate) fn split_identity(line: &[u8]) -> Option<SignatureRef<'_>>
    ensures { MatchOption result ((who : IdentityText)
        → ¬ SpellsIdentity line.now who) (λ who. SpellsIdentity line.now (identity_text who)) }
{
    let close = memrchr(b'>', line)?;
    let open = memchr(b'<', line.split_at(close).0)?;
    let (before, rest) = line.split_at(open);
    let email = rest.split_at(close - open).0.split_at(1).1;
    let behind = line.split_at(close + 1).1;
    Some(SignatureRef {
        name: BStr::new(without_space_behind(before)),
        email: BStr::new(email),
        time: BStr::new(without_space_in_front(behind)),
    })
}

fn without_space_behind(text: &[u8]) -> &[u8]
    ensures { DropsSpaceBehind text.now result.now }
{
    text.strip_suffix(b" ".as_slice()).unwrap_or(text)
}

fn without_space_in_front(text: &[u8]) -> &[u8]
    ensures { DropsSpaceInFront text.now result.now }
{
    text.strip_prefix(b" ".as_slice()).unwrap_or(text)
}
