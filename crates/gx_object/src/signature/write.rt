//! The bytes that spell identities, and which of them can be written.
ghost use Rattle.std.specs.Prelude.{◌≡◌, ◌++◌, true, false, OnOk, OnErr, IfSome, IfNone};
ghost use Rattle.std.specs.Io.{StartsWith};
ghost use Rattle.gx_object.specs.Field.{first_unwritable};
ghost use Rattle.gx_object.specs.Identity.{two_digits, offset_bytes, time_bytes, identity_bytes, is_writable_text, is_writable_offset, is_writable_identity, are_writable};

use crate::{Field, Signature, Time};
use gx_hash::NoMemory;
use itoa::Buffer;
use std::alloc::AllocError;

/// Appends the identity as objects and logs write it.
#[tactic(auto, unfolding(crate::specs::Identity::identity_bytes))]
pub fn push_identity(out: &mut Vec<u8>, who: &Signature) -> Result<(), NoMemory>
    ensures ok { OnOk result (out.new.items ≡ out.old.items ++ identity_bytes who.now) }
    ensures leaves { OnErr result (StartsWith out.new.items out.old.items) }
{
    out.extend_from_slice(who.name.as_slice())?;
    out.extend_from_slice(b" <")?;
    out.extend_from_slice(who.email.as_slice())?;
    out.extend_from_slice(b"> ")?;
    push_time(out, who.time)?;
    Ok(())
}

fn push_time(out: &mut Vec<u8>, time: Time) -> Result<(), AllocError>
    ensures ok { OnOk result (out.new.items ≡ out.old.items ++ time_bytes time) }
    ensures leaves { OnErr result (StartsWith out.new.items out.old.items) }
{
    out.extend_from_slice(Buffer::new().format(time.seconds).as_bytes())?;
    out.push(b' ')?;
    push_offset(out, time.offset)?;
    Ok(())
}

#[tactic(auto, unfolding(crate::specs::Identity::offset_bytes))]
fn push_offset(out: &mut Vec<u8>, offset: i32) -> Result<(), AllocError>
    ensures ok { OnOk result (out.new.items ≡ out.old.items ++ offset_bytes offset) }
    ensures leaves { OnErr result (StartsWith out.new.items out.old.items) }
{
    let size = offset.unsigned_abs();
    out.push(if offset < 0 { b'-' } else { b'+' })?;
    push_two_digits(out, size / 3600)?;
    push_two_digits(out, size / 60 % 60)?;
    Ok(())
}

fn push_two_digits(out: &mut Vec<u8>, number: u32) -> Result<(), AllocError>
    ensures ok { OnOk result (out.new.items ≡ out.old.items ++ two_digits number) }
    ensures leaves { OnErr result (StartsWith out.new.items out.old.items) }
{
    if number < 10 {
        out.push(b'0')?;
    }
    out.extend_from_slice(Buffer::new().format(number).as_bytes())?;
    Ok(())
}

/// Whether the identity can be written.
pub fn is_writable_identity(who: &Signature) -> bool
    ensures { result ≡ is_writable_identity who.now }
{
    can_write_text(who.name.as_slice())
        && can_write_text(who.email.as_slice())
        && can_write_offset(who.time.offset)
}

/// The first field of the two identities that can't be written, the author's before the committer's.
pub fn unwritable_identity(author: &Signature, committer: &Signature) -> Option<Field>
    ensures first { result ≡ first_unwritable (are_writable author.now committer.now) }
    ensures found { IfSome result (λ field. are_writable author.now committer.now field ≡ false) }
    ensures none { IfNone result ((field : _) → are_writable author.now committer.now field ≡ true) }
{
    if !can_write_text(author.name.as_slice()) {
        Some(Field::AuthorName)
    } else if !can_write_text(author.email.as_slice()) {
        Some(Field::AuthorEmail)
    } else if !can_write_offset(author.time.offset) {
        Some(Field::AuthorOffset)
    } else if !can_write_text(committer.name.as_slice()) {
        Some(Field::CommitterName)
    } else if !can_write_text(committer.email.as_slice()) {
        Some(Field::CommitterEmail)
    } else if !can_write_offset(committer.time.offset) {
        Some(Field::CommitterOffset)
    } else {
        None
    }
}

pub(crate) fn can_write_text(text: &[u8]) -> bool
    ensures { result ≡ is_writable_text text.now }
{
    text.iter().all(|b| *b != b'<' && *b != b'>' && *b != b'\n')
}

pub(crate) fn can_write_offset(offset: i32) -> bool
    ensures { result ≡ is_writable_offset offset }
{
    offset.unsigned_abs() < 360_000
}
