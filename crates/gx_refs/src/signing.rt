//! Who signs the lines of logs.
ghost use Rattle.std.specs.Prelude.{◌≡◌, true, Some, IfOk, IfErr, IfSome, IfNone};
ghost use Rattle.gx_object.specs.Identity.{is_writable_identity, is_writable_text};
ghost use Rattle.gx_refs.specs.EditCauses.{BreaksAt, CannotSign};

use crate::{RefError, Terms};
use gx_object::{Field, Signature};

/// Who signs a line.
pub(crate) fn signer(terms: &Terms) -> Result<&Signature, RefError>
    ensures ok { IfOk result (λ who. (terms.now.committer ≡ Some who.now) × (is_writable_identity who.now ≡ true)) }
    ensures causes { IfErr result (CannotSign terms.now.committer) }
{
    let Some(who) = &terms.committer else {
        return Err(RefError::MissingCommitter);
    };
    match unwritable_part(who) {
        None => Ok(who),
        Some(field) => Err(RefError::Unwritable { field }),
    }
}

/// The first part of a committer that can't be written.
fn unwritable_part(who: &Signature) -> Option<Field>
    ensures none { IfNone result (is_writable_identity who.now ≡ true) }
    ensures some { IfSome result (BreaksAt (Some who.now)) }
{
    if !is_writable_text(who.name.as_slice()) {
        return Some(Field::CommitterName);
    }
    if !is_writable_text(who.email.as_slice()) {
        return Some(Field::CommitterEmail);
    }
    if who.time.offset.unsigned_abs() >= 360_000 {
        return Some(Field::CommitterOffset);
    }
    None
}

fn is_writable_text(text: &[u8]) -> bool
    ensures { result ≡ is_writable_text text.now }
{
    text.iter()
        .all(|b| !(*b == b'<') && !(*b == b'>') && !(*b == b'\n'))
}
