//! Who signs the lines of logs that edits of rows write.

use crate::logs::signature;
use crate::values::word_in;
use gx_object::Signature;
use probe_rows::ProbeError;
use std::alloc::Global;

/// The committer that a field names, if it names one.
pub fn committer_in(alloc: Global, field: &[u8]) -> Result<Option<Signature>, ProbeError> {
    match word_in(field)? {
        "none" => Ok(None),
        "someone" => someone(alloc, b"A", b"a@x", b"0"),
        "bad-name" => someone(alloc, b"A<B", b"a@x", b"0"),
        "bad-email" => someone(alloc, b"A", b"a\n@x", b"0"),
        "bad-offset" => someone(alloc, b"A", b"a@x", b"360000"),
        _ => Err(ProbeError::BadLine),
    }
}

fn someone(
    alloc: Global,
    name: &[u8],
    email: &[u8],
    offset: &[u8],
) -> Result<Option<Signature>, ProbeError> {
    let who = signature(alloc, name, email, b"1", offset)?;
    Ok(Some(who))
}
