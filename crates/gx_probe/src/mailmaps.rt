//! Mailmaps that are asked about many identities.

use crate::actors::{merge, resolved};
use crate::fields::split_once;
use gx_actor::Snapshot;
use probe_rows::ProbeError;
use probe_rows::answers::size_of;
use std::alloc::Global;

/// Reads the size of a mailmap in decimal and a newline, the mailmap, and lines `Name <email>`. Each of these is
/// written again with the name and the email that the mailmap gives for it.
pub fn resolve(alloc: Global, input: &[u8]) -> Result<Vec<u8>, ProbeError> {
    let (mailmap, lines) = split_input(input).ok_or(ProbeError::BadLine)?;
    let mut snapshot = Snapshot::new(alloc);
    merge(alloc, &mut snapshot, mailmap)?;
    let mut output = Vec::new(alloc);
    push_all(&mut output, &snapshot, lines)?;
    Ok(output)
}

fn push_all(output: &mut Vec<u8>, snapshot: &Snapshot, lines: &[u8]) -> Result<(), ProbeError> {
    for line in lines
        .strip_suffix(b"\n")
        .unwrap_or(lines)
        .split(|byte| *byte == b'\n')
    {
        push_resolved(output, snapshot, line)?;
    }
    Ok(())
}

/// The mailmap, and the lines that follow it.
fn split_input(input: &[u8]) -> Option<(&[u8], &[u8])> {
    let (digits, rest) = split_once(input, b'\n')?;
    let size = size_of(digits)?;
    rest.split_at_checked(size)
}

fn push_resolved(output: &mut Vec<u8>, snapshot: &Snapshot, line: &[u8]) -> Result<(), ProbeError> {
    let (name, email) = split_identity(line).ok_or(ProbeError::BadLine)?;
    let found = resolved(snapshot, name, email);
    output.extend_from_slice(found.name.as_bytes())?;
    if !found.name.as_bytes().is_empty() {
        output.push(b' ')?;
    }
    output.push(b'<')?;
    output.extend_from_slice(found.email.as_bytes())?;
    output.extend_from_slice(b">\n")?;
    Ok(())
}

/// The name and the email of a line `Name <email>`.
fn split_identity(line: &[u8]) -> Option<(&[u8], &[u8])> {
    let (name, rest) = split_once(line, b'<')?;
    let email = rest.strip_suffix(b">")?;
    Some((name.strip_suffix(b" ").unwrap_or(name), email))
}
