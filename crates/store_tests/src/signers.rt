use crate::samples::only;
use gx_hash::{Bytes, NoMemory};
use gx_store::{MemorySigner, Signer, SignerError};
use std::alloc::Global;

/// Whether the signer answers the text `S`.
fn signs<S: Signer>(alloc: Global, signer: &mut S, bytes: &[u8]) -> bool {
    match signer.sign(alloc, bytes) {
        Ok(text) => text.as_slice() == b"S".as_slice(),
        Err(_) => false,
    }
}

fn fails<S: Signer>(alloc: Global, signer: &mut S) -> bool {
    match signer.sign(alloc, b"c") {
        Ok(_) => false,
        Err(error) => error == SignerError::Failed,
    }
}

/// Of three calls the second fails.
fn one_fails(alloc: Global) -> Result<bool, NoMemory> {
    let text = Bytes::from_slice(alloc, b"S")?;
    let mut signer = MemorySigner::new(alloc, text, only(alloc, 2)?);
    let is_signed = signs(alloc, &mut signer, b"ab") && signer.last() == b"ab".as_slice();
    let is_kept = fails(alloc, &mut signer) && signer.last() == b"ab".as_slice();
    let is_signed_again = signs(alloc, &mut signer, b"") && signer.last().is_empty();
    Ok(is_signed && is_kept && is_signed_again)
}

#[test]
fn a_signer_keeps_what_it_signed_last(rt: HostRuntime) {
    assert!(rt; one_fails(rt.alloc()).unwrap_or(false));
}
