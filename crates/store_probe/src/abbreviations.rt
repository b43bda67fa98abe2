//! Steps of `writes` rows that abbreviate ids.
//! - `hex_len DIGITS` chooses how many digits are wanted; `auto_hex_len COUNT` answers how many are, where none is
//!   chosen.
//! - `shorten ID` and `shorten_or_id ID` are the repository's calls.

use crate::faults::shorten_error;
use crate::store::only;
use crate::values::{id_in, number_in};
use gix::{Repository, Settings, calculate_auto_hex_len};
use gx_hash::{NoMemory, ObjectId};
use gx_store::Memory;
use probe_rows::ProbeError;
use probe_rows::answers::{shown, size_of, word};
use std::alloc::Global;

/// The answer of such a step.
pub fn answer(
    alloc: Global,
    repo: &mut Repository<Memory>,
    call: &str,
    fields: &[Vec<u8>],
) -> Result<Vec<u8>, ProbeError> {
    match call {
        "hex_len" => choose(alloc, repo, only(fields)?),
        "auto_hex_len" => shown(alloc, &calculate_auto_hex_len(number_in(only(fields)?)?)),
        "shorten" => shortened(alloc, repo, &id_in(only(fields)?)?),
        "shorten_or_id" => shortened_or_whole(alloc, repo, &id_in(only(fields)?)?),
        _ => Err(ProbeError::UnknownCall),
    }
}

fn choose(
    alloc: Global,
    repo: &mut Repository<Memory>,
    digits: &[u8],
) -> Result<Vec<u8>, ProbeError> {
    let mut settings = Settings::new();
    settings.hex_len = Some(size_of(digits).ok_or(ProbeError::BadLine)?);
    repo.set_settings(settings);
    word(alloc, "ok")
}

fn shortened(
    alloc: Global,
    repo: &Repository<Memory>,
    id: &ObjectId,
) -> Result<Vec<u8>, ProbeError> {
    match repo.shorten(alloc, id) {
        Ok(prefix) => shown(alloc, &prefix),
        Err(error) => shorten_error(alloc, &error),
    }
}

fn shortened_or_whole(
    alloc: Global,
    repo: &Repository<Memory>,
    id: &ObjectId,
) -> Result<Vec<u8>, ProbeError> {
    match repo.shorten_or_id(alloc, id) {
        Ok(prefix) => shown(alloc, &prefix),
        Err(NoMemory) => Err(ProbeError::NoMemory),
    }
}
