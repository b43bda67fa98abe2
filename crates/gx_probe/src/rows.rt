//! The subjects of rows.

use crate::{actors, commits, components, identities, ids, names, prefixes, tags, trees};
use probe_rows::{Answer, ProbeError};
use std::alloc::Global;

/// The libraries whose calls rows make here.
pub struct Libraries;

impl Answer for Libraries {
    /// The answer of the first subject that knows the call.
    fn answer(&self, alloc: Global, call: &str, fields: &[Vec<u8>]) -> Result<Vec<u8>, ProbeError> {
        match on_names(alloc, call, fields) {
            Err(ProbeError::UnknownCall) => on_objects(alloc, call, fields),
            found => found,
        }
    }
}

fn on_names(alloc: Global, call: &str, fields: &[Vec<u8>]) -> Result<Vec<u8>, ProbeError> {
    match ids::answer(alloc, call, fields) {
        Err(ProbeError::UnknownCall) => {}
        found => return found,
    }
    match prefixes::answer(alloc, call, fields) {
        Err(ProbeError::UnknownCall) => {}
        found => return found,
    }
    match names::answer(alloc, call, fields) {
        Err(ProbeError::UnknownCall) => components::answer(alloc, call, fields),
        found => found,
    }
}

fn on_objects(alloc: Global, call: &str, fields: &[Vec<u8>]) -> Result<Vec<u8>, ProbeError> {
    match identities::answer(alloc, call, fields) {
        Err(ProbeError::UnknownCall) => {}
        found => return found,
    }
    match trees::answer(alloc, call, fields) {
        Err(ProbeError::UnknownCall) => {}
        found => return found,
    }
    match commits::answer(alloc, call, fields) {
        Err(ProbeError::UnknownCall) => {}
        found => return found,
    }
    match tags::answer(alloc, call, fields) {
        Err(ProbeError::UnknownCall) => actors::answer(alloc, call, fields),
        found => found,
    }
}
