//! Steps of `writes` rows that store commits of trees.
//! - `new_commit COMMITTER AUTHOR MESSAGE TREE PARENT ..` moves no reference.
//! - `commit COMMITTER AUTHOR NAME MESSAGE TREE PARENT ..` moves the reference of that name.
//!
//! A committer and an author are one of those that committers.rt knows.

use crate::committers::committer_in;
use crate::faults::{commit_error, new_commit_error};
use crate::values::{id_in, name_in};
use gix::Repository;
use gx_hash::ObjectId;
use gx_object::Signature;
use gx_store::Memory;
use probe_rows::ProbeError;
use probe_rows::answers::hex;
use std::alloc::Global;

/// The answer of such a step.
pub fn answer(
    alloc: Global,
    repo: &mut Repository<Memory>,
    call: &str,
    fields: &[Vec<u8>],
) -> Result<Vec<u8>, ProbeError> {
    match (call, fields) {
        ("new_commit", [committer, author, message, tree, parents @ ..]) => {
            let (committer, author) = (who(alloc, committer)?, who(alloc, author)?);
            let (tree, parents) = (id_in(tree)?, ids_in(alloc, parents)?);
            match repo.new_commit_as(alloc, &committer, &author, message, tree, &parents) {
                Ok(id) => hex(alloc, &id),
                Err(error) => new_commit_error(alloc, &error),
            }
        }
        ("commit", [committer, author, name, message, tree, parents @ ..]) => {
            let (committer, author) = (who(alloc, committer)?, who(alloc, author)?);
            let (tree, parents) = (id_in(tree)?, ids_in(alloc, parents)?);
            let name = name_in(alloc, name)?;
            match repo.commit_as(alloc, &committer, &author, &name, message, tree, &parents) {
                Ok(id) => hex(alloc, &id),
                Err(error) => commit_error(alloc, &error),
            }
        }
        _ => Err(ProbeError::UnknownCall),
    }
}

fn who(alloc: Global, field: &[u8]) -> Result<Signature, ProbeError> {
    committer_in(alloc, field)?.ok_or(ProbeError::BadLine)
}

fn ids_in(alloc: Global, fields: &[Vec<u8>]) -> Result<Vec<ObjectId>, ProbeError> {
    let mut ids = Vec::new(alloc);
    for field in fields {
        ids.push(id_in(field)?)?;
    }
    Ok(ids)
}
