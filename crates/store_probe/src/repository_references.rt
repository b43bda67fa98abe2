//! Steps of `run` rows on the references of the repository.
//!
//! - `meant NAME` finds what a part of a name means, and answers its name and target, or `none`; `existing NAME`
//!   refuses a name that means nothing. `pseudo` lists names without a slash, `prefixed PREFIX` those that begin so.
//! - `first NAME` and `last NAME` find a reference, and answer its log from that end, or `none`; `logged NAME` whether
//!   it has one.
//! - `name NAME ID EXPECTED MESSAGE` lets a name itself name an id, and answers the reference. What is expected is
//!   written as in an `edit`.
//! - `retarget NAME ID MESSAGE` finds a reference and sets it to another id, `remove NAME` finds and deletes it. Both
//!   answer the reference that is held then. `stale NAME ID ID MESSAGE` sets what was found to the first id, and then
//!   the same that was found to the second, with ` ; ` between both answers.
//! - `message OPERATION MESSAGE NUMBER` is what a log says of an operation with so many parents.

use crate::faults::{
    iter_error, push_target, reference_error, reference_find_error, set_target_error, store_error,
};
use crate::reference_edits::{expected_in, partial_in};
use crate::references::{told_lines, told_names};
use crate::store::push_answer;
use crate::values::{id_in, name_in, word_in};
use gix::Repository;
use gix::reference::iter::{IterError, ReferenceList};
use gix::reference::{ReferenceExt, log};
use gx_hash::ObjectId;
use gx_refs::Reference;
use gx_store::{Lines, Memory, Names, StoreError};
use probe_rows::ProbeError;
use probe_rows::answers::{id_of, number_of, push_field, quoted, truth, word};
use std::alloc::Global;

/// The answer of a step on references.
pub fn answer(
    alloc: Global,
    repo: &mut Repository<Memory>,
    step: &[Vec<u8>],
) -> Result<Vec<u8>, ProbeError> {
    let Some((call, fields)) = step.split_first() else {
        return Err(ProbeError::BadLine);
    };
    let call = word_in(call)?;
    match read_by(alloc, repo, call, fields) {
        Err(ProbeError::UnknownCall) => change_by(alloc, repo, call, fields),
        found => found,
    }
}

fn read_by(
    alloc: Global,
    repo: &Repository<Memory>,
    call: &str,
    fields: &[Vec<u8>],
) -> Result<Vec<u8>, ProbeError> {
    match (call, fields) {
        ("meant", [name]) => meant(alloc, repo, name),
        ("existing", [name]) => existing(alloc, repo, name),
        ("pseudo", []) => listed(alloc, repo.references().pseudo(alloc)),
        ("prefixed", [prefix]) => listed(alloc, repo.references().prefixed(alloc, prefix)),
        ("first", [name]) => first(alloc, repo, name),
        ("last", [name]) => last(alloc, repo, name),
        ("logged", [name]) => logged(alloc, repo, name),
        ("message", [operation, text, number]) => message(alloc, operation, text, number),
        _ => Err(ProbeError::UnknownCall),
    }
}

fn change_by(
    alloc: Global,
    repo: &mut Repository<Memory>,
    call: &str,
    fields: &[Vec<u8>],
) -> Result<Vec<u8>, ProbeError> {
    match (call, fields) {
        ("name", [name, id, expected, text]) => make(alloc, repo, name, id, expected, text),
        ("retarget", [name, id, text]) => retarget(alloc, repo, name, &[id_in(id)?], text),
        ("stale", [name, one, other, text]) => {
            retarget(alloc, repo, name, &[id_in(one)?, id_in(other)?], text)
        }
        ("remove", [name]) => remove(alloc, repo, name),
        _ => Err(ProbeError::UnknownCall),
    }
}

// ---- what is read

fn told(alloc: Global, reference: &Reference) -> Result<Vec<u8>, ProbeError> {
    let mut answer = Vec::new(alloc);
    push_field(&mut answer, reference.name.as_slice())?;
    push_target(&mut answer, &reference.target)?;
    Ok(answer)
}

fn meant(alloc: Global, repo: &Repository<Memory>, name: &[u8]) -> Result<Vec<u8>, ProbeError> {
    match repo.try_find_reference(alloc, &partial_in(alloc, name)?) {
        Ok(Some(found)) => told(alloc, &found.detach()),
        Ok(None) => word(alloc, "none"),
        Err(error) => store_error(alloc, &error),
    }
}

fn existing(alloc: Global, repo: &Repository<Memory>, name: &[u8]) -> Result<Vec<u8>, ProbeError> {
    match repo.find_reference(alloc, &partial_in(alloc, name)?) {
        Ok(found) => told(alloc, &found.try_clone()?.inner),
        Err(error) => reference_find_error(alloc, &error),
    }
}

fn listed(alloc: Global, list: Result<ReferenceList, IterError>) -> Result<Vec<u8>, ProbeError> {
    let list = match list {
        Ok(list) => list,
        Err(error) => return iter_error(alloc, &error),
    };
    let mut names = Vec::new(alloc);
    for reference in list.as_slice() {
        names.push(reference.name.try_clone()?)?;
    }
    told_names(alloc, &Names::from_vec(names))
}

fn told_log(alloc: Global, log: Result<Option<Lines>, StoreError>) -> Result<Vec<u8>, ProbeError> {
    match log {
        Ok(Some(lines)) => told_lines(alloc, &lines),
        Ok(None) => word(alloc, "none"),
        Err(error) => store_error(alloc, &error),
    }
}

fn first(alloc: Global, repo: &Repository<Memory>, name: &[u8]) -> Result<Vec<u8>, ProbeError> {
    match repo.find_reference(alloc, &partial_in(alloc, name)?) {
        Ok(found) => told_log(alloc, found.log_iter().all(alloc)),
        Err(error) => reference_find_error(alloc, &error),
    }
}

fn last(alloc: Global, repo: &Repository<Memory>, name: &[u8]) -> Result<Vec<u8>, ProbeError> {
    match repo.find_reference(alloc, &partial_in(alloc, name)?) {
        Ok(found) => told_log(alloc, found.log_iter().rev(alloc)),
        Err(error) => reference_find_error(alloc, &error),
    }
}

fn logged(alloc: Global, repo: &Repository<Memory>, name: &[u8]) -> Result<Vec<u8>, ProbeError> {
    match repo.find_reference(alloc, &partial_in(alloc, name)?) {
        Ok(found) => match found.log_exists(alloc) {
            Ok(there) => truth(alloc, there),
            Err(error) => store_error(alloc, &error),
        },
        Err(error) => reference_find_error(alloc, &error),
    }
}

fn message(
    alloc: Global,
    operation: &[u8],
    text: &[u8],
    number: &[u8],
) -> Result<Vec<u8>, ProbeError> {
    let Some(number) = number_of(number) else {
        return Err(ProbeError::BadLine);
    };
    let Ok(number) = usize::try_from(number) else {
        return Err(ProbeError::BadLine);
    };
    let text = log::message(alloc, operation, text, number)?;
    quoted(alloc, text.as_slice())
}

// ---- what is changed

fn make(
    alloc: Global,
    repo: &mut Repository<Memory>,
    name: &[u8],
    id: &[u8],
    expected: &[u8],
    text: &[u8],
) -> Result<Vec<u8>, ProbeError> {
    let hash = repo.object_hash();
    let name = name_in(alloc, name)?;
    let expected = expected_in(alloc, hash, expected)?;
    match id_of(id) {
        Some(id) if id.kind() == hash => match repo.reference(alloc, &name, id, expected, text) {
            Ok(reference) => told(alloc, &reference),
            Err(error) => reference_error(alloc, &error),
        },
        _ => Err(ProbeError::BadLine),
    }
}

/// Finds a reference, and sets what was found to each of the ids.
fn retarget(
    alloc: Global,
    repo: &mut Repository<Memory>,
    name: &[u8],
    ids: &[ObjectId],
    text: &[u8],
) -> Result<Vec<u8>, ProbeError> {
    let mut answer = Vec::new(alloc);
    let found = match repo.find_reference(alloc, &partial_in(alloc, name)?) {
        Ok(found) => found.detach(),
        Err(error) => return reference_find_error(alloc, &error),
    };
    for id in ids {
        let held = Reference {
            name: found.name.try_clone()?,
            target: found.target.try_clone()?,
            peeled: found.peeled,
        };
        push_answer(&mut answer, &set(alloc, repo, held, *id, text)?)?;
    }
    Ok(answer)
}

/// Sets a reference to an id, and answers what it holds then.
fn set(
    alloc: Global,
    repo: &mut Repository<Memory>,
    mut held: Reference,
    id: ObjectId,
    text: &[u8],
) -> Result<Vec<u8>, ProbeError> {
    if id.kind() != repo.object_hash() {
        return Err(ProbeError::BadLine);
    }
    match held.set_target_id(alloc, repo, id, text) {
        Ok(()) => told(alloc, &held),
        Err(error) => set_target_error(alloc, &error),
    }
}

fn remove(
    alloc: Global,
    repo: &mut Repository<Memory>,
    name: &[u8],
) -> Result<Vec<u8>, ProbeError> {
    let found = match repo.find_reference(alloc, &partial_in(alloc, name)?) {
        Ok(found) => found.detach(),
        Err(error) => return reference_find_error(alloc, &error),
    };
    match found.delete(alloc, repo) {
        Ok(()) => told(alloc, &found),
        Err(error) => reference_error(alloc, &error),
    }
}
