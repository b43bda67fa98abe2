//! Rows of the objects of a repository.
//!
//! `objects KIND STEP ; STEP ..` answers each step on a new repository in memory. `find ID` and `try_find ID` answer
//! an object by its text for debugging and its bytes, and so do `find_blob ID`, `find_tree ID`, `find_commit ID` and
//! `find_tag ID`. `into KIND ID` is the object as one of the kind, or why it is none; `convert KIND ID` the same, or
//! `back` and the object that is handed back. `detach ID` is the object without the repository, and `attach ID` that
//! one with it again. `same ID TEXT` tells whether the text is the digits of the id. `empty_tree` and `empty_blob` are
//! answered as the others. What is read of an object is in `parts`. Steps that `edit_tree` rows take on the store are
//! steps here too.

mod errors;
mod parts;

use crate::faults::{find_error, try_find_error};
use crate::store::{only, push_answer};
use crate::tree_editors::on_store;
use crate::values::{hash_in, id_in, kind_in, word_in};
use errors::{find_as_error, kind_error};
use gix::object::{FindAsError, KindError};
use gix::{Blob, Commit, Object, ObjectDetached, ObjectIdExt, Repository, Settings, Tag, Tree};
use gx_hash::ObjectId;
use gx_object::Kind;
use gx_store::Memory;
use probe_rows::ProbeError;
use probe_rows::answers::{push_field, truth, word};
use std::alloc::Global;
use std::convert::AsSlice;
use std::fmt::Debug;

/// The answer of `objects`.
pub fn answer(alloc: Global, fields: &[Vec<u8>]) -> Result<Vec<u8>, ProbeError> {
    let Some((kind, words)) = fields.split_first() else {
        return Err(ProbeError::BadLine);
    };
    let store = Memory::new(alloc, hash_in(kind)?)?;
    let mut repo = Repository::new(store, Settings::new());
    let mut answers = Vec::new(alloc);
    for step in words.split(|field| field.as_slice() == b";".as_slice()) {
        let answer = answer_object_step(alloc, &mut repo, step)?;
        push_answer(&mut answers, &answer)?;
    }
    Ok(answers)
}

fn answer_object_step(
    alloc: Global,
    repo: &mut Repository<Memory>,
    step: &[Vec<u8>],
) -> Result<Vec<u8>, ProbeError> {
    let Some((call, fields)) = step.split_first() else {
        return Err(ProbeError::BadLine);
    };
    let call = word_in(call)?;
    match find_by(alloc, repo, call, fields) {
        Err(ProbeError::UnknownCall) => {}
        found => return found,
    }
    match convert_by(alloc, repo, call, fields) {
        Err(ProbeError::UnknownCall) => {}
        found => return found,
    }
    match parts::read_by(alloc, repo, call, fields) {
        Err(ProbeError::UnknownCall) => on_store(alloc, repo, step),
        found => found,
    }
}

/// The answer of a call that finds an object.
fn find_by(
    alloc: Global,
    repo: &Repository<Memory>,
    call: &str,
    fields: &[Vec<u8>],
) -> Result<Vec<u8>, ProbeError> {
    match call {
        "find" => find(alloc, repo, id_in(only(fields)?)?),
        "try_find" => try_find(alloc, repo, id_in(only(fields)?)?),
        "find_blob" => told_as(alloc, repo.find_blob(alloc, id_in(only(fields)?)?)),
        "find_tree" => told_as(alloc, repo.find_tree(alloc, id_in(only(fields)?)?)),
        "find_commit" => told_as(alloc, repo.find_commit(alloc, id_in(only(fields)?)?)),
        "find_tag" => told_as(alloc, repo.find_tag(alloc, id_in(only(fields)?)?)),
        "empty_tree" => whole(alloc, &repo.empty_tree(alloc)),
        "empty_blob" => whole(alloc, &repo.empty_blob(alloc)),
        _ => Err(ProbeError::UnknownCall),
    }
}

fn find(alloc: Global, repo: &Repository<Memory>, id: ObjectId) -> Result<Vec<u8>, ProbeError> {
    match id.attach(repo).object(alloc) {
        Ok(object) => whole(alloc, &object),
        Err(error) => find_error(alloc, &error),
    }
}

fn try_find(alloc: Global, repo: &Repository<Memory>, id: ObjectId) -> Result<Vec<u8>, ProbeError> {
    match id.attach(repo).try_object(alloc) {
        Ok(Some(object)) => whole(alloc, &object),
        Ok(None) => word(alloc, "none"),
        Err(error) => try_find_error(alloc, &error),
    }
}

fn told_as<T: Debug + AsSlice<u8> + Drop>(
    alloc: Global,
    found: Result<T, FindAsError>,
) -> Result<Vec<u8>, ProbeError> {
    match found {
        Ok(object) => whole(alloc, &object),
        Err(error) => find_as_error(alloc, &error),
    }
}

/// The object's text for debugging, and its bytes.
fn whole<T: Debug + AsSlice<u8>>(alloc: Global, object: &T) -> Result<Vec<u8>, ProbeError> {
    let mut answer = format!(in alloc; "{object:?}")?.into_bytes();
    push_field(&mut answer, object.as_slice())?;
    Ok(answer)
}

/// The answer of a call that makes one value of another.
fn convert_by(
    alloc: Global,
    repo: &Repository<Memory>,
    call: &str,
    fields: &[Vec<u8>],
) -> Result<Vec<u8>, ProbeError> {
    match (call, fields) {
        ("into", [kind, id]) => into_kind(alloc, kind_in(kind)?, object(alloc, repo, id)?),
        ("convert", [kind, id]) => convert(alloc, kind_in(kind)?, object(alloc, repo, id)?),
        ("detach", [id]) => whole(alloc, &object(alloc, repo, id)?.detach()),
        ("attach", [id]) => attach(alloc, repo, object(alloc, repo, id)?.detach()),
        ("same", [id, text]) => truth(alloc, id_in(id)?.attach(repo).eq_text(text)),
        _ => Err(ProbeError::UnknownCall),
    }
}

/// The object at an id, which is stored.
fn object<'repo>(
    alloc: Global,
    repo: &'repo Repository<Memory>,
    id: &[u8],
) -> Result<Object<'repo, Memory>, ProbeError> {
    match repo.find_object(alloc, id_in(id)?) {
        Ok(object) => Ok(object),
        Err(_) => Err(ProbeError::BadLine),
    }
}

fn into_kind(alloc: Global, kind: Kind, object: Object<'_, Memory>) -> Result<Vec<u8>, ProbeError> {
    match kind {
        Kind::Blob => told(alloc, object.try_into_blob()),
        Kind::Tree => told(alloc, object.try_into_tree()),
        Kind::Commit => told(alloc, object.try_into_commit()),
        Kind::Tag => told(alloc, object.try_into_tag()),
    }
}

fn told<T: Debug + AsSlice<u8> + Drop>(
    alloc: Global,
    made: Result<T, KindError>,
) -> Result<Vec<u8>, ProbeError> {
    match made {
        Ok(object) => whole(alloc, &object),
        Err(error) => kind_error(alloc, &error),
    }
}

fn convert(alloc: Global, kind: Kind, object: Object<'_, Memory>) -> Result<Vec<u8>, ProbeError> {
    match kind {
        Kind::Blob => told_back(alloc, Blob::try_from(object)),
        Kind::Tree => told_back(alloc, Tree::try_from(object)),
        Kind::Commit => told_back(alloc, Commit::try_from(object)),
        Kind::Tag => told_back(alloc, Tag::try_from(object)),
    }
}

fn told_back<T: Debug + AsSlice<u8> + Drop>(
    alloc: Global,
    made: Result<T, Object<'_, Memory>>,
) -> Result<Vec<u8>, ProbeError> {
    match made {
        Ok(object) => whole(alloc, &object),
        Err(object) => {
            let mut answer = word(alloc, "back ")?;
            answer.extend_from_slice(&whole(alloc, &object)?)?;
            Ok(answer)
        }
    }
}

fn attach(
    alloc: Global,
    repo: &Repository<Memory>,
    object: ObjectDetached,
) -> Result<Vec<u8>, ProbeError> {
    let id = object.id;
    let object = object.attach(repo);
    if !object.id().eq_id(&id) {
        return Err(ProbeError::BadLine);
    }
    whole(alloc, &object)
}
