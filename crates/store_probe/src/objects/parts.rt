//! What rows read of an object. `author ID`, `committer ID` and `tagger ID` are a name, an email and the text of a
//! time; `message ID` is a title and a body; `message_raw ID` and `message_raw_sloppy ID` are bytes; `tree_id ID`,
//! `parent_ids ID` and `target_id ID` are ids; `entries ID` and `entry ID NAME` are a mode's kind, a name and an id.
//! What can't be read is answered by the place.

use super::errors::find_as_error;
use crate::store::only;
use crate::values::id_in;
use gix::object::tree::EntryRef;
use gix::{Commit, Id, Repository, Tag, Tree};
use gx_object::{DecodeError, MessageRef, SignatureRef};
use gx_store::Memory;
use probe_rows::ProbeError;
use probe_rows::answers::{at, hex, push_field, push_id, push_word, quoted, word};
use std::alloc::Global;

/// The answer of a call that reads a part of an object.
pub fn read_by(
    alloc: Global,
    repo: &Repository<Memory>,
    call: &str,
    fields: &[Vec<u8>],
) -> Result<Vec<u8>, ProbeError> {
    match call {
        "tagger" | "target_id" => of_tag(alloc, repo, call, fields),
        "entries" => of_tree(alloc, repo, fields),
        "entry" => entry_by(alloc, repo, fields),
        "author"
        | "committer"
        | "message"
        | "message_raw"
        | "message_raw_sloppy"
        | "tree_id"
        | "parent_ids" => of_commit(alloc, repo, call, fields),
        _ => Err(ProbeError::UnknownCall),
    }
}

fn of_commit(
    alloc: Global,
    repo: &Repository<Memory>,
    call: &str,
    fields: &[Vec<u8>],
) -> Result<Vec<u8>, ProbeError> {
    match repo.find_commit(alloc, id_in(only(fields)?)?) {
        Ok(commit) => place_told(alloc, commit_part(alloc, &commit, call)),
        Err(error) => find_as_error(alloc, &error),
    }
}

/// The answer, or the place that can't be read.
fn place_told(alloc: Global, read: Result<Vec<u8>, ProbeError>) -> Result<Vec<u8>, ProbeError> {
    match read {
        Err(ProbeError::Decode { at: place }) => at(alloc, "decode", place),
        read => read,
    }
}

fn commit_part(
    alloc: Global,
    commit: &Commit<'_, Memory>,
    call: &str,
) -> Result<Vec<u8>, ProbeError> {
    match call {
        "author" => identity(alloc, &commit.author()?),
        "committer" => identity(alloc, &commit.committer()?),
        "message" => message(alloc, &commit.message()?),
        "message_raw" => quoted(alloc, commit.message_raw()?.as_bytes()),
        "message_raw_sloppy" => quoted(alloc, commit.message_raw_sloppy().as_bytes()),
        "tree_id" => told_id(alloc, commit.tree_id()),
        _ => parents(alloc, commit),
    }
}

fn identity(alloc: Global, who: &SignatureRef<'_>) -> Result<Vec<u8>, ProbeError> {
    let mut answer = quoted(alloc, who.name.as_bytes())?;
    push_field(&mut answer, who.email.as_bytes())?;
    push_field(&mut answer, who.time.as_bytes())?;
    Ok(answer)
}

fn message(alloc: Global, message: &MessageRef<'_>) -> Result<Vec<u8>, ProbeError> {
    let mut answer = quoted(alloc, message.title.as_bytes())?;
    match message.body {
        Some(body) => push_field(&mut answer, body.as_bytes())?,
        None => push_word(&mut answer, "none")?,
    }
    Ok(answer)
}

fn told_id(alloc: Global, id: Result<Id<'_, Memory>, DecodeError>) -> Result<Vec<u8>, ProbeError> {
    hex(alloc, id?.as_oid())
}

fn parents(alloc: Global, commit: &Commit<'_, Memory>) -> Result<Vec<u8>, ProbeError> {
    let mut answer = Vec::new(alloc);
    for parent in commit.parent_ids() {
        push_id(&mut answer, parent.as_oid())?;
    }
    Ok(answer)
}

fn of_tag(
    alloc: Global,
    repo: &Repository<Memory>,
    call: &str,
    fields: &[Vec<u8>],
) -> Result<Vec<u8>, ProbeError> {
    match repo.find_tag(alloc, id_in(only(fields)?)?) {
        Ok(tag) => place_told(alloc, tag_part(alloc, &tag, call)),
        Err(error) => find_as_error(alloc, &error),
    }
}

fn tag_part(alloc: Global, tag: &Tag<'_, Memory>, call: &str) -> Result<Vec<u8>, ProbeError> {
    match call {
        "target_id" => told_id(alloc, tag.target_id()),
        _ => match tag.tagger()? {
            Some(who) => identity(alloc, &who),
            None => word(alloc, "none"),
        },
    }
}

fn of_tree(
    alloc: Global,
    repo: &Repository<Memory>,
    fields: &[Vec<u8>],
) -> Result<Vec<u8>, ProbeError> {
    match repo.find_tree(alloc, id_in(only(fields)?)?) {
        Ok(tree) => place_told(alloc, entries(alloc, &tree)),
        Err(error) => find_as_error(alloc, &error),
    }
}

fn entries(alloc: Global, tree: &Tree<'_, Memory>) -> Result<Vec<u8>, ProbeError> {
    let mut answer = Vec::new(alloc);
    for entry in tree.iter() {
        push_tree_entry(&mut answer, &entry?)?;
    }
    Ok(answer)
}

fn push_tree_entry(
    answer: &mut Vec<u8>,
    entry: &EntryRef<'_, '_, Memory>,
) -> Result<(), ProbeError> {
    push_word(answer, entry.mode().as_str())?;
    push_field(answer, entry.filename().as_bytes())?;
    push_id(answer, entry.id().as_oid())
}

fn entry_by(
    alloc: Global,
    repo: &Repository<Memory>,
    fields: &[Vec<u8>],
) -> Result<Vec<u8>, ProbeError> {
    let [id, name] = fields else {
        return Err(ProbeError::BadLine);
    };
    match repo.find_tree(alloc, id_in(id)?) {
        Ok(tree) => found_entry(alloc, &tree, name),
        Err(error) => find_as_error(alloc, &error),
    }
}

fn found_entry(alloc: Global, tree: &Tree<'_, Memory>, name: &[u8]) -> Result<Vec<u8>, ProbeError> {
    let Some(entry) = tree.find_entry(name) else {
        return word(alloc, "none");
    };
    let mut answer = Vec::new(alloc);
    push_tree_entry(&mut answer, &entry)?;
    Ok(answer)
}
