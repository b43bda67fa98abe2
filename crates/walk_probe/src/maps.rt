//! Rows of calls of the maps that are handed in, one field a call, with ` ; ` between the answers.
//!
//! - `graph CALL ..`: `put:LABEL:TIME:PARENT,PARENT:PAYLOAD` answers the commit that is replaced, `get:LABEL` the
//!   commit, `len` and `is_empty` what they say, and `clear` nothing. A commit is its time, its parents and its
//!   payload.
//! - `name_map CALL ..`: `put:LABEL:NAME` answers the name that is replaced, and `get:LABEL` the name.

use crate::history::{History, id_of, name_others, new_history, parents_in, push_label};
use gx_hash::{Bytes, HashKind};
use gx_walk::describe::NameMap;
use gx_walk::{Graph, GraphCommit};
use probe_rows::ProbeError;
use probe_rows::answers::{push_field, push_shown, push_word, signed_of};
use std::alloc::Global;

/// The answer of `graph`.
pub fn graph(alloc: Global, fields: &[Vec<u8>]) -> Result<Vec<u8>, ProbeError> {
    let history = labels_in(alloc, fields)?;
    let mut graph = Graph::new(alloc);
    let mut answer = Vec::new(alloc);
    for field in fields {
        push_end(&mut answer)?;
        call_graph(alloc, &history, &mut graph, &mut answer, field)?;
    }
    Ok(answer)
}

/// A history without objects, for the labels of a row.
fn labels_in(alloc: Global, fields: &[Vec<u8>]) -> Result<History, ProbeError> {
    let mut history = new_history(alloc, HashKind::Sha1)?;
    name_others(alloc, &mut history, fields)?;
    Ok(history)
}

/// Ends the answer of the call before, if there is one.
fn push_end(answer: &mut Vec<u8>) -> Result<(), ProbeError> {
    if answer.is_empty() {
        return Ok(());
    }
    push_word(answer, ";")
}

fn call_graph(
    alloc: Global,
    history: &History,
    graph: &mut Graph<Bytes>,
    answer: &mut Vec<u8>,
    field: &[u8],
) -> Result<(), ProbeError> {
    let (call, spelled) = parts_of(field);
    let (label, spelled) = parts_of(spelled);
    let id = id_of(history, label);
    match call {
        b"put" => {
            let commit = commit_in(alloc, history, spelled)?;
            let replaced = graph.insert(id, commit)?;
            push_commit(alloc, answer, history, replaced.as_ref())
        }
        b"get" => push_commit(alloc, answer, history, graph.get(&id)),
        b"len" => push_shown(alloc, answer, &graph.len()),
        b"is_empty" => push_word(answer, if graph.is_empty() { "yes" } else { "no" }),
        b"clear" => {
            graph.clear();
            push_word(answer, "cleared")
        }
        _ => Err(ProbeError::BadLine),
    }
}

/// What stands before the first colon, and what after it.
fn parts_of(field: &[u8]) -> (&[u8], &[u8]) {
    let mut parts = field.splitn(2, |byte| *byte == b':');
    let first = parts.next().unwrap_or(b"");
    (first, parts.next().unwrap_or(b""))
}

/// `TIME:PARENT,PARENT:PAYLOAD`
fn commit_in(
    alloc: Global,
    history: &History,
    spelled: &[u8],
) -> Result<GraphCommit<Bytes>, ProbeError> {
    let (time, spelled) = parts_of(spelled);
    let (parents, payload) = parts_of(spelled);
    let commit_time = signed_of(time).ok_or(ProbeError::BadLine)?;
    let parents = parents_in(alloc, history, parents)?;
    let payload = Bytes::from_slice(alloc, payload)?;
    Ok(GraphCommit {
        parents,
        commit_time,
        payload,
    })
}

fn push_commit(
    alloc: Global,
    answer: &mut Vec<u8>,
    history: &History,
    commit: Option<&GraphCommit<Bytes>>,
) -> Result<(), ProbeError> {
    let Some(commit) = commit else {
        return push_word(answer, "none");
    };
    push_shown(alloc, answer, &commit.commit_time)?;
    for parent in commit.parents.as_slice() {
        push_label(answer, history, parent)?;
    }
    push_field(answer, commit.payload.as_slice())
}

/// The answer of `name_map`.
pub fn name_map(alloc: Global, fields: &[Vec<u8>]) -> Result<Vec<u8>, ProbeError> {
    let history = labels_in(alloc, fields)?;
    let mut names = NameMap::new(alloc);
    let mut answer = Vec::new(alloc);
    for field in fields {
        push_end(&mut answer)?;
        call_names(alloc, &history, &mut names, &mut answer, field)?;
    }
    Ok(answer)
}

fn call_names(
    alloc: Global,
    history: &History,
    names: &mut NameMap,
    answer: &mut Vec<u8>,
    field: &[u8],
) -> Result<(), ProbeError> {
    let (call, spelled) = parts_of(field);
    let (label, name) = parts_of(spelled);
    let id = id_of(history, label);
    match call {
        b"put" => {
            let name = Bytes::from_slice(alloc, name)?;
            let replaced = names.insert(id, name)?;
            push_name(answer, replaced.as_ref())
        }
        b"get" => push_name(answer, names.get(&id)),
        _ => Err(ProbeError::BadLine),
    }
}

fn push_name(answer: &mut Vec<u8>, name: Option<&Bytes>) -> Result<(), ProbeError> {
    match name {
        Some(name) => push_field(answer, name.as_slice()),
        None => push_word(answer, "none"),
    }
}
