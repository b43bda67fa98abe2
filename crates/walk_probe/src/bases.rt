//! Rows of merge bases: `bases COMMIT .. tips LABEL ..` and `octopus COMMIT .. tips LABEL ..`, and then `shallow` with
//! labels after it. The commits are those of `history.rt`; the first tip is the commit, and the others follow.
//!
//! The answer has the labels of the bases in their order, or the error. Each call is made twice over one graph, and in
//! between every commit of the history is broken, so that the second call answers from what the graph has kept. Where
//! it answers something else, the row says `differs`.
ghost use Rattle.std.specs.Prelude.{OnOk};
ghost use Rattle.gx_store.specs.Memory.{memory_state};
ghost use Rattle.gx_walk.specs.Graph.{IsGraphIn};

use crate::history::{History, history_of, ids_after, push_error, push_label};
use gx_hash::ObjectId;
use gx_object::Ids;
use gx_store::Memory;
use gx_walk::{Graph, WalkError, merge_base, octopus};
use probe_rows::ProbeError;
use probe_rows::answers::push_word;
use std::alloc::Global;

/// What a row asks for.
#[derive(Clone, Copy)]
pub enum Call {
    Bases,
    Octopus,
}

/// The answer of `bases` and `octopus`.
pub fn answer(alloc: Global, call: Call, fields: &[Vec<u8>]) -> Result<Vec<u8>, ProbeError> {
    let history = history_of(alloc, fields)?;
    let tips = ids_after(alloc, &history, fields, b"tips")?;
    let shallow = ids_after(alloc, &history, fields, b"shallow")?;
    let Some((one, others)) = tips.as_slice().split_first() else {
        return Err(ProbeError::BadLine);
    };
    match call {
        Call::Bases => bases(alloc, history, shallow.as_slice(), *one, others),
        Call::Octopus => octopus_base(alloc, history, shallow.as_slice(), *one, others),
    }
}

fn bases(
    alloc: Global,
    mut history: History,
    shallow: &[ObjectId],
    one: ObjectId,
    others: &[ObjectId],
) -> Result<Vec<u8>, ProbeError> {
    let mut graph = Graph::new(alloc);
    let found = merge_base(alloc, &history.store, shallow, one, others, &mut graph);
    let answer = shown_bases(alloc, &history, found)?;
    break_all(&mut history.store, &history.commits, &graph)?;
    let again = merge_base(alloc, &history.store, shallow, one, others, &mut graph);
    let second = shown_bases(alloc, &history, again)?;
    one_answer(answer, &second)
}

fn octopus_base(
    alloc: Global,
    mut history: History,
    shallow: &[ObjectId],
    one: ObjectId,
    others: &[ObjectId],
) -> Result<Vec<u8>, ProbeError> {
    let mut graph = Graph::new(alloc);
    let found = octopus(alloc, &history.store, shallow, one, others, &mut graph);
    let answer = shown_base(alloc, &history, found)?;
    break_all(&mut history.store, &history.commits, &graph)?;
    let again = octopus(alloc, &history.store, shallow, one, others, &mut graph);
    let second = shown_base(alloc, &history, again)?;
    one_answer(answer, &second)
}

/// Breaks these objects. What a graph has of the store stays so.
fn break_all(store: &mut Memory, ids: &[ObjectId], graph: &Graph<()>) -> Result<(), ProbeError>
    requires { IsGraphIn (memory_state store.old) graph.now }
    ensures { OnOk result (IsGraphIn (memory_state store.new) graph.now) }
{
    for id in ids {
        store.break_object(*id)?;
    }
    Ok(())
}

/// The answer, if the second call gave it too.
fn one_answer(mut answer: Vec<u8>, second: &[u8]) -> Result<Vec<u8>, ProbeError> {
    if answer.as_slice() != second {
        push_word(&mut answer, "differs")?;
    }
    Ok(answer)
}

fn shown_bases(
    alloc: Global,
    history: &History,
    found: Result<Ids, WalkError>,
) -> Result<Vec<u8>, ProbeError> {
    let mut answer = Vec::new(alloc);
    match found {
        Ok(bases) => push_labels(&mut answer, history, &bases)?,
        Err(error) => push_error(&mut answer, history, &error)?,
    }
    Ok(answer)
}

fn push_labels(answer: &mut Vec<u8>, history: &History, ids: &Ids) -> Result<(), ProbeError> {
    for id in ids.as_slice() {
        push_label(answer, history, id)?;
    }
    if ids.as_slice().is_empty() {
        push_word(answer, "none")?;
    }
    Ok(())
}

fn shown_base(
    alloc: Global,
    history: &History,
    found: Result<Option<ObjectId>, WalkError>,
) -> Result<Vec<u8>, ProbeError> {
    let mut answer = Vec::new(alloc);
    match found {
        Ok(Some(id)) => push_label(&mut answer, history, &id)?,
        Ok(None) => push_word(&mut answer, "none")?,
        Err(error) => push_error(&mut answer, history, &error)?,
    }
    Ok(answer)
}
