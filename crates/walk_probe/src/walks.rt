//! Rows of walks over a small history: `walk ORDER COMMIT .. tips LABEL ..`, and then `hide`, `boundary`, `shallow` or
//! `refuse`, each with labels after it.
//!
//! The commits are those of `history.rt`. The word `first` follows first parents alone, and a filter refuses the
//! commits after `refuse`. The answer has the labels as they are listed, and after them the error, where one comes;
//! with a filter also `asked`, and what it was asked and answered. With `infos` each item has its time, or `-`, and its
//! parents, and ` ; ` stands between the items.

use crate::history::{
    History, fields_after, has_word, history_of, ids_after, push_error, push_label,
};
use gx_hash::ObjectId;
use gx_object::Ids;
use gx_store::Memory;
use gx_walk::{CommitTimeOrder, Filter, Info, Parents, Simple, Sorting, Stored, WalkError};
use probe_rows::ProbeError;
use probe_rows::answers::{push_shown, push_word, signed_of};
use std::alloc::Global;

/// The answer of `walk`.
pub fn answer(alloc: Global, fields: &[Vec<u8>]) -> Result<Vec<u8>, ProbeError> {
    let Some((order, fields)) = fields.split_first() else {
        return Err(ProbeError::BadLine);
    };
    let sorting = sorting_of(order).ok_or(ProbeError::BadLine)?;
    let history = history_of(alloc, fields)?;
    let named = named_in(alloc, &history, fields)?;
    let mut answer = walk(alloc, &history, named, sorting, fields)?;
    if answer.is_empty() {
        push_word(&mut answer, "none")?;
    }
    Ok(answer)
}

/// `breadth`, `newest`, `oldest`, or one of the last two with a colon and the seconds of a cutoff.
fn sorting_of(field: &[u8]) -> Option<Sorting> {
    let mut parts = field.split(|byte| *byte == b':');
    let order = match str::from_utf8(parts.next()?).ok()? {
        "breadth" => return Some(Sorting::BreadthFirst),
        "newest" => CommitTimeOrder::NewestFirst,
        "oldest" => CommitTimeOrder::OldestFirst,
        _ => return None,
    };
    match parts.next() {
        Some(seconds) => Some(Sorting::ByCommitTimeCutoff {
            order,
            seconds: signed_of(seconds)?,
        }),
        None => Some(Sorting::ByCommitTime(order)),
    }
}

/// The ids that the words of a row name.
#[derive(Drop)]
struct Named {
    tips: Ids,
    hide: Ids,
    boundary: Ids,
    shallow: Ids,
}

fn named_in(alloc: Global, history: &History, fields: &[Vec<u8>]) -> Result<Named, ProbeError> {
    let tips = ids_after(alloc, history, fields, b"tips")?;
    let hide = ids_after(alloc, history, fields, b"hide")?;
    let boundary = ids_after(alloc, history, fields, b"boundary")?;
    let shallow = ids_after(alloc, history, fields, b"shallow")?;
    Ok(Named {
        tips,
        hide,
        boundary,
        shallow,
    })
}

fn parents_of(fields: &[Vec<u8>]) -> Parents {
    if has_word(fields, b"first") {
        return Parents::First;
    }
    Parents::All
}

fn walk(
    alloc: Global,
    history: &History,
    named: Named,
    sorting: Sorting,
    fields: &[Vec<u8>],
) -> Result<Vec<u8>, ProbeError> {
    let parents = parents_of(fields);
    if has_word(fields, b"refuse") {
        let refused = ids_after(alloc, history, fields, b"refuse")?;
        let filter = Stored::new(|id| !refused.as_slice().contains(id));
        return filtered(alloc, history, named, sorting, parents, filter);
    }
    let mut walk = Simple::new(alloc, named.tips, &history.store)
        .sorting(sorting)
        .parents(parents)
        .hide(named.hide)
        .boundary(named.boundary)
        .shallow(named.shallow);
    listed(alloc, history, &mut walk, has_word(fields, b"infos"))
}

/// The walk over what a filter admits, and what the filter was asked.
fn filtered<F: Filter>(
    alloc: Global,
    history: &History,
    named: Named,
    sorting: Sorting,
    parents: Parents,
    filter: F,
) -> Result<Vec<u8>, ProbeError>
    requires { F.can_admit filter }
{
    let mut walk = Simple::filtered(alloc, named.tips, &history.store, filter)
        .sorting(sorting)
        .parents(parents)
        .hide(named.hide)
        .boundary(named.boundary)
        .shallow(named.shallow);
    let mut answer = listed(alloc, history, &mut walk, false)?;
    push_asked(&mut answer, history, walk.asked())?;
    Ok(answer)
}

/// What the walk gives, item by item. Where it keeps another list than the one that it gave, it says so.
fn listed<F: Filter>(
    alloc: Global,
    history: &History,
    walk: &mut Simple<'_, Memory, F>,
    tells_infos: bool,
) -> Result<Vec<u8>, ProbeError> {
    let mut answer = Vec::new(alloc);
    let mut given = Vec::new(alloc);
    while let Some(item) = walk.next() {
        if let Ok(info) = &item {
            given.push(info.id)?;
        }
        push_item(alloc, &mut answer, history, &item, tells_infos)?;
    }
    if walk.listed() != given.as_slice() {
        push_word(&mut answer, "listed-otherwise")?;
    }
    Ok(answer)
}

fn push_item(
    alloc: Global,
    answer: &mut Vec<u8>,
    history: &History,
    item: &Result<Info, WalkError>,
    tells_infos: bool,
) -> Result<(), ProbeError> {
    match item {
        Ok(info) if tells_infos => push_info(alloc, answer, history, info),
        Ok(info) => push_label(answer, history, &info.id),
        Err(error) => push_error(answer, history, error),
    }
}

fn push_info(
    alloc: Global,
    answer: &mut Vec<u8>,
    history: &History,
    info: &Info,
) -> Result<(), ProbeError> {
    if !answer.is_empty() {
        push_word(answer, ";")?;
    }
    push_label(answer, history, &info.id)?;
    match &info.commit_time {
        Some(seconds) => push_shown(alloc, answer, seconds)?,
        None => push_word(answer, "-")?,
    }
    for parent in info.parent_ids.as_slice() {
        push_label(answer, history, parent)?;
    }
    Ok(())
}

fn push_asked(
    answer: &mut Vec<u8>,
    history: &History,
    asked: &[(ObjectId, bool)],
) -> Result<(), ProbeError> {
    push_word(answer, "asked")?;
    for (id, is_admitted) in asked {
        push_label(answer, history, id)?;
        push_word(answer, if *is_admitted { "yes" } else { "no" })?;
    }
    Ok(())
}
