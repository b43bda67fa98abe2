//! Questions about a history that is made up. Its commits are numbered from 0, parents first.
//!
//! - `bases ONE OTHER TIMES` asks for the merge bases of two commits, so many times through one graph; each time the
//!   two are one lower than the time before. The answer has all bases, or is `none`.
//! - `octopus ONE OTHER TIMES` asks once for the base of a commit and so many others, each one lower than the one
//!   before.
//! - `describe TIP NAMED ..` describes a commit where these commits have names, `v` and the number, by the long text
//!   with all digits.

use crate::descriptions::text;
use gx_hash::{Bytes, ObjectId};
use gx_object::Ids;
use gx_store::{Memory, Objects};
use gx_walk::describe::{NameMap, Options, describe};
use gx_walk::{Graph, merge_base, octopus};
use probe_rows::ProbeError;
use probe_rows::answers::{hex, number_of, push_id, word};
use std::alloc::Global;

/// How many names are compared, as `git describe` does.
const CANDIDATES: usize = 10;

/// More digits than an id has.
const ALL_DIGITS: usize = 64;

/// Two commits of which the bases are asked.
type Pair = (ObjectId, ObjectId);

/// The answer to a question about the commits of these ids.
pub fn answer(
    alloc: Global,
    store: &Memory,
    ids: &[ObjectId],
    call: &[u8],
    fields: &[Vec<u8>],
) -> Result<Vec<u8>, ProbeError> {
    let numbers = numbers_in(alloc, fields)?;
    match call {
        b"bases" => bases(alloc, store, ids, &numbers),
        b"octopus" => octopus_base(alloc, store, ids, &numbers),
        b"describe" => description(alloc, store, ids, &numbers),
        _ => Err(ProbeError::BadLine),
    }
}

fn numbers_in(alloc: Global, fields: &[Vec<u8>]) -> Result<Vec<u64>, ProbeError> {
    let mut numbers = Vec::new(alloc);
    for field in fields {
        let number = number_of(field).ok_or(ProbeError::BadLine)?;
        numbers.push(number)?;
    }
    Ok(numbers)
}

/// The id of the commit so many below a number.
fn id_at(ids: &[ObjectId], number: u64, below: u64) -> Result<ObjectId, ProbeError> {
    let place = number.checked_sub(below).ok_or(ProbeError::BadLine)?;
    ids.get(place as usize).copied().ok_or(ProbeError::BadLine)
}

// ---- merge bases

fn bases(
    alloc: Global,
    store: &Memory,
    ids: &[ObjectId],
    numbers: &[u64],
) -> Result<Vec<u8>, ProbeError> {
    let pairs = pairs_of(alloc, ids, numbers)?;
    let answer = bases_of(alloc, store, &pairs)?;
    if answer.is_empty() {
        return word(alloc, "none");
    }
    Ok(answer)
}

fn pairs_of(alloc: Global, ids: &[ObjectId], numbers: &[u64]) -> Result<Vec<Pair>, ProbeError> {
    let [one, other, times] = numbers else {
        return Err(ProbeError::BadLine);
    };
    let mut pairs = Vec::new(alloc);
    for below in 0..*times {
        let first = id_at(ids, *one, below)?;
        let second = id_at(ids, *other, below)?;
        pairs.push((first, second))?;
    }
    Ok(pairs)
}

/// The bases of each pair, through one graph.
fn bases_of<S: Objects>(alloc: Global, store: &S, pairs: &[Pair]) -> Result<Vec<u8>, ProbeError> {
    let mut graph = Graph::new(alloc);
    let mut answer = Vec::new(alloc);
    for pair in pairs {
        let found = merge_base(alloc, store, &[], pair.0, &[pair.1], &mut graph);
        let bases = found.map_err(|_| ProbeError::Failed)?;
        push_ids(&mut answer, &bases)?;
    }
    Ok(answer)
}

fn push_ids(answer: &mut Vec<u8>, ids: &Ids) -> Result<(), ProbeError> {
    for id in ids.as_slice() {
        push_id(answer, id)?;
    }
    Ok(())
}

fn octopus_base(
    alloc: Global,
    store: &Memory,
    ids: &[ObjectId],
    numbers: &[u64],
) -> Result<Vec<u8>, ProbeError> {
    let [one, other, times] = numbers else {
        return Err(ProbeError::BadLine);
    };
    let one = id_at(ids, *one, 0)?;
    let others = others_of(alloc, ids, *other, *times)?;
    let mut graph = Graph::new(alloc);
    let found = octopus(alloc, store, &[], one, &others, &mut graph);
    match found {
        Ok(Some(base)) => hex(alloc, &base),
        Ok(None) => word(alloc, "none"),
        Err(_) => Err(ProbeError::Failed),
    }
}

fn others_of(
    alloc: Global,
    ids: &[ObjectId],
    other: u64,
    times: u64,
) -> Result<Vec<ObjectId>, ProbeError> {
    let mut others = Vec::new(alloc);
    for below in 0..times {
        let id = id_at(ids, other, below)?;
        others.push(id)?;
    }
    Ok(others)
}

// ---- descriptions

fn description(
    alloc: Global,
    store: &Memory,
    ids: &[ObjectId],
    numbers: &[u64],
) -> Result<Vec<u8>, ProbeError> {
    let [tip, named @ ..] = numbers else {
        return Err(ProbeError::BadLine);
    };
    let id = id_at(ids, *tip, 0)?;
    let names = names_of(alloc, ids, named)?;
    described(alloc, store, id, names)
}

fn names_of(alloc: Global, ids: &[ObjectId], named: &[u64]) -> Result<NameMap, ProbeError> {
    let mut names = NameMap::new(alloc);
    for number in named {
        let id = id_at(ids, *number, 0)?;
        let name = format!(in alloc; "v{number}")?;
        names.insert(id, Bytes::from_vec(name.into_bytes()))?;
    }
    Ok(names)
}

fn described(
    alloc: Global,
    store: &Memory,
    id: ObjectId,
    names: NameMap,
) -> Result<Vec<u8>, ProbeError> {
    let options = Options {
        names,
        fallback: false,
        first_parent: false,
        max_candidates: CANDIDATES,
    };
    let mut graph = Graph::new(alloc);
    let found = describe(alloc, store, &[], id, &mut graph, options);
    match found {
        Ok(Some(outcome)) => text(alloc, outcome, ALL_DIGITS, true),
        Ok(None) => word(alloc, "none"),
        Err(_) => Err(ProbeError::Failed),
    }
}
