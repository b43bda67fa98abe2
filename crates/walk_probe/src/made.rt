//! Rows on histories and trees that are made up here, for `bench/`: `made SHAPE COUNT WORD`.
//!
//! A history is a `line` of this many commits, a `fan` (a root, commits on it, and a merge of these) or a `cross`
//! (pairs of commits, each with both of the pair before as parents); a tree is a `bush` (each directory has ten others,
//! as far as there are so many, and a file) or a `chain` (each has the next one). The word is `build`, which makes it
//! and no more, `newest` or `breadth` for histories, which list all ids, each of these with `-first` behind it, which
//! lists the first alone, or `depth` or `breadth` for trees, which count the entries. The words `bases`, `octopus` and
//! `describe` for histories, with numbers behind them, are those of `made/queries.rt`.
ghost use Rattle.gx_walk.specs.Visits.{Counts};

mod queries;

use crate::history::signature;
use gx_hash::{Bytes, HashKind, NoMemory, ObjectId};
use gx_object::{Commit, EntryRef, Headers, Ids, Kind, WriteTo};
use gx_store::{Memory, write_object};
use gx_walk::{
    Action, CommitTimeOrder, Simple, Sorting, Visit, WalkError, breadthfirst, depthfirst,
};
use probe_rows::ProbeError;
use probe_rows::answers::{hex, number_of, numbered, push_id};
use std::alloc::Global;

/// The answers to rows on what is made here.
pub fn answer(alloc: Global, fields: &[Vec<u8>]) -> Result<Vec<u8>, ProbeError> {
    let [shape, count, word, numbers @ ..] = fields else {
        return Err(ProbeError::BadLine);
    };
    let count = number_of(count).ok_or(ProbeError::BadLine)?;
    match shape.as_slice() {
        b"bush" | b"chain" => of_tree(alloc, shape, count, word),
        _ => of_history(alloc, shape, count, word, numbers),
    }
}

fn of_history(
    alloc: Global,
    shape: &[u8],
    count: u64,
    word: &[u8],
    numbers: &[Vec<u8>],
) -> Result<Vec<u8>, ProbeError> {
    let mut store = Memory::new(alloc, HashKind::Sha1)?;
    let ids = make_history(alloc, &mut store, shape, count)?;
    let tip = ids.last().copied().ok_or(ProbeError::BadLine)?;
    match word {
        b"build" => hex(alloc, &tip),
        b"newest" => listed(alloc, &store, tip, newest(), u64::MAX),
        b"newest-first" => listed(alloc, &store, tip, newest(), 1),
        b"breadth" => listed(alloc, &store, tip, Sorting::BreadthFirst, u64::MAX),
        b"breadth-first" => listed(alloc, &store, tip, Sorting::BreadthFirst, 1),
        _ => queries::answer(alloc, &store, &ids, word, numbers),
    }
}

fn newest() -> Sorting {
    Sorting::ByCommitTime(CommitTimeOrder::NewestFirst)
}

/// The ids that a walk gives from the tip, up to so many.
fn listed(
    alloc: Global,
    store: &Memory,
    tip: ObjectId,
    sorting: Sorting,
    most: u64,
) -> Result<Vec<u8>, ProbeError> {
    let mut tips = Vec::new(alloc);
    tips.push(tip)?;
    let mut answer = Vec::new(alloc);
    let mut left = most;
    for item in Simple::new(alloc, Ids::from_vec(tips), store).sorting(sorting) {
        push_id(&mut answer, &item.map_err(|_| ProbeError::Failed)?.id)?;
        left = left.saturating_sub(1);
        if left == 0 {
            break;
        }
    }
    Ok(answer)
}

/// Makes the commits of a history, the last of which reaches all (in a `cross`, if the number is even).
fn make_history(
    alloc: Global,
    store: &mut Memory,
    shape: &[u8],
    count: u64,
) -> Result<Vec<ObjectId>, ProbeError> {
    let mut ids = Vec::new(alloc);
    for number in 0..count {
        let parents = parents_of(shape, number, count);
        let bytes = commit_bytes(alloc, &ids, number, parents)?;
        ids.push(put(alloc, store, Kind::Commit, bytes.as_slice())?)?;
    }
    Ok(ids)
}

/// The numbers of a commit's parents: from the first of the pair, and below the second.
fn parents_of(shape: &[u8], number: u64, count: u64) -> (u64, u64) {
    match shape {
        b"fan" if number.saturating_add(1) == count => (1, number),
        b"fan" => (0, number.min(1)),
        b"cross" if number < 3 => (0, number.min(1)),
        b"cross" if number % 2 == 1 => (number - 2, number),
        b"cross" => (number - 3, number - 1),
        _ => (number.saturating_sub(1), number),
    }
}

fn commit_bytes(
    alloc: Global,
    ids: &[ObjectId],
    number: u64,
    parents: (u64, u64),
) -> Result<Bytes, ProbeError> {
    let mut chosen = Vec::new(alloc);
    for parent in parents.0..parents.1 {
        chosen.push(*ids.get(parent as usize).ok_or(ProbeError::BadLine)?)?;
    }
    let seconds = i64::try_from(number).unwrap_or(0).saturating_add(1000);
    let commit = Commit {
        tree: ObjectId::empty_tree(HashKind::Sha1),
        parents: Ids::from_vec(chosen),
        author: signature(alloc, seconds)?,
        committer: signature(alloc, seconds)?,
        encoding: None,
        message: Bytes::new(alloc),
        extra_headers: Headers::from_vec(Vec::new(alloc)),
    };
    Ok(commit.to_bytes(alloc)?)
}

fn put(
    alloc: Global,
    store: &mut Memory,
    kind: Kind,
    bytes: &[u8],
) -> Result<ObjectId, ProbeError> {
    write_object(alloc, store, kind, bytes).map_err(|_| ProbeError::NoMemory)
}

// ---- trees

fn of_tree(alloc: Global, shape: &[u8], count: u64, word: &[u8]) -> Result<Vec<u8>, ProbeError> {
    let mut store = Memory::new(alloc, HashKind::Sha1)?;
    let (root, bytes) = make_tree(alloc, &mut store, shape, count)?;
    let mut counter = Counter { entries: 0 };
    match word {
        b"build" => return hex(alloc, &root),
        b"depth" => depthfirst(alloc, &store, root, bytes.as_slice(), &mut counter).map_err(
            failed,
        )?,
        b"breadth" => {
            breadthfirst(alloc, &store, root, bytes.as_slice(), &mut counter).map_err(failed)?
        }
        _ => return Err(ProbeError::BadLine),
    }
    numbered(alloc, "entries", counter.entries as usize)
}

fn failed(_: WalkError) -> ProbeError {
    ProbeError::Failed
}

/// Makes so many trees, the last of which contains all others, and gives its id and bytes.
fn make_tree(
    alloc: Global,
    store: &mut Memory,
    shape: &[u8],
    count: u64,
) -> Result<(ObjectId, Vec<u8>), ProbeError> {
    let mut ids = Vec::new(alloc);
    let mut root = (ObjectId::empty_tree(HashKind::Sha1), Vec::new(alloc));
    for place in 0..count {
        let number = count - place;
        let inner = match shape {
            b"chain" => number..number.saturating_add(1),
            _ => inner_of(number),
        };
        let mut bytes = file_bytes(alloc, number)?;
        for other in inner {
            if let Some(id) = tree_at(&ids, count, other) {
                push_tree(alloc, &mut bytes, other, &id)?;
            }
        }
        root.0 = put(alloc, store, Kind::Tree, &bytes)?;
        root.1 = bytes;
        ids.push(root.0)?;
    }
    Ok(root)
}

/// The numbers of the trees in a tree of a bush, less one.
fn inner_of(number: u64) -> std::ops::Range<u64> {
    let last = number.saturating_mul(10);
    last.saturating_sub(9)..last.saturating_add(1)
}

/// The id of the tree of this number plus one: trees are made from the last one on.
fn tree_at(ids: &[ObjectId], count: u64, other: u64) -> Option<ObjectId> {
    let place = count.checked_sub(other.checked_add(1)?)?;
    ids.get(place as usize).copied()
}

/// The entry of a file of a name of its own.
fn file_bytes(alloc: Global, number: u64) -> Result<Vec<u8>, ProbeError> {
    let mut bytes = format!(in alloc; "100644 a{number}\0")?.into_bytes();
    bytes.extend_from_slice(ObjectId::empty_blob(HashKind::Sha1).as_bytes())?;
    Ok(bytes)
}

fn push_tree(
    alloc: Global,
    bytes: &mut Vec<u8>,
    number: u64,
    id: &ObjectId,
) -> Result<(), ProbeError> {
    let head = format!(in alloc; "40000 d{number}\0")?;
    bytes.extend_from_slice(head.as_bytes())?;
    Ok(bytes.extend_from_slice(id.as_bytes())?)
}

/// Counts what it is shown.
#[derive(Drop)]
struct Counter {
    entries: u64,
}

impl Visit for Counter {
    ghost use Rattle.std.specs.Prelude.{None};

    ghost visits = { λ _. None };

    ghost cancels = { λ _. 0 };

    fn visit_tree(&mut self, _path: &[u8], _entry: &EntryRef<'_>) -> Result<Action, NoMemory> {
        self.entries = self.entries.saturating_add(1);
        Ok(Action::Continue)
    }

    fn visit_nontree(&mut self, _path: &[u8], _entry: &EntryRef<'_>) -> Result<Action, NoMemory> {
        self.entries = self.entries.saturating_add(1);
        Ok(Action::Continue)
    }
}
