//! Rows of editors of trees.
//!
//! `editor KIND STEP ; STEP ..` answers each step on the editor of an empty tree and a new store in memory. `root ID`
//! takes a stored tree for its root; `upsert MODE PATH ID`, `remove PATH`, `remove_leaf PATH` and `get PATH` are its
//! calls, and so is `write_trees`, with the protections after it if any are given. Steps of `store` rows are steps here
//! too, and `tree` as in rows of path maps.
ghost use Rattle.std.specs.Prelude.{◌≡◌};
ghost use Rattle.gx_edit.specs.Editor.{hash_of};

use crate::faults::edit_error;
use crate::path_maps::{protect_in, tree};
use crate::store::{answer_step, only, push_answer};
use crate::values::{hash_in, id_in, word_in};
use gx_edit::{EditError, Editor, EntryView};
use gx_hash::{HashKind, NoMemory, ObjectId};
use gx_object::{Entries, EntryKind, Kind, Tree, TreeRef};
use gx_rules::Protect;
use gx_store::{Memory, Objects};
use probe_rows::ProbeError;
use probe_rows::answers::{hex, push_field, push_id, word};
use std::alloc::Global;

/// An editor and the kind of its ids.
#[derive(Drop)]
struct Edited {
    editor: Editor,
    hash: HashKind,
    ghost same: { hash_of editor ≡ hash },
}

impl Edited {
    fn new(alloc: Global, hash: HashKind) -> Result<Edited, NoMemory> {
        let root = Tree {
            entries: Entries::new(alloc),
        };
        let editor = Editor::new(alloc, root, hash)?;
        Ok(Edited { editor, hash })
    }

    fn upsert(
        &mut self,
        store: &Memory,
        path: &[u8],
        kind: EntryKind,
        id: ObjectId,
    ) -> Result<Result<(), EditError>, ProbeError> {
        if store.hash_kind() != self.hash {
            return Err(ProbeError::BadLine);
        }
        Ok(self.editor.upsert(store, path, kind, id))
    }

    fn remove(&mut self, store: &Memory, path: &[u8]) -> Result<Result<(), EditError>, ProbeError> {
        if store.hash_kind() != self.hash {
            return Err(ProbeError::BadLine);
        }
        Ok(self.editor.remove(store, path))
    }

    fn remove_leaf(
        &mut self,
        store: &Memory,
        path: &[u8],
    ) -> Result<Result<(), EditError>, ProbeError> {
        if store.hash_kind() != self.hash {
            return Err(ProbeError::BadLine);
        }
        Ok(self.editor.remove_leaf(store, path))
    }

    fn write(
        &mut self,
        store: &mut Memory,
        protect: Option<Protect>,
    ) -> Result<Result<ObjectId, EditError>, ProbeError> {
        if store.hash_kind() != self.hash {
            return Err(ProbeError::BadLine);
        }
        Ok(self.editor.write(store, protect))
    }
}

/// The answer of `editor`.
pub fn answer(alloc: Global, fields: &[Vec<u8>]) -> Result<Vec<u8>, ProbeError> {
    let Some((kind, words)) = fields.split_first() else {
        return Err(ProbeError::BadLine);
    };
    let hash = hash_in(kind)?;
    let mut store = Memory::new(alloc, hash)?;
    let mut edited = Edited::new(alloc, hash)?;
    let mut answers = Vec::new(alloc);
    for step in words.split(|field| field.as_slice() == b";".as_slice()) {
        let answer = answer_edit(alloc, &mut store, &mut edited, step)?;
        push_answer(&mut answers, &answer)?;
    }
    Ok(answers)
}

fn answer_edit(
    alloc: Global,
    store: &mut Memory,
    edited: &mut Edited,
    step: &[Vec<u8>],
) -> Result<Vec<u8>, ProbeError> {
    let Some((call, fields)) = step.split_first() else {
        return Err(ProbeError::BadLine);
    };
    match word_in(call)? {
        "root" => take_root(alloc, store, edited, id_in(only(fields)?)?),
        "upsert" => upsert(alloc, store, edited, fields),
        "remove" => told(alloc, edited.remove(store, only(fields)?)?),
        "remove_leaf" => told(alloc, edited.remove_leaf(store, only(fields)?)?),
        "get" => shown_at(alloc, &edited.editor, only(fields)?),
        "write_trees" => write(alloc, store, edited, fields),
        "tree" => tree(alloc, store, fields),
        _ => answer_step(alloc, store, step),
    }
}

pub fn told(alloc: Global, answered: Result<(), EditError>) -> Result<Vec<u8>, ProbeError> {
    match answered {
        Ok(()) => word(alloc, "ok"),
        Err(error) => edit_error(alloc, &error),
    }
}

fn take_root(
    alloc: Global,
    store: &Memory,
    edited: &mut Edited,
    id: ObjectId,
) -> Result<Vec<u8>, ProbeError> {
    let Ok(Some((Kind::Tree, bytes))) = store.read(alloc, &id) else {
        return Err(ProbeError::BadLine);
    };
    let Ok(root) = TreeRef::from_bytes(alloc, bytes.as_slice(), edited.hash) else {
        return Err(ProbeError::BadLine);
    };
    edited.editor.set_root(root.to_owned()?)?;
    word(alloc, "ok")
}

fn upsert(
    alloc: Global,
    store: &Memory,
    edited: &mut Edited,
    words: &[Vec<u8>],
) -> Result<Vec<u8>, ProbeError> {
    let [mode, path, id] = words else {
        return Err(ProbeError::BadLine);
    };
    told(
        alloc,
        edited.upsert(store, path, kind_in(mode)?, id_in(id)?)?,
    )
}

pub fn kind_in(mode: &[u8]) -> Result<EntryKind, ProbeError> {
    match word_in(mode)? {
        "40000" => Ok(EntryKind::Tree),
        "100644" => Ok(EntryKind::Blob),
        "100755" => Ok(EntryKind::BlobExecutable),
        "120000" => Ok(EntryKind::Link),
        "160000" => Ok(EntryKind::Commit),
        _ => Err(ProbeError::BadLine),
    }
}

fn shown_at(alloc: Global, editor: &Editor, path: &[u8]) -> Result<Vec<u8>, ProbeError> {
    match editor.get(path) {
        Some(entry) => shown(alloc, entry),
        None => word(alloc, "none"),
    }
}

pub fn shown(alloc: Global, entry: EntryView<'_>) -> Result<Vec<u8>, ProbeError> {
    let mode = entry.mode.value();
    let mut answer = format!(in alloc; "{mode:o}")?.into_bytes();
    push_field(&mut answer, entry.filename.as_bytes())?;
    push_id(&mut answer, &entry.oid)?;
    Ok(answer)
}

/// Writes the editor's trees. Without words no protections are given.
fn write(
    alloc: Global,
    store: &mut Memory,
    edited: &mut Edited,
    words: &[Vec<u8>],
) -> Result<Vec<u8>, ProbeError> {
    let protect = if words.is_empty() {
        None
    } else {
        Some(protect_in(words)?)
    };
    told_root(alloc, edited.write(store, protect)?)
}

pub fn told_root(
    alloc: Global,
    written: Result<ObjectId, EditError>,
) -> Result<Vec<u8>, ProbeError> {
    match written {
        Ok(root) => hex(alloc, &root),
        Err(error) => edit_error(alloc, &error),
    }
}
