//! Rows of editors of a repository's trees.
//!
//! `edit_tree KIND STEP ; STEP ..` answers each step on a new repository in memory and an editor of its empty tree.
//! `root ID` edits the tree at an id in its place; `upsert MODE PATH ID`, `remove PATH`, `remove_leaf PATH`, `get PATH`
//! and `write_trees` are its calls. `detach` writes the trees without protections, by the editor that is left without
//! the repository, and edits the empty tree then. `protect FLAG ..` changes the settings of the repository. Steps of
//! `store` rows are steps here too, and `tree` as in rows of path maps.
ghost use Rattle.std.specs.Prelude.{◌≡◌};
ghost use Rattle.gx_edit.specs.Editor.{hash_of};
ghost use Rattle.gix.specs.TreeEditor.{detached};

use crate::editors::{kind_in, shown, told, told_root};
use crate::faults::edit_tree_error;
use crate::path_maps::{protect_in, tree};
use crate::store::{answer_step, only, push_answer};
use crate::values::{hash_in, id_in, word_in};
use gix::object::tree::{EditTreeError, Editor};
use gix::{Repository, Settings};
use gx_edit::EditError;
use gx_hash::{HashKind, ObjectId};
use gx_object::EntryKind;
use gx_store::{Memory, Objects};
use probe_rows::ProbeError;
use probe_rows::answers::word;
use std::alloc::Global;
use std::mem;

/// An editor and the kind of its ids.
#[derive(Drop)]
struct Edited {
    editor: Editor,
    hash: HashKind,
    ghost same: { hash_of (detached editor) ≡ hash },
}

impl Edited {
    fn open(
        alloc: Global,
        repo: &Repository<Memory>,
        id: ObjectId,
    ) -> Result<Edited, EditTreeError> {
        let editor = repo.edit_tree(alloc, id)?;
        let hash = repo.object_hash();
        Ok(Edited { editor, hash })
    }

    fn upsert(
        &mut self,
        repo: &Repository<Memory>,
        path: &[u8],
        kind: EntryKind,
        id: ObjectId,
    ) -> Result<Result<(), EditError>, ProbeError> {
        if repo.object_hash() != self.hash {
            return Err(ProbeError::BadLine);
        }
        Ok(self.editor.upsert(repo, path, kind, id))
    }

    fn remove(
        &mut self,
        repo: &Repository<Memory>,
        path: &[u8],
    ) -> Result<Result<(), EditError>, ProbeError> {
        if repo.object_hash() != self.hash {
            return Err(ProbeError::BadLine);
        }
        Ok(self.editor.remove(repo, path))
    }

    fn remove_leaf(
        &mut self,
        repo: &Repository<Memory>,
        path: &[u8],
    ) -> Result<Result<(), EditError>, ProbeError> {
        if repo.object_hash() != self.hash {
            return Err(ProbeError::BadLine);
        }
        Ok(self.editor.remove_leaf(repo, path))
    }

    fn write(
        &mut self,
        repo: &mut Repository<Memory>,
    ) -> Result<Result<ObjectId, EditError>, ProbeError> {
        if repo.object_hash() != self.hash {
            return Err(ProbeError::BadLine);
        }
        Ok(self.editor.write(repo))
    }

    /// Writes the trees without the repository, and without protections.
    fn write_detached(self, store: &mut Memory) -> Result<Result<ObjectId, EditError>, ProbeError> {
        if store.hash_kind() != self.hash {
            return Err(ProbeError::BadLine);
        }
        let mut editor = self.editor.detach();
        Ok(editor.write(store, None))
    }
}

/// The answer of `edit_tree`.
pub fn answer(alloc: Global, fields: &[Vec<u8>]) -> Result<Vec<u8>, ProbeError> {
    let Some((kind, words)) = fields.split_first() else {
        return Err(ProbeError::BadLine);
    };
    let store = Memory::new(alloc, hash_in(kind)?)?;
    let mut repo = Repository::new(store, Settings::new());
    let mut edited = edit_nothing(alloc, &repo)?;
    let mut answers = Vec::new(alloc);
    for step in words.split(|field| field.as_slice() == b";".as_slice()) {
        let answer = answer_edit(alloc, &mut repo, &mut edited, step)?;
        push_answer(&mut answers, &answer)?;
    }
    Ok(answers)
}

/// An editor of the empty tree.
fn edit_nothing(alloc: Global, repo: &Repository<Memory>) -> Result<Edited, ProbeError> {
    let nothing = ObjectId::empty_tree(repo.object_hash());
    match Edited::open(alloc, repo, nothing) {
        Ok(edited) => Ok(edited),
        Err(_) => Err(ProbeError::NoMemory),
    }
}

fn answer_edit(
    alloc: Global,
    repo: &mut Repository<Memory>,
    edited: &mut Edited,
    step: &[Vec<u8>],
) -> Result<Vec<u8>, ProbeError> {
    let Some((call, fields)) = step.split_first() else {
        return Err(ProbeError::BadLine);
    };
    match word_in(call)? {
        "root" => take_root(alloc, repo, edited, fields),
        "upsert" => upsert(alloc, repo, edited, fields),
        "remove" => told(alloc, edited.remove(repo, only(fields)?)?),
        "remove_leaf" => told(alloc, edited.remove_leaf(repo, only(fields)?)?),
        "get" => shown_at(alloc, &edited.editor, only(fields)?),
        "write_trees" => told_root(alloc, edited.write(repo)?),
        "detach" => detach(alloc, repo, edited),
        "protect" => protect(alloc, repo, fields),
        _ => on_store(alloc, repo, step),
    }
}

fn take_root(
    alloc: Global,
    repo: &Repository<Memory>,
    edited: &mut Edited,
    fields: &[Vec<u8>],
) -> Result<Vec<u8>, ProbeError> {
    let id = id_in(only(fields)?)?;
    match Edited::open(alloc, repo, id) {
        Ok(opened) => {
            *edited = opened;
            word(alloc, "ok")
        }
        Err(error) => edit_tree_error(alloc, &error),
    }
}

fn upsert(
    alloc: Global,
    repo: &Repository<Memory>,
    edited: &mut Edited,
    words: &[Vec<u8>],
) -> Result<Vec<u8>, ProbeError> {
    let [mode, path, id] = words else {
        return Err(ProbeError::BadLine);
    };
    let kind = kind_in(mode)?;
    let id = id_in(id)?;
    told(alloc, edited.upsert(repo, path, kind, id)?)
}

fn shown_at(alloc: Global, editor: &Editor, path: &[u8]) -> Result<Vec<u8>, ProbeError> {
    match editor.get(path) {
        Some(entry) => shown(alloc, entry),
        None => word(alloc, "none"),
    }
}

fn detach(
    alloc: Global,
    repo: &mut Repository<Memory>,
    edited: &mut Edited,
) -> Result<Vec<u8>, ProbeError> {
    let nothing = edit_nothing(alloc, repo)?;
    let detached = mem::replace(edited, nothing);
    let mut store = take_store(alloc, repo)?;
    let written = detached.write_detached(&mut store)?;
    give_store(repo, store);
    told_root(alloc, written)
}

fn protect(
    alloc: Global,
    repo: &mut Repository<Memory>,
    words: &[Vec<u8>],
) -> Result<Vec<u8>, ProbeError> {
    let mut settings = Settings::new();
    settings.protect = protect_in(words)?;
    repo.set_settings(settings);
    word(alloc, "ok")
}

/// The answer of a step on the repository's store.
pub fn on_store(
    alloc: Global,
    repo: &mut Repository<Memory>,
    step: &[Vec<u8>],
) -> Result<Vec<u8>, ProbeError> {
    let mut store = take_store(alloc, repo)?;
    let answer = answer_on(alloc, &mut store, step)?;
    give_store(repo, store);
    Ok(answer)
}

fn answer_on(alloc: Global, store: &mut Memory, step: &[Vec<u8>]) -> Result<Vec<u8>, ProbeError> {
    match step.split_first() {
        Some((call, fields)) if word_in(call)? == "tree" => tree(alloc, store, fields),
        _ => answer_step(alloc, store, step),
    }
}

/// The store of a repository, which has an empty one until it is given back.
fn take_store(alloc: Global, repo: &mut Repository<Memory>) -> Result<Memory, ProbeError> {
    let empty = Memory::new(alloc, repo.object_hash())?;
    let settings = repo.set_settings(Settings::new());
    let other = Repository::new(empty, settings);
    Ok(mem::replace(repo, other).into_store())
}

fn give_store(repo: &mut Repository<Memory>, store: Memory) {
    let settings = repo.set_settings(Settings::new());
    *repo = Repository::new(store, settings);
}
