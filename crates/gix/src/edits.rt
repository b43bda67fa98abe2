//! The second stage: the edits, made on the base. No blob is stored yet.

ghost use Rattle.std.specs.Prelude.{◌≡◌, ◌≢◌, ◌++◌, ◌∷◌, [], false, OnOk, IfOk, IfErr};
ghost use Rattle.gx_hash.specs.HashKind.{kind_of};
ghost use Rattle.gx_hash.specs.ObjectId.{null_id};
ghost use Rattle.gx_object.specs.Mode.{mode_of};
ghost use Rattle.gx_edit.specs.Editor.{hash_of, view_of as directories_of};
ghost use Rattle.gx_edit.specs.PathMap.{blob_id, file_mode};
ghost use Rattle.gx_edit.specs.declared.error.EditError.TheVariants as edit_error;
ghost use Rattle.gix.specs.CommitRequest.{HasModuleId, HaveModuleIds};
ghost use Rattle.gix.specs.Trees.{has_gap};
ghost use Rattle.gix.specs.Stages.{IsMadeBy, IsPutAt, IsEdited, IsToldAs, EditRefused, EditRefusedAt, EditsCauses, blob_ids};

use crate::CommitEditsError;
use crate::error::lifted;
use gx_edit::{EditError, Editor, PathEdit};
use gx_hash::{ObjectId, object_id};
use gx_object::{EntryKind, Kind};
use gx_store::Objects;
use std::alloc::Global;

/// A tree that edits were made on.
#[derive(Drop)]
pub(crate) struct Edited {
    pub(crate) editor: Editor,
    /// The ids of the edits' blobs, in their order.
    pub(crate) blobs: Vec<ObjectId>,
}

/// Makes the edits one after another.
pub(crate) fn make_edits<S: Objects>(
    alloc: Global,
    store: &S,
    base: Editor,
    edits: &[PathEdit],
) -> Result<Edited, CommitEditsError>
    requires modules { HaveModuleIds edits.now }
    requires hash { hash_of base ≡ (S.state store.now).hash }
    ensures ok { IfOk result (IsEdited (S.state store.now) (directories_of base) edits.now) }
    ensures err { IfErr result (EditsCauses (S.state store.now) (directories_of base) edits.now) }
{
    let mut editor = base;
    let mut blobs = Vec::new(alloc);
    for edit in edits {
        if let Err(refusal) = make_edit(store, &mut editor, &mut blobs, edit) {
            return Err(refused(edit, refusal));
        }
    }
    Ok(Edited { editor, blobs })
}

/// The refusal of an edit, by its path where that has an empty component.
fn refused(edit: &PathEdit, refusal: EditError) -> CommitEditsError
    requires { refusal ≢ edit_error.IsTree }
    ensures { IsToldAs edit.now refusal result }
{
    match refusal {
        EditError::EmptyPathComponent => gap_of(edit),
        refusal => lifted(refusal),
    }
}

fn gap_of(edit: &PathEdit) -> CommitEditsError
    ensures { IsToldAs edit.now edit_error.EmptyPathComponent result }
{
    match edit.path().try_clone() {
        Ok(path) => CommitEditsError::EmptyPathComponent { path },
        Err(_) => CommitEditsError::NoMemory,
    }
}

/// Makes an edit, and keeps the id of its blob.
fn make_edit<S: Objects>(
    store: &S,
    editor: &mut Editor,
    blobs: &mut Vec<ObjectId>,
    edit: &PathEdit,
) -> Result<(), EditError>
    requires module { HasModuleId edit.now }
    requires hash { hash_of editor.old ≡ (S.state store.now).hash }
    ensures made { OnOk result (IsMadeBy (S.state store.now) (directories_of editor.old) edit.now
        (directories_of editor.new)) }
    ensures blobs { OnOk result (blobs.new.items
        ≡ blobs.old.items ++ blob_ids (S.state store.now).hash (edit.now ∷ [])) }
    ensures named { OnOk result (has_gap edit.now ≡ false) }
    ensures kind { hash_of editor.new ≡ hash_of editor.old }
    ensures err { IfErr result (EditRefused (S.state store.now) (directories_of editor.old) edit.now) }
{
    let path = edit.path().as_slice();
    match edit {
        PathEdit::File {
            bytes,
            executable,
            ..
        } => put_blob(
            store,
            editor,
            blobs,
            path,
            bytes.as_slice(),
            kind_of_file(*executable),
        ),
        PathEdit::Link { bytes, .. } => put_blob(
            store,
            editor,
            blobs,
            path,
            bytes.as_slice(),
            EntryKind::Link,
        ),
        PathEdit::Module { id, .. } => editor.upsert(store, path, EntryKind::Commit, *id),
        PathEdit::Remove { .. } => editor.remove(store, path),
    }
}

fn kind_of_file(executable: bool) -> EntryKind
    ensures { mode_of result ≡ file_mode executable }
{
    if executable {
        EntryKind::BlobExecutable
    } else {
        EntryKind::Blob
    }
}

/// Puts a blob at a path. The null id is a placeholder's, and nobody knows bytes whose digest that is.
fn put_blob<S: Objects>(
    store: &S,
    editor: &mut Editor,
    blobs: &mut Vec<ObjectId>,
    path: &[u8],
    bytes: &[u8],
    kind: EntryKind,
) -> Result<(), EditError>
    requires hash { hash_of editor.old ≡ (S.state store.now).hash }
    ensures own { let id = blob_id (S.state store.now).hash bytes.now in OnOk result (id ≢ null_id (kind_of id)) }
    ensures put { OnOk result (IsPutAt (S.state store.now) (directories_of editor.old) path.now kind
        (blob_id (S.state store.now).hash bytes.now) (directories_of editor.new)) }
    ensures blobs { OnOk result (blobs.new.items ≡ blobs.old.items ++ blob_id (S.state store.now).hash bytes.now ∷ []) }
    ensures kind { hash_of editor.new ≡ hash_of editor.old }
    ensures err { IfErr result (EditRefusedAt (S.state store.now) (directories_of editor.old) path.now) }
{
    let id = object_id(store.hash_kind(), Kind::Blob.as_bytes(), bytes);
    if id.is_null() {
        return Err(EditError::NoMemory);
    }
    editor.upsert(store, path, kind, id)?;
    blobs.push(id)?;
    Ok(())
}
