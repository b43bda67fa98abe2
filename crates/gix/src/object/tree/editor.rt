//! Edits of a tree of a repository.

ghost use Rattle.std.specs.Prelude.{◌≡◌};
ghost use Rattle.gix.specs.TreeEditor.{told_as};

use super::EditTreeError;
use crate::Repository;
use gx_edit::{EditError, EntryView};
use gx_hash::ObjectId;
use gx_object::{EntryKind, Kind};
use gx_rules::Protect;
use gx_store::Store;
use std::alloc::Global;

/// A tree of a repository that is being edited. Each call is that of `gx_edit`'s editor over the repository's store.
///
/// ```
/// let mut editor = repo.edit_tree(alloc, tree)?;
/// editor.upsert(&repo, b"docs/README", EntryKind::Blob, blob)?;
/// let id = editor.write(&mut repo)?;
/// ```
#[derive(Drop)]
pub struct Editor {
    inner: gx_edit::Editor,
    protect: Protect,
}

impl Editor {
    ghost use Rattle.std.specs.Prelude.{◌≡◌, false, Some, IfOk, IfErr, OnOk, OnErr, option_map};
    ghost use Rattle.gx_edit.specs.Editor.{view_of, hash_of, entry_of, seen_at, upserted_entry};
    ghost use Rattle.gx_edit.specs.EditorCauses.{EditCauses, LoadsAll, RemoveLeafCauses, IsTreeAt};
    ghost use Rattle.gx_edit.specs.EditorWriting.{WritesView, KeepsRoot, RepresentsView, WriteViewCauses};
    ghost use Rattle.gx_edit.specs.Path.{components};
    ghost use Rattle.gx_edit.specs.PathList.{has_empty_name};
    ghost use Rattle.gx_edit.specs.View.{WhereLoaded, removed};
    ghost use Rattle.gix.specs.Repository.{store_of, settings_of};
    ghost use Rattle.gix.specs.TreeEditor.{detached, protect_of};

    /// Puts an entry at a path, in place of what stood there. See `gx_edit`'s `upsert`.
    pub fn upsert<S: Store>(
        &mut self,
        repo: &Repository<S>,
        path: &[u8],
        kind: EntryKind,
        id: ObjectId,
    ) -> Result<(), EditError>
        requires { hash_of (detached self.old) ≡ (S.state (store_of repo.now)).hash }
        ensures ok { OnOk result (WhereLoaded (S.state (store_of repo.now)) (λ load. view_of (detached self.new)
            ≡ upserted_entry (S.state (store_of repo.now)).hash load (view_of (detached self.old))
            (components path.now) kind id)) }
        ensures named { OnOk result (has_empty_name (components path.now) ≡ false) }
        ensures loads { OnOk result
            (LoadsAll (S.state (store_of repo.now)) (view_of (detached self.old)) (components path.now)) }
        ensures leaves { OnErr result (view_of (detached self.new) ≡ view_of (detached self.old)) }
        ensures causes { IfErr result
            (EditCauses (S.state (store_of repo.now)) (view_of (detached self.old)) (components path.now)) }
        ensures kind { hash_of (detached self.new) ≡ hash_of (detached self.old) }
        ensures protect { protect_of self.new ≡ protect_of self.old }
    {
        self.inner.upsert(&repo.store, path, kind, id)
    }

    /// Takes away what stands at a path, with all below it. See `gx_edit`'s `remove`.
    pub fn remove<S: Store>(&mut self, repo: &Repository<S>, path: &[u8]) -> Result<(), EditError>
        requires { hash_of (detached self.old) ≡ (S.state (store_of repo.now)).hash }
        ensures ok { OnOk result (WhereLoaded (S.state (store_of repo.now)) (λ load. view_of (detached self.new)
            ≡ removed (S.state (store_of repo.now)).hash load (view_of (detached self.old)) (components path.now))) }
        ensures named { OnOk result (has_empty_name (components path.now) ≡ false) }
        ensures loads { OnOk result
            (LoadsAll (S.state (store_of repo.now)) (view_of (detached self.old)) (components path.now)) }
        ensures leaves { OnErr result (view_of (detached self.new) ≡ view_of (detached self.old)) }
        ensures causes { IfErr result
            (EditCauses (S.state (store_of repo.now)) (view_of (detached self.old)) (components path.now)) }
        ensures kind { hash_of (detached self.new) ≡ hash_of (detached self.old) }
        ensures protect { protect_of self.new ≡ protect_of self.old }
    {
        self.inner.remove(&repo.store, path)
    }

    /// Takes away the leaf at a path. See `gx_edit`'s `remove_leaf`.
    pub fn remove_leaf<S: Store>(
        &mut self,
        repo: &Repository<S>,
        path: &[u8],
    ) -> Result<(), EditError>
        requires { hash_of (detached self.old) ≡ (S.state (store_of repo.now)).hash }
        ensures ok { OnOk result (WhereLoaded (S.state (store_of repo.now)) (λ load. view_of (detached self.new)
            ≡ removed (S.state (store_of repo.now)).hash load (view_of (detached self.old)) (components path.now))) }
        ensures named { OnOk result (has_empty_name (components path.now) ≡ false) }
        ensures loads { OnOk result
            (LoadsAll (S.state (store_of repo.now)) (view_of (detached self.old)) (components path.now)) }
        ensures leaf { OnOk result
            (IsTreeAt (S.state (store_of repo.now)) (view_of (detached self.old)) (components path.now) false) }
        ensures leaves { OnErr result (view_of (detached self.new) ≡ view_of (detached self.old)) }
        ensures causes { IfErr result
            (RemoveLeafCauses (S.state (store_of repo.now)) (view_of (detached self.old)) (components path.now)) }
        ensures kind { hash_of (detached self.new) ≡ hash_of (detached self.old) }
        ensures protect { protect_of self.new ≡ protect_of self.old }
    {
        self.inner.remove_leaf(&repo.store, path)
    }

    /// The entry at a path, where the directory that holds it is loaded.
    pub fn get(&self, path: &[u8]) -> Option<EntryView<'_>>
        ensures { option_map entry_of result ≡ seen_at (view_of (detached self.now)) path.now }
    {
        self.inner.get(path)
    }

    /// Stores what is to be written, and answers the root. It refuses by the protections that the repository had when
    /// the editor was made. See `gx_edit`'s `write`.
    pub fn write<S: Store>(&mut self, repo: &mut Repository<S>) -> Result<ObjectId, EditError>
        requires { hash_of (detached self.old) ≡ (S.state (store_of repo.old)).hash }
        ensures ok { IfOk result (λ id. WritesView (view_of (detached self.old)) (Some (protect_of self.old))
            (S.state (store_of repo.old)) id (S.state (store_of repo.new))) }
        ensures view { OnOk result
            (KeepsRoot (hash_of (detached self.old)) (view_of (detached self.old)) (view_of (detached self.new))) }
        ensures leaves { OnErr result (view_of (detached self.new) ≡ view_of (detached self.old)) }
        ensures represents { IfOk result (λ id. RepresentsView (view_of (detached self.old))
            (S.state (store_of repo.old)) id (S.state (store_of repo.new))) }
        ensures causes { IfErr result (WriteViewCauses (view_of (detached self.old)) (Some (protect_of self.old))
            (S.state (store_of repo.old)) (S.state (store_of repo.new))) }
        ensures kind { hash_of (detached self.new) ≡ hash_of (detached self.old) }
        ensures protect { protect_of self.new ≡ protect_of self.old }
        ensures settings { settings_of repo.new ≡ settings_of repo.old }
    {
        self.inner.write(&mut repo.store, Some(self.protect))
    }

    /// The editor of `gx_edit`, which takes a store and protections at each call.
    pub fn detach(self) -> gx_edit::Editor
        ensures { result ≡ detached self }
    {
        self.inner
    }
}

/// The refusal of a tree that is not loaded. There are no others.
fn told(refusal: EditError) -> EditTreeError
    ensures { result ≡ told_as refusal }
{
    match refusal {
        EditError::FindExistingObject { id } => EditTreeError::NotFound { id },
        EditError::ObjectKind { id, actual } => EditTreeError::ObjectKind {
            id,
            expected: Kind::Tree,
            actual,
        },
        EditError::Decode { id } => EditTreeError::Decode { id },
        EditError::Store { what } => EditTreeError::Store { what },
        _ => EditTreeError::NoMemory,
    }
}

impl<S: Store> Repository<S> {
    ghost use Rattle.std.specs.Prelude.{◌≡◌, IfOk, IfErr};
    ghost use Rattle.gx_edit.specs.Editor.{view_of, hash_of, IsTreeView};
    ghost use Rattle.gix.specs.Repository.{store_of, settings_of};
    ghost use Rattle.gix.specs.TreeEditor.{detached, protect_of, EditTreeCauses};

    /// An editor of the tree at an id, with the protections of the settings. Of the tree its root is read.
    ///
    /// # Errors
    /// `NotFound`, `ObjectKind` and `Decode` for the tree; `Store` and `NoMemory`.
    pub fn edit_tree(&self, alloc: Global, id: ObjectId) -> Result<Editor, EditTreeError>
        ensures ok { IfOk result (λ editor. IsTreeView (S.state (store_of self.now)) id (view_of (detached editor))) }
        ensures kind { IfOk result (λ editor. hash_of (detached editor) ≡ (S.state (store_of self.now)).hash) }
        ensures protect { IfOk result (λ editor. protect_of editor ≡ (settings_of self.now).protect) }
        ensures causes { IfErr result (EditTreeCauses (S.state (store_of self.now)) id) }
    {
        match gx_edit::Editor::open(alloc, &self.store, id) {
            Ok(inner) => Ok(Editor {
                inner,
                protect: self.settings.protect,
            }),
            Err(refusal) => Err(told(refusal)),
        }
    }
}
