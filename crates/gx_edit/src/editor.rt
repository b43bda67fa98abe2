//! Trees edited by path, of which only the directories on the paths are read.

ghost use Rattle.gx_edit.specs.Nodes.{places_of, AreLinked};

mod changes;
mod entry_view;
mod item;
mod load;
mod marks;
mod nodes;
mod paths;
mod plan;
mod removals;
mod rows;
mod write;

use crate::EditError;
use crate::path::split_first_name;
use crate::stored_tree::read_tree;
pub use entry_view::EntryView;
use gx_hash::{HashKind, NoMemory, ObjectId};
use gx_object::{EntryKind, EntryMode, Tree};
use gx_store::Objects;
use item::Item;
use load::node_of;
use nodes::{Node, entry_in};
use paths::{follow, put_path};
use removals::drop_path;
use std::alloc::Global;

/// A tree that is being edited. Its root is loaded, and each directory that an edit's path ran through; all others
/// stay as they are, and are not read.
///
/// A directory that an edit replaced or took away keeps its memory until the editor takes another root: so the memory
/// is in proportion to all that was loaded since.
#[derive(Drop)]
pub struct Editor {
    nodes: Vec<Node>,
    hash: HashKind,
    alloc: Global,
    ghost links: { AreLinked (places_of nodes.items) },
}

impl Editor {
    ghost use Rattle.std.specs.Prelude.{◌≡◌, false, IfOk, IfErr, OnOk, OnErr, option_map};
    ghost use Rattle.gx_edit.specs.Editor.{view_of, hash_of, entry_of, seen_at, upserted_entry, IsTreeView};
    ghost use Rattle.gx_edit.specs.OpenTree.{LoadCauses};
    ghost use Rattle.gx_edit.specs.EditorCauses.{EditCauses, LoadsAll, RemoveLeafCauses, IsTreeAt};
    ghost use Rattle.gx_edit.specs.Path.{components};
    ghost use Rattle.gx_edit.specs.PathList.{has_empty_name};
    ghost use Rattle.gx_edit.specs.View.{WhereLoaded, names_of, only, removed};

    /// An editor of a tree whose ids are of the kind.
    pub fn new(alloc: Global, root: Tree, hash: HashKind) -> Result<Editor, NoMemory>
        ensures kind { IfOk result (λ editor. hash_of editor ≡ hash) }
        ensures view { IfOk result (λ editor. view_of editor ≡ only (names_of root.entries)) }
    {
        let mut nodes = Vec::new(alloc);
        nodes.push(node_of(alloc, root)?)?;
        Ok(Editor { nodes, hash, alloc })
    }

    /// An editor of the tree that is stored at an id. Nothing below its root is read.
    ///
    /// # Errors
    /// `FindExistingObject`, `ObjectKind` and `Decode` for the tree; `Store` and `NoMemory`.
    pub fn open<S: Objects>(alloc: Global, store: &S, id: ObjectId) -> Result<Editor, EditError>
        ensures ok { IfOk result (λ editor. IsTreeView (S.state store.now) id (view_of editor)) }
        ensures kind { IfOk result (λ editor. hash_of editor ≡ (S.state store.now).hash) }
        ensures causes { IfErr result (LoadCauses (S.state store.now) id) }
    {
        let hash = store.hash_kind();
        let root = read_tree(alloc, store, hash, id)?;
        Ok(Editor::new(alloc, root, hash)?)
    }

    /// Takes another root. All edits are forgotten.
    pub fn set_root(&mut self, root: Tree) -> Result<(), NoMemory>
        ensures ok { OnOk result (view_of self.new ≡ only (names_of root.entries)) }
        ensures leaves { OnErr result (view_of self.new ≡ view_of self.old) }
        ensures kind { hash_of self.new ≡ hash_of self.old }
    {
        let node = node_of(self.alloc, root)?;
        let mut nodes = Vec::with_capacity(self.alloc, 1)?;
        nodes.push(node)?;
        self.nodes = nodes;
        Ok(())
    }

    /// Puts an entry at a path, in place of what stood there, which is forgotten with all below it. A leaf on the way
    /// becomes a directory. An entry with the null id is a placeholder, which is not written; a directory's is a new,
    /// empty one.
    ///
    /// # Errors
    /// `EmptyPathComponent`; `FindExistingObject`, `ObjectKind` and `Decode` for a directory on the way that is not
    /// loaded; `Store` and `NoMemory`. Nothing is changed then.
    pub fn upsert<S: Objects>(
        &mut self,
        store: &S,
        path: &[u8],
        kind: EntryKind,
        id: ObjectId,
    ) -> Result<(), EditError>
        requires { hash_of self.old ≡ (S.state store.now).hash }
        ensures ok { OnOk result (WhereLoaded (S.state store.now) (λ load. view_of self.new
            ≡ upserted_entry (S.state store.now).hash load (view_of self.old) (components path.now) kind id)) }
        ensures named { OnOk result (has_empty_name (components path.now) ≡ false) }
        ensures loads { OnOk result (LoadsAll (S.state store.now) (view_of self.old) (components path.now)) }
        ensures leaves { OnErr result (view_of self.new ≡ view_of self.old) }
        ensures causes { IfErr result (EditCauses (S.state store.now) (view_of self.old) (components path.now)) }
        ensures kind { hash_of self.new ≡ hash_of self.old }
    {
        gx_object::laws::bytes_are_read_in_one_way();
        let item = Item {
            mode: EntryMode::from(kind),
            id,
        };
        put_path(self.alloc, store, self.hash, &mut self.nodes, path, item)
    }

    /// Takes away what stands at a path, with all below it. An absent path is no error.
    ///
    /// # Errors
    /// As for `upsert`.
    pub fn remove<S: Objects>(&mut self, store: &S, path: &[u8]) -> Result<(), EditError>
        requires { hash_of self.old ≡ (S.state store.now).hash }
        ensures ok { OnOk result (WhereLoaded (S.state store.now) (λ load. view_of self.new
            ≡ removed (S.state store.now).hash load (view_of self.old) (components path.now))) }
        ensures named { OnOk result (has_empty_name (components path.now) ≡ false) }
        ensures loads { OnOk result (LoadsAll (S.state store.now) (view_of self.old) (components path.now)) }
        ensures leaves { OnErr result (view_of self.new ≡ view_of self.old) }
        ensures causes { IfErr result (EditCauses (S.state store.now) (view_of self.old) (components path.now)) }
        ensures kind { hash_of self.new ≡ hash_of self.old }
    {
        gx_object::laws::bytes_are_read_in_one_way();
        drop_path(self.alloc, store, self.hash, &mut self.nodes, path, false)
    }

    /// Takes away the leaf at a path. An absent path is no error.
    ///
    /// # Errors
    /// `IsTree` where a directory stands there; else as for `upsert`.
    pub fn remove_leaf<S: Objects>(&mut self, store: &S, path: &[u8]) -> Result<(), EditError>
        requires { hash_of self.old ≡ (S.state store.now).hash }
        ensures ok { OnOk result (WhereLoaded (S.state store.now) (λ load. view_of self.new
            ≡ removed (S.state store.now).hash load (view_of self.old) (components path.now))) }
        ensures named { OnOk result (has_empty_name (components path.now) ≡ false) }
        ensures loads { OnOk result (LoadsAll (S.state store.now) (view_of self.old) (components path.now)) }
        ensures leaf { OnOk result (IsTreeAt (S.state store.now) (view_of self.old) (components path.now) false) }
        ensures leaves { OnErr result (view_of self.new ≡ view_of self.old) }
        ensures causes { IfErr result (RemoveLeafCauses (S.state store.now) (view_of self.old) (components path.now)) }
        ensures kind { hash_of self.new ≡ hash_of self.old }
    {
        gx_object::laws::bytes_are_read_in_one_way();
        drop_path(self.alloc, store, self.hash, &mut self.nodes, path, true)
    }

    /// The entry at a path, where the directory that holds it is loaded. The empty path gives none.
    pub fn get(&self, path: &[u8]) -> Option<EntryView<'_>>
        ensures ok { option_map entry_of result ≡ seen_at (view_of self.now) path.now }
    {
        if path.is_empty() {
            return None;
        }
        let (at, rest) = follow(&self.nodes, path);
        match split_first_name(rest) {
            Some(_) => None,
            None => entry_in(&self.nodes, at, rest),
        }
    }
}
