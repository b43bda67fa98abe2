//! What is read of a tree. No further object is.

ghost use Rattle.std.specs.Prelude.{◌≡◌, Some, option_map};
ghost use Rattle.gx_object.specs.TreeSpelling.{entry_of};
ghost use Rattle.gix.specs.TreeEntries.{IsFirstNamed};

use super::{EntryRef, Iter};
use crate::{Repository, Tree};
use gx_hash::{Bytes, ObjectId};
use gx_object::{DecodeError, TreeRef, TreeRefIter};
use std::alloc::Global;

impl<'repo, S> Tree<'repo, S> {
    ghost use Rattle.std.specs.Prelude.{◌≡◌, List, Some, IfOk, IfErr, IfSome, MatchResult, map, option_map};
    ghost use Rattle.std.specs.List.{AllByRecursion};
    ghost use Rattle.gx_hash.specs.HashKind.{IsOfKind, kind_of};
    ghost use Rattle.gx_object.specs.TreeSpelling.{SpellsTree, TreeCauses, entry_of};
    ghost use Rattle.gx_object.specs.declared.decode.DecodeError.TheVariants.{NoMemory as no_memory};
    ghost use Rattle.gx_object.specs.declared.kind.Kind.TheVariants as kind;
    ghost use Rattle.gx_object.specs.declared.tree.Entry.{Entry};
    ghost use Rattle.gix.specs.AttachedObjects.{attached, of_tree, text_of};
    ghost use Rattle.gix.specs.TreeEntries.{IsFirstNamed, entries_to_give, of_entry};

    /// The tree of these bytes. Nothing is read.
    pub fn from_data(id: ObjectId, bytes: Bytes, repo: &'repo Repository<S>) -> Tree<'repo, S>
        ensures { of_tree result ≡ attached id kind.Tree bytes repo.now }
    {
        Tree { id, bytes, repo }
    }

    /// The whole tree. Its names are slices of the bytes.
    ///
    /// # Errors
    /// `Decode` for the place where bytes that spell no tree go wrong; `NoMemory`.
    pub fn decode(&self, alloc: Global) -> Result<TreeRef<'_>, DecodeError>
        ensures ok { IfOk result (λ tree.
            SpellsTree (kind_of self.now.id) self.now.bytes (map entry_of tree.entries)) }
        ensures kind { IfOk result (λ tree. AllByRecursion (λ e. IsOfKind (kind_of self.now.id) e.oid) tree.entries) }
        ensures causes { IfErr result (TreeCauses (kind_of self.now.id) self.now.bytes) }
        ensures only { (entries : List Entry) → SpellsTree (kind_of self.now.id) self.now.bytes entries
            → MatchResult result (λ tree. map entry_of tree.entries ≡ entries) (λ e. e ≡ no_memory) }
    {
        TreeRef::from_bytes(alloc, self.bytes.as_slice(), self.id.kind())
    }

    /// The entries, one by one, and the error where the bytes go wrong.
    pub fn iter(&self) -> Iter<'_, 'repo, S>
        ensures { entries_to_give result
            ≡ (record { text = text_of (of_tree self.now); given = Some 0 }, (of_tree self.now).repository) }
    {
        Iter {
            inner: self.entries(),
            repo: self.repo,
        }
    }

    /// The first entry of the name, if one comes before any error.
    pub fn find_entry(&self, name: &[u8]) -> Option<EntryRef<'repo, '_, S>>
        ensures found { IsFirstNamed (text_of (of_tree self.now)) name.now
            (option_map (λ e. (of_entry e).entry) result) }
        ensures repository { IfSome result (λ e. (of_entry e).repository ≡ (of_tree self.now).repository) }
    {
        match first_named(self.entries(), name) {
            Some(inner) => Some(EntryRef {
                inner,
                repo: self.repo,
            }),
            None => None,
        }
    }

    /// The entries without the repository.
    fn entries(&self) -> TreeRefIter<'_>
        ensures { result ≡ record { text = text_of (of_tree self.now); given = Some 0 } }
    {
        TreeRefIter::from_bytes(self.bytes.as_slice(), self.id.kind())
    }
}

/// The first of the entries with this name, if one comes before any error.
fn first_named<'a>(entries: TreeRefIter<'a>, name: &[u8]) -> Option<gx_object::EntryRef<'a>>
    requires { entries.given ≡ Some 0 }
    ensures { IsFirstNamed entries.entry.text name.now (option_map entry_of result) }
{
    for entry in entries {
        let Ok(entry) = entry else {
            return None;
        };
        if entry.filename.as_bytes() == name {
            return Some(entry);
        }
    }
    None
}
