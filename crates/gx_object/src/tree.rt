//! Trees: their entries, and the modes of these.
ghost use Rattle.std.specs.Prelude.{◌≡◌, ◌||◌, ◌↔◌, ◌⊎◌, IsTrue};
ghost use Rattle.gx_object.specs.Mode.{mode_of, kind_of_mode, is_tree_mode, entry_kind_name};
ghost use Rattle.gx_object.specs.Tree.{octal_of};

mod decode;
mod iter;
mod write;

use crate::Entries;
pub use decode::{EntryRef, TreeRef};
use gx_hash::{Bytes, ObjectId};
pub use iter::TreeRefIter;
pub use write::{push_entry, push_tree};

/// What an entry of a tree can be.
#[derive(Clone, Copy, Debug, PartialEq, Eq, PartialOrd, Ord, Hash)]
pub enum EntryKind {
    Tree,
    Blob,
    BlobExecutable,
    Link,
    /// A commit of another repository: a submodule.
    Commit,
}

impl EntryKind {
    /// The mode of such an entry in octal, as a tree has it.
    pub fn as_octal_str(self) -> &'static str
        ensures { result.now ≡ octal_of (mode_of self) }
    {
        match self {
            EntryKind::Tree => "40000",
            EntryKind::Blob => "100644",
            EntryKind::BlobExecutable => "100755",
            EntryKind::Link => "120000",
            EntryKind::Commit => "160000",
        }
    }
}

/// The mode of an entry of a tree, as Git writes it in octal.
#[derive(Clone, Copy, Debug, PartialEq, Eq, PartialOrd, Ord, Hash)]
pub struct EntryMode {
    pub value: u16,
}

impl EntryMode {
    pub fn value(self) -> u16
        ensures { result ≡ self.value }
    {
        self.value
    }

    /// The kind that the mode's file type and execute bit say.
    pub fn kind(self) -> EntryKind
        ensures { result ≡ kind_of_mode self.value }
    {
        match self.value & 0o170000 {
            0o040000 => EntryKind::Tree,
            0o100000 if self.value & 0o100 == 0 => EntryKind::Blob,
            0o100000 => EntryKind::BlobExecutable,
            0o120000 => EntryKind::Link,
            _ => EntryKind::Commit,
        }
    }

    /// What a listing calls the entry.
    pub fn as_str(self) -> &'static str
        ensures { result.now ≡ entry_kind_name (kind_of_mode self.value) }
    {
        match self.kind() {
            EntryKind::Tree => "tree",
            EntryKind::Blob => "blob",
            EntryKind::BlobExecutable => "exe",
            EntryKind::Link => "link",
            EntryKind::Commit => "commit",
        }
    }

    pub fn is_tree(self) -> bool
        ensures { result ≡ is_tree_mode self.value }
    {
        self.value & 0o170000 == 0o040000
    }

    /// Whether the entry is a file, executable or not.
    pub fn is_blob(self) -> bool
        ensures { IsTrue result
            ↔ ((kind_of_mode self.value ≡ EntryKind.Blob) ⊎ (kind_of_mode self.value ≡ EntryKind.BlobExecutable)) }
    {
        matches!(self.kind(), EntryKind::Blob | EntryKind::BlobExecutable)
    }

    pub fn is_link(self) -> bool
        ensures { IsTrue result ↔ (kind_of_mode self.value ≡ EntryKind.Link) }
    {
        matches!(self.kind(), EntryKind::Link)
    }

    pub fn is_commit(self) -> bool
        ensures { IsTrue result ↔ (kind_of_mode self.value ≡ EntryKind.Commit) }
    {
        matches!(self.kind(), EntryKind::Commit)
    }
}

impl From<EntryKind> for EntryMode {
    ghost from_gives = { λ kind mode. mode.value ≡ mode_of kind };

    fn from(kind: EntryKind) -> EntryMode {
        EntryMode {
            value: match kind {
                EntryKind::Tree => 0o40000,
                EntryKind::Blob => 0o100644,
                EntryKind::BlobExecutable => 0o100755,
                EntryKind::Link => 0o120000,
                EntryKind::Commit => 0o160000,
            },
        }
    }
}

/// An entry of a tree.
#[derive(Debug, Drop)]
pub struct Entry {
    pub mode: EntryMode,
    pub filename: Bytes,
    pub oid: ObjectId,
}

/// A directory.
#[derive(Debug, Drop)]
pub struct Tree {
    pub entries: Entries,
}
