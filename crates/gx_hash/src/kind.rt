//! The kinds of digest.
ghost use Rattle.std.specs.Prelude.{◌≡◌, ◌*◌};
ghost use Rattle.gx_hash.specs.HashKind.{len_in_bytes, IsOfKind};
ghost use Rattle.gx_hash.specs.ObjectId.{null_id, empty_tree_id, empty_blob_id};

use crate::ObjectId;

/// The digest that a repository's ids are.
#[derive(Clone, Copy, Debug, PartialEq, Eq, PartialOrd, Ord, Hash)]
pub enum HashKind {
    /// SHA-1, with ids of 20 bytes.
    Sha1,
    /// SHA-256, with ids of 32 bytes.
    Sha256,
}

impl HashKind {
    /// How many bytes an id has.
    pub fn len_in_bytes(self) -> usize
        ensures { result ≡ len_in_bytes self }
    {
        match self {
            HashKind::Sha1 => 20,
            HashKind::Sha256 => 32,
        }
    }

    /// How many hex digits spell an id.
    pub fn len_in_hex(self) -> usize
        ensures { result ≡ 2 * len_in_bytes self }
    {
        match self {
            HashKind::Sha1 => 40,
            HashKind::Sha256 => 64,
        }
    }

    /// The id whose bytes are all zero, which names no object.
    pub fn null(self) -> ObjectId
        ensures id { result ≡ null_id self }
        ensures kind { IsOfKind self result }
    {
        ObjectId::null(self)
    }

    /// The id of the tree without entries.
    pub fn empty_tree(self) -> ObjectId
        ensures id { result ≡ empty_tree_id self }
        ensures kind { IsOfKind self result }
    {
        ObjectId::empty_tree(self)
    }

    /// The id of the blob without bytes.
    pub fn empty_blob(self) -> ObjectId
        ensures id { result ≡ empty_blob_id self }
        ensures kind { IsOfKind self result }
    {
        ObjectId::empty_blob(self)
    }
}
