//! Lists that values have.
ghost use Rattle.std.specs.Prelude.{◌≡◌, [], IfOk};

use crate::{Entry, EntryRef, OwnedHeader};
use gx_hash::{NoMemory, ObjectId};
use std::alloc::Global;
use std::marker::Model;

/// A list of ids.
#[derive(Debug, Drop)]
pub struct Ids {
    vec: Vec<ObjectId>,
}

impl Model for Ids {
    ghost use Rattle.std.specs.Prelude.{List};
    ghost use Rattle.gx_hash.specs.declared.oid.ObjectId.{ObjectId};

    ghost Value = { List ObjectId };

    ghost view = { λ ids. ids.vec.items };
}

impl Ids {
    pub fn new(alloc: Global) -> Ids
        ensures { result ≡ [] }
    {
        Ids {
            vec: Vec::new(alloc),
        }
    }

    pub fn from_vec(vec: Vec<ObjectId>) -> Ids
        ensures { result ≡ vec.items }
    {
        Ids { vec }
    }

    pub fn into_vec(self) -> Vec<ObjectId>
        ensures { result.items ≡ self }
    {
        self.vec
    }

    pub fn as_slice(&self) -> &[ObjectId]
        ensures { result.now ≡ self.now }
    {
        &self.vec
    }

    pub fn try_clone(&self) -> Result<Ids, NoMemory>
        ensures { IfOk result (λ copy. copy ≡ self.now) }
    {
        Ok(Ids {
            vec: self.vec.clone()?,
        })
    }
}

/// The entries of a tree, in their order.
#[derive(Debug, Drop)]
pub struct Entries {
    vec: Vec<Entry>,
}

impl Model for Entries {
    ghost use Rattle.std.specs.Prelude.{List};
    ghost use Rattle.gx_object.specs.declared.tree.Entry.{Entry};

    ghost Value = { List Entry };

    ghost view = { λ entries. entries.vec.items };
}

impl Entries {
    pub fn new(alloc: Global) -> Entries
        ensures { result ≡ [] }
    {
        Entries {
            vec: Vec::new(alloc),
        }
    }

    pub fn from_vec(vec: Vec<Entry>) -> Entries
        ensures { result ≡ vec.items }
    {
        Entries { vec }
    }

    pub fn into_vec(self) -> Vec<Entry>
        ensures { result.items ≡ self }
    {
        self.vec
    }

    pub fn as_slice(&self) -> &[Entry]
        ensures { result.now ≡ self.now }
    {
        &self.vec
    }
}

/// The entries of a tree whose names are slices of its bytes, in their order.
#[derive(Debug, Drop)]
pub struct EntryRefs<'a> {
    vec: Vec<EntryRef<'a>>,
}

impl<'a> Model for EntryRefs<'a> {
    ghost use Rattle.std.specs.Prelude.{List};
    ghost use Rattle.gx_object.specs.declared.tree.decode.EntryRef.{EntryRef};

    ghost Value = { List EntryRef };

    ghost view = { λ entries. entries.vec.items };
}

impl<'a> EntryRefs<'a> {
    pub fn new(alloc: Global) -> EntryRefs<'a>
        ensures { result ≡ [] }
    {
        EntryRefs {
            vec: Vec::new(alloc),
        }
    }

    pub fn from_vec(vec: Vec<EntryRef<'a>>) -> EntryRefs<'a>
        ensures { result ≡ vec.entry.items }
    {
        EntryRefs { vec }
    }

    pub fn into_vec(self) -> Vec<EntryRef<'a>>
        ensures { result.items ≡ self.entry }
    {
        self.vec
    }

    pub fn as_slice(&self) -> &[EntryRef<'a>]
        ensures { result.now ≡ self.now }
    {
        &self.vec
    }

    pub(crate) fn allocator(&self) -> Global {
        *self.vec.allocator()
    }
}

/// The further headers of a commit, in their order.
#[derive(Debug, Drop)]
pub struct Headers {
    vec: Vec<OwnedHeader>,
}

impl Model for Headers {
    ghost use Rattle.std.specs.Prelude.{List};
    ghost use Rattle.gx_object.specs.declared.commit.OwnedHeader.{OwnedHeader};

    ghost Value = { List OwnedHeader };

    ghost view = { λ headers. headers.vec.items };
}

impl Headers {
    pub fn new(alloc: Global) -> Headers
        ensures { result ≡ [] }
    {
        Headers {
            vec: Vec::new(alloc),
        }
    }

    pub fn from_vec(vec: Vec<OwnedHeader>) -> Headers
        ensures { result ≡ vec.items }
    {
        Headers { vec }
    }

    pub fn into_vec(self) -> Vec<OwnedHeader>
        ensures { result.items ≡ self }
    {
        self.vec
    }

    pub fn as_slice(&self) -> &[OwnedHeader]
        ensures { result.now ≡ self.now }
    {
        &self.vec
    }
}
