//! One edit at a path, and lists of edits.

ghost use Rattle.std.specs.Prelude.{◌≡◌, []};

use gx_hash::{Bytes, ObjectId};
use std::alloc::Global;
use std::marker::Model;

/// A change at a path of a tree. A path is its components, joined by slashes.
#[derive(Debug, Drop)]
pub enum PathEdit {
    /// Puts a file there.
    File {
        path: Bytes,
        bytes: Bytes,
        executable: bool,
    },
    /// Puts a symbolic link there, whose target are the bytes.
    Link {
        path: Bytes,
        bytes: Bytes,
    },
    /// Puts a submodule there, at a commit of another repository.
    Module {
        path: Bytes,
        id: ObjectId,
    },
    /// Takes away what is there, and all below.
    Remove {
        path: Bytes,
    },
}

impl PathEdit {
    ghost use Rattle.gx_edit.specs.PathMap.{path_of};

    /// The path that the edit is made at.
    pub fn path(&self) -> &Bytes
        ensures { result.now ≡ path_of self.now }
    {
        match self {
            PathEdit::File { path, .. }
            | PathEdit::Link { path, .. }
            | PathEdit::Module { path, .. }
            | PathEdit::Remove { path } => path,
        }
    }
}

/// A list of edits, in the order in which they are made.
#[derive(Debug, Drop)]
pub struct PathEdits {
    vec: Vec<PathEdit>,
}

impl Model for PathEdits {
    ghost use Rattle.std.specs.Prelude.{List};
    ghost use Rattle.gx_edit.specs.declared.path_edit.PathEdit.{PathEdit};

    ghost Value = { List PathEdit };

    ghost view = { λ edits. edits.vec.items };
}

impl PathEdits {
    pub fn new(alloc: Global) -> PathEdits
        ensures { result ≡ [] }
    {
        PathEdits {
            vec: Vec::new(alloc),
        }
    }

    pub fn from_vec(vec: Vec<PathEdit>) -> PathEdits
        ensures { result ≡ vec.items }
    {
        PathEdits { vec }
    }

    pub fn into_vec(self) -> Vec<PathEdit>
        ensures { result.items ≡ self }
    {
        self.vec
    }

    pub fn as_slice(&self) -> &[PathEdit]
        ensures { result.now ≡ self.now }
    {
        &self.vec
    }
}
