//! Edits of references.
ghost use Rattle.std.specs.Prelude.{◌≡◌, [], false, IfOk};
ghost use Rattle.gx_refs.specs.declared.edit.RefLog.TheVariants as ref_log;

use gx_hash::{Bytes, NoMemory};
use gx_rules::FullName;
use gx_store::Target;
use std::alloc::Global;
use std::marker::Model;

/// What an edit expects to be there.
#[derive(Debug, PartialEq, Eq, Drop)]
pub enum PreviousValue {
    /// Anything, or nothing.
    Any,
    /// Any target.
    MustExist,
    /// No reference.
    MustNotExist,
    /// This target.
    MustExistAndMatch(Target),
    /// This target, or no reference.
    ExistingMustMatch(Target),
}

/// Whether an edit is of a reference with its log, or of the log alone.
#[derive(Clone, Copy, Debug, PartialEq, Eq)]
pub enum RefLog {
    AndReference,
    Only,
}

/// How an update is told in logs.
#[derive(Debug, PartialEq, Eq, Drop)]
pub struct LogChange {
    pub mode: RefLog,
    /// Whether a missing log is made for any name.
    pub force_create_reflog: bool,
    pub message: Bytes,
}

/// What becomes of a reference.
#[derive(Debug, PartialEq, Eq, Drop)]
pub enum Change {
    Update {
        log: LogChange,
        expected: PreviousValue,
        new: Target,
    },
    Delete {
        expected: PreviousValue,
        log: RefLog,
    },
}

/// An edit of a reference.
#[derive(Debug, PartialEq, Eq, Drop)]
pub struct RefEdit {
    pub change: Change,
    pub name: FullName,
    /// Whether the edit is of the end of the name's chain.
    pub deref: bool,
}

/// A list of edits.
#[derive(Debug, Drop)]
pub struct Edits {
    vec: Vec<RefEdit>,
}

impl Model for Edits {
    ghost use Rattle.std.specs.Prelude.{List};
    ghost use Rattle.gx_refs.specs.declared.edit.RefEdit.{RefEdit};

    ghost Value = { List RefEdit };

    ghost view = { λ edits. edits.vec.items };
}

impl Edits {
    pub fn from_vec(vec: Vec<RefEdit>) -> Edits
        ensures { result ≡ vec.items }
    {
        Edits { vec }
    }

    pub fn into_vec(self) -> Vec<RefEdit>
        ensures { result.items ≡ self }
    {
        self.vec
    }

    pub fn as_slice(&self) -> &[RefEdit]
        ensures { result.now ≡ self.now }
    {
        &self.vec
    }
}

impl LogChange {
    /// The reference and its log, with no message.
    pub fn new(alloc: Global) -> LogChange
        ensures { result ≡ record { mode = ref_log.AndReference; force_create_reflog = false; message = [] } }
    {
        LogChange {
            mode: RefLog::AndReference,
            force_create_reflog: false,
            message: Bytes::new(alloc),
        }
    }

    pub fn try_clone(&self) -> Result<LogChange, NoMemory>
        ensures { IfOk result (λ copy. copy ≡ self.now) }
    {
        Ok(LogChange {
            mode: self.mode,
            force_create_reflog: self.force_create_reflog,
            message: self.message.try_clone()?,
        })
    }
}
