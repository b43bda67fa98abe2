//! A visitor that records what it is shown.

ghost use Rattle.std.specs.Prelude.{◌≡◌, [], ◌∷◌, ◌++◌, OnOk, OnErr};
ghost use Rattle.gx_object.specs.TreeSpelling.{entry_of};
ghost use Rattle.gx_walk.specs.Recorder.{record_of};

use crate::{Action, Visit};
use gx_hash::{Bytes, NoMemory, ObjectId};
use gx_object::{EntryMode, EntryRef};
use std::alloc::Global;

/// An entry with its path.
#[derive(Debug, Drop)]
pub struct Record {
    pub mode: EntryMode,
    pub filepath: Bytes,
    pub oid: ObjectId,
}

/// Records each entry that it is shown, and goes on everywhere.
#[derive(Drop)]
pub struct Recorder {
    pub records: Vec<Record>,
    alloc: Global,
}

impl Recorder {
    pub fn new(alloc: Global) -> Recorder
        ensures { result.records.items ≡ [] }
    {
        Recorder {
            records: Vec::new(alloc),
            alloc,
        }
    }

    fn keep(&mut self, path: &[u8], entry: &EntryRef<'_>) -> Result<(), NoMemory>
        ensures ok { OnOk result (self.new.records.items
            ≡ self.old.records.items ++ record_of path.now (entry_of entry.now) ∷ []) }
        ensures leaves { OnErr result (self.new.records.items ≡ self.old.records.items) }
    {
        let filepath = Bytes::from_slice(self.alloc, path)?;
        self.records.push(Record {
            mode: entry.mode,
            filepath,
            oid: entry.oid,
        })?;
        Ok(())
    }
}

#[tactic(auto, using(crate::proofs::RecorderLemmas::kept))]
impl Visit for Recorder {
    ghost use Rattle.std.specs.Prelude.{Some, map};
    ghost use Rattle.gx_walk.specs.Recorder.{visit_in};

    ghost visits = { λ recorder. Some (map visit_in recorder.records.items) };

    ghost cancels = { λ recorder. 0 };

    fn visit_tree(&mut self, path: &[u8], entry: &EntryRef<'_>) -> Result<Action, NoMemory> {
        self.keep(path, entry)?;
        Ok(Action::Continue)
    }

    fn visit_nontree(&mut self, path: &[u8], entry: &EntryRef<'_>) -> Result<Action, NoMemory> {
        self.keep(path, entry)?;
        Ok(Action::Continue)
    }
}
