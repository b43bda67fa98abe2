//! A visitor that lists what it is shown.
ghost use Rattle.std.specs.Prelude.{◌≡◌, IfOk, OnErr};
ghost use Rattle.gx_walk.specs.Visits.{Counts};

use super::is_after;
use gx_hash::NoMemory;
use gx_object::EntryRef;
use gx_walk::{Action, Visit};
use probe_rows::answers::{push_field, push_word};
use std::alloc::Global;

/// Lists the paths that it is shown, and answers what the row says of each.
#[derive(Drop)]
pub(super) struct Lister<'r> {
    fields: &'r [Vec<u8>],
    answer: Vec<u8>,
    cancels: u64,
}

impl<'r> Lister<'r> {
    pub(super) fn new(alloc: Global, fields: &'r [Vec<u8>]) -> Lister<'r> {
        Lister {
            fields,
            answer: Vec::new(alloc),
            cancels: 0,
        }
    }

    /// The paths, and where an entry's name was another than its path ends with, that name.
    pub(super) fn into_answer(self) -> Vec<u8> {
        self.answer
    }

    fn show(&mut self, path: &[u8], entry: &EntryRef<'_>, end: &str) -> Result<Action, NoMemory>
        ensures ok { IfOk result (λ action. Counts action self.old.cancels self.new.cancels) }
        ensures leaves { OnErr result (self.new.cancels ≡ self.old.cancels) }
    {
        push_visit(&mut self.answer, path, entry, end)?;
        if is_after(self.fields, b"cancel", path) {
            self.cancels = self.cancels.saturating_add(1);
            return Ok(Action::Cancel);
        }
        if is_after(self.fields, b"skip", path) {
            return Ok(Action::Skip);
        }
        Ok(Action::Continue)
    }
}

fn push_visit(
    answer: &mut Vec<u8>,
    path: &[u8],
    entry: &EntryRef<'_>,
    end: &str,
) -> Result<(), NoMemory> {
    push_field(answer, path).map_err(|_| NoMemory)?;
    answer.extend_from_slice(end.as_bytes())?;
    let last = path.rsplit(|byte| *byte == b'/').next();
    if last != Some(entry.filename.as_bytes()) {
        push_word(answer, "named").map_err(|_| NoMemory)?;
        push_field(answer, entry.filename.as_bytes()).map_err(|_| NoMemory)?;
    }
    Ok(())
}

impl<'r> Visit for Lister<'r> {
    ghost use Rattle.std.specs.Prelude.{None};

    ghost visits = { λ _. None };

    ghost cancels = { λ lister. lister.cancels };

    fn visit_tree(&mut self, path: &[u8], entry: &EntryRef<'_>) -> Result<Action, NoMemory> {
        self.show(path, entry, "/")
    }

    fn visit_nontree(&mut self, path: &[u8], entry: &EntryRef<'_>) -> Result<Action, NoMemory> {
        self.show(path, entry, "")
    }
}
