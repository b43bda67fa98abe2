//! Changes of references and logs, made on their files.
//!
//! All memory is taken before the first file is changed. Then what is to be put in place is written beside it, under a
//! name that ends with `.lock`. A line is appended as one piece with its newline, and a file is put in place by a
//! rename. So each reference and each log is old or new, wherever a call of files fails.
use crate::error::FileError;
use crate::files::{self, append_line, lock_path, remove_empty_parents, write_below};
use crate::log::line_text;
use crate::name::{log_path, reference_path};
use crate::target::target_text;
use gx_store::{LogAct, RefChange, TargetChange};
use std::alloc::Global;
use std::fs::{self, File};
use std::io::{self, ErrorKind};
use std::rt::Files;

/// A text that takes the place of a file, or makes it.
#[derive(Drop)]
struct Put {
    path: String,
    lock: String,
    text: Vec<u8>,
}

/// A line that is added to a file, or makes it.
#[derive(Drop)]
struct Append {
    path: String,
    lock: String,
    line: Vec<u8>,
}

/// What is done to files, in the order in which it is done.
#[derive(Drop)]
pub(crate) struct Plan {
    removed: Vec<String>,
    appended: Vec<Append>,
    put: Vec<Put>,
}

impl Plan {
    /// The steps of the changes. A line that can't be in a file is an error.
    pub(crate) fn new(alloc: Global, root: &str, changes: &[RefChange]) -> Result<Plan, FileError> {
        let mut plan = Plan {
            removed: Vec::new(alloc),
            appended: Vec::new(alloc),
            put: Vec::new(alloc),
        };
        for change in changes {
            plan.take_log(alloc, root, change)?;
            plan.take_target(alloc, root, change)?;
        }
        Ok(plan)
    }

    fn take_target(
        &mut self,
        alloc: Global,
        root: &str,
        change: &RefChange,
    ) -> Result<(), FileError> {
        let path = reference_path(alloc, root, change.name.as_slice())?;
        match &change.target {
            TargetChange::Keep => {}
            TargetChange::Set(target) => self.put.push(Put {
                lock: lock_path(alloc, path.as_str())?,
                text: target_text(alloc, target)?,
                path,
            })?,
            TargetChange::Remove => self.removed.push(path)?,
        }
        Ok(())
    }

    fn take_log(&mut self, alloc: Global, root: &str, change: &RefChange) -> Result<(), FileError> {
        let path = log_path(alloc, root, change.name.as_slice())?;
        match &change.log {
            LogAct::Keep => {}
            LogAct::Append(line) => {
                let Some(line) = line_text(alloc, line)? else {
                    return Err(FileError::Io(ErrorKind::InvalidInput.into()));
                };
                self.appended.push(Append {
                    lock: lock_path(alloc, path.as_str())?,
                    line,
                    path,
                })?;
            }
            LogAct::Remove => self.removed.push(path)?,
        }
        Ok(())
    }

    /// Carries out the steps. After a failure nothing of what was written beside a file is left.
    pub(crate) fn run<R: Files<File = File> + AllocGlobal>(
        &self,
        rt: &R,
        root: &str,
    ) -> io::Result<()> {
        let outcome = self.run_all(rt, root);
        if outcome.is_err() {
            self.clean_up(rt);
        }
        outcome
    }

    /// What is removed goes first, so that a name can take the place of a directory that became empty.
    fn run_all<R: Files<File = File> + AllocGlobal>(&self, rt: &R, root: &str) -> io::Result<()> {
        self.remove(rt, root)?;
        for put in &self.put {
            write_below(rt, put.lock.as_str(), &put.text)?;
        }
        for append in &self.appended {
            append.run(rt)?;
        }
        for put in &self.put {
            files::rename(rt, put.lock.as_str(), put.path.as_str())?;
        }
        Ok(())
    }

    fn remove<R: Files>(&self, rt: &R, root: &str) -> io::Result<()> {
        for path in &self.removed {
            files::remove(rt, path.as_str())?;
            remove_empty_parents(rt, root, path.as_str());
        }
        Ok(())
    }

    fn clean_up<R: Files>(&self, rt: &R) {
        for put in &self.put {
            let _ = fs::remove_file(rt, put.lock.as_str());
        }
        for append in &self.appended {
            let _ = fs::remove_file(rt, append.lock.as_str());
        }
    }
}

impl Append {
    /// Adds the line. A log that is missing is made whole beside its place, and renamed.
    fn run<R: Files<File = File> + AllocGlobal>(&self, rt: &R) -> io::Result<()> {
        match append_line(rt, self.path.as_str(), &self.line) {
            Err(error) if is_missing(error.kind()) => {
                write_below(rt, self.lock.as_str(), &self.line)?;
                files::rename(rt, self.lock.as_str(), self.path.as_str())
            }
            outcome => outcome,
        }
    }
}

/// A directory that a crash left empty may be in the place of a log.
fn is_missing(kind: ErrorKind) -> bool {
    matches!(kind, ErrorKind::NotFound | ErrorKind::IsADirectory)
}
