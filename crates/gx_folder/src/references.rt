//! References and logs of a folder.
use crate::Folder;
use crate::apply::Plan;
use crate::conflict::conflict_of;
use crate::error::{FileError, unreadable};
use crate::files::{is_file, read};
use crate::listing::names_with_prefix;
use crate::log::read_lines;
use crate::name::{log_path, reference_path};
use crate::target::read_target;
use gx_rules::FullName;
use gx_store::{Lines, Names, RefChange, References, StoreError, Target, What};
use std::alloc::Global;
use std::fs::File;
use std::rt::Files;

impl<R: Files<File = File> + AllocGlobal + Clone + Drop> Folder<R> {
    fn make_changes(&self, alloc: Global, changes: &[RefChange]) -> Result<(), FileError> {
        let plan = Plan::new(alloc, self.root.as_str(), changes)?;
        match plan.run(&self.rt, self.root.as_str()) {
            Ok(()) => Ok(()),
            // Some changes may be made, so this is a fault even where memory ran out.
            Err(error) => Err(FileError::Io(error)),
        }
    }
}

#[tactic(auto, unfolding(crate::specs::Folder::folder_state))]
impl<R: Files<File = File> + AllocGlobal + Clone + Drop> References for Folder<R> {
    fn find(&self, alloc: Global, name: &FullName) -> Result<Option<Target>, StoreError> {
        let path = reference_path(alloc, self.root.as_str(), name.as_slice())?;
        let text = match read(&self.rt, path.as_str()) {
            Ok(Some(text)) => text,
            Ok(None) => return Ok(None),
            Err(error) => return Err(error.at_name(name)),
        };
        match read_target(alloc, self.hash, &text)? {
            Some(target) => Ok(Some(target)),
            None => Err(unreadable(name)),
        }
    }

    fn log(&self, alloc: Global, name: &FullName) -> Result<Option<Lines>, StoreError> {
        let path = log_path(alloc, self.root.as_str(), name.as_slice())?;
        let text = match read(&self.rt, path.as_str()) {
            Ok(Some(text)) => text,
            Ok(None) => return Ok(None),
            Err(error) => return Err(error.at_name(name)),
        };
        match read_lines(alloc, self.hash, &text)? {
            Some(lines) => Ok(Some(lines)),
            None => Err(unreadable(name)),
        }
    }

    fn log_exists(&self, alloc: Global, name: &FullName) -> Result<bool, StoreError> {
        let path = log_path(alloc, self.root.as_str(), name.as_slice())?;
        match is_file(&self.rt, path.as_str()) {
            Ok(is_there) => Ok(is_there),
            Err(error) => Err(error.at_name(name)),
        }
    }

    fn find_conflict(
        &self,
        _alloc: Global,
        name: &FullName,
    ) -> Result<Option<FullName>, StoreError> {
        match conflict_of(&self.rt, self.root.as_str(), name.as_slice()) {
            Ok(found) => Ok(found),
            Err(error) => Err(error.at(What::Listing)),
        }
    }

    fn list(&self, _alloc: Global, prefix: &[u8]) -> Result<Names, StoreError> {
        match names_with_prefix(&self.rt, self.root.as_str(), prefix) {
            Ok(names) => Ok(names),
            Err(error) => Err(error.at(What::Listing)),
        }
    }

    fn apply(&mut self, alloc: Global, changes: &[RefChange]) -> Result<(), StoreError> {
        match self.make_changes(alloc, changes) {
            Ok(()) => Ok(()),
            Err(error) => Err(self.write_error(error)),
        }
    }
}
