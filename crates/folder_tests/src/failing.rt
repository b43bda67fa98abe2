//! Files of which one call fails.

use std::alloc::{Allocator, Global};
use std::cell::Cell;
use std::fs::{File, Metadata, OpenOptions};
use std::io::{self, ErrorKind};
use std::rt::Files;

/// Counts calls of files between `start` and `stop`, of which one fails.
#[derive(Drop)]
pub(crate) struct Calls {
    made: Cell<u64>,
    has_failed: Cell<bool>,
    /// Which call fails, counted from 1.
    nth: u64,
}

impl Calls {
    pub(crate) fn new(nth: u64) -> Calls {
        Calls {
            made: Cell::new(u64::MAX),
            has_failed: Cell::new(false),
            nth,
        }
    }

    pub(crate) fn start(&self) {
        self.made.set(0);
    }

    pub(crate) fn stop(&self) {
        self.made.set(u64::MAX);
    }

    pub(crate) fn has_failed(&self) -> bool {
        self.has_failed.get()
    }
}

/// The system's files, of whose calls one fails.
#[derive(Clone, Drop)]
pub(crate) struct Failing<'a> {
    pub(crate) host: HostRuntime,
    pub(crate) calls: &'a Calls,
}

impl Failing<'_> {
    fn count(&self) -> io::Result<()> {
        let made = self.calls.made.get().saturating_add(1);
        self.calls.made.set(made);
        if made == self.calls.nth {
            self.calls.has_failed.set(true);
            return Err(ErrorKind::StorageFull.into());
        }
        Ok(())
    }
}

impl Alloc for Failing<'_> {
    type A = Global;

    fn alloc(&self) -> Global {
        self.host.alloc()
    }
}

impl Files for Failing<'_> {
    type File = File;

    type Dir = <HostRuntime as Files>::Dir;

    fn open_file(&self, how: &OpenOptions, path: &str) -> io::Result<File> {
        self.count()?;
        self.host.open_file(how, path)
    }

    fn open_dir(&self, path: &str) -> io::Result<Self::Dir> {
        self.count()?;
        self.host.open_dir(path)
    }

    fn metadata(&self, path: &str) -> io::Result<Metadata> {
        self.count()?;
        Files::metadata(&self.host, path)
    }

    fn symlink_metadata(&self, path: &str) -> io::Result<Metadata> {
        self.count()?;
        self.host.symlink_metadata(path)
    }

    fn copy(&self, from: &str, to: &str) -> io::Result<u64> {
        self.count()?;
        self.host.copy(from, to)
    }

    fn rename(&self, from: &str, to: &str) -> io::Result<()> {
        self.count()?;
        self.host.rename(from, to)
    }

    fn remove_file(&self, path: &str) -> io::Result<()> {
        self.count()?;
        self.host.remove_file(path)
    }

    fn create_dir(&self, path: &str) -> io::Result<()> {
        self.count()?;
        self.host.create_dir(path)
    }

    fn remove_dir(&self, path: &str) -> io::Result<()> {
        self.count()?;
        self.host.remove_dir(path)
    }

    fn remove_dir_all<B: Allocator>(&self, alloc: B, path: &str) -> io::Result<()> {
        self.count()?;
        self.host.remove_dir_all(alloc, path)
    }
}
