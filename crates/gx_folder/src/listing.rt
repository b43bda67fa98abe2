//! References found by going through the folder's directories.
ghost use Rattle.std.specs.Prelude.{◌≡◌, ◌++◌, IfOk, filter, nat_eq};
ghost use Rattle.std.specs.List.{starts_with};
ghost use Rattle.gx_store.specs.Listing.{IsListing};

use crate::error::FileError;
use crate::files::entries;
use crate::name::{is_own, joined, name_of, push_reference};
use gx_hash::NoMemory;
use gx_rules::FullName;
use gx_store::Names;
use std::alloc::Global;
use std::fs::DirEntry;
use std::rt::Files;

/// Directories that are still to be gone through, by their paths below the folder, and what was found so far.
#[derive(Drop)]
struct Walk {
    waiting: Vec<String>,
    names: Vec<FullName>,
}

impl Walk {
    /// Takes up a file. It is a reference where its path is the spelling of a name.
    fn take_file(&mut self, alloc: Global, path: &str) -> Result<(), NoMemory> {
        if let Some(name) = name_of(alloc, path)? {
            self.names.push(name)?;
        }
        Ok(())
    }

    /// Takes up a directory, unless it is one of the folder's own.
    fn take_directory(&mut self, alloc: Global, path: &str) -> Result<(), NoMemory> {
        let below = joined(alloc, path, "/")?;
        if !is_own(below.as_str()) {
            self.waiting.push(below)?;
        }
        Ok(())
    }

    /// Takes up an entry of a directory. Symbolic links are passed over.
    fn take_entry<R: Files + AllocGlobal>(
        &mut self,
        alloc: Global,
        below: &str,
        entry: &DirEntry<R>,
    ) -> Result<(), FileError> {
        let path = joined(alloc, below, entry.file_name())?;
        let found = entry.file_type()?;
        if found.is_dir() {
            self.take_directory(alloc, path.as_str())?;
        } else if found.is_file() {
            self.take_file(alloc, path.as_str())?;
        }
        Ok(())
    }

    /// Takes up the entries of a directory. One that is not there has none.
    fn enter<R: Files + AllocGlobal + Clone + Drop>(
        &mut self,
        rt: &R,
        root: &str,
        below: &str,
    ) -> Result<(), FileError> {
        let alloc = rt.alloc();
        let above = joined(alloc, root, "/")?;
        let path = joined(alloc, above.as_str(), below)?;
        let Some(entries) = entries(rt, path.as_str())? else {
            return Ok(());
        };
        for entry in entries {
            let entry = entry?;
            self.take_entry(alloc, below, &entry)?;
        }
        Ok(())
    }
}

/// The references in a directory, by its path below the folder, and in those below it. They are in no order.
fn names_in<R: Files + AllocGlobal + Clone + Drop>(
    rt: &R,
    root: &str,
    start: String,
) -> Result<Vec<FullName>, FileError> {
    let mut walk = Walk {
        waiting: Vec::new(rt.alloc()),
        names: Vec::new(rt.alloc()),
    };
    walk.waiting.push(start)?;
    for _ in 0..u64::MAX {
        let Some(below) = walk.waiting.pop() else {
            break;
        };
        walk.enter(rt, root, below.as_str())?;
    }
    Ok(walk.names)
}

/// The references whose names are the name, a slash and more, in rising order.
pub(crate) fn names_below<R: Files + AllocGlobal + Clone + Drop>(
    rt: &R,
    root: &str,
    name: &[u8],
) -> Result<Vec<FullName>, FileError> {
    let mut start = String::new(rt.alloc());
    push_reference(&mut start, name)?;
    start.push('/')?;
    let mut names = names_in(rt, root, start)?;
    names.sort_unstable();
    Ok(names)
}

/// The names of references that begin with the prefix. Those directories are gone through in which such a name can be.
pub(crate) fn names_with_prefix<R: Files + AllocGlobal + Clone + Drop>(
    rt: &R,
    root: &str,
    prefix: &[u8],
) -> Result<Names, FileError>
    ensures { IfOk result (IsListing prefix.now) }
{
    let alloc = rt.alloc();
    let mut start = String::new(alloc);
    if let Some(at) = prefix.iter().rposition(|byte| *byte == b'/') {
        push_reference(&mut start, prefix.split_at(at + 1).0)?;
    }
    let names = names_in(rt, root, start)?;
    let listing = listed(alloc, names, prefix)?;
    Ok(listing)
}

/// Those of the names that begin with the prefix, in rising order, and each once.
fn listed(alloc: Global, mut names: Vec<FullName>, prefix: &[u8]) -> Result<Names, NoMemory>
    ensures { IfOk result (IsListing prefix.now) }
{
    names.sort_unstable();
    names.dedup();
    let kept = with_prefix(alloc, &names, prefix)?;
    Ok(Names::from_vec(kept))
}

fn with_prefix(alloc: Global, names: &[FullName], prefix: &[u8]) -> Result<Vec<FullName>, NoMemory>
    ensures { IfOk result (λ kept. kept.items ≡ filter (λ name. starts_with nat_eq name prefix.now) names.now) }
{
    let mut kept = Vec::with_capacity(alloc, names.len())?;
    for name in names {
        if name.as_slice().starts_with(prefix) {
            kept.push(name.try_clone()?)?;
        }
    }
    Ok(kept)
}
