//! What is known of all objects together, by the names of their files. No file is opened, and no list of names is kept.
use crate::error::FileError;
use crate::files::entries;
use crate::name::{is_digits, joined};
use gx_hash::{NoMemory, ObjectId};
use std::alloc::Global;
use std::rt::Files;

/// How many digits of an id name its directory.
const DIRECTORY: usize = 2;

/// The path of a directory of objects, by its name.
fn directory_path(alloc: Global, root: &str, name: &str) -> Result<String, NoMemory> {
    let mut path = joined(alloc, root, "/objects/")?;
    path.push_str(name)?;
    Ok(path)
}

/// How many of a directory's files have names of so many digits.
fn count_in<R: Files + AllocGlobal + Clone + Drop>(
    rt: &R,
    path: &str,
    length: usize,
) -> Result<u64, FileError> {
    let Some(entries) = entries(rt, path)? else {
        return Ok(0);
    };
    let mut count: u64 = 0;
    for entry in entries {
        if is_digits(entry?.file_name(), length) {
            count = count.saturating_add(1);
        }
    }
    Ok(count)
}

/// How many objects there are, whose ids have so many digits.
pub(crate) fn count<R: Files + AllocGlobal + Clone + Drop>(
    rt: &R,
    root: &str,
    digits: usize,
) -> Result<u64, FileError> {
    let objects = joined(rt.alloc(), root, "/objects")?;
    let Some(directories) = entries(rt, objects.as_str())? else {
        return Ok(0);
    };
    let mut count: u64 = 0;
    for directory in directories {
        let directory = directory?;
        if is_digits(directory.file_name(), DIRECTORY) {
            let path = directory_path(rt.alloc(), root, directory.file_name())?;
            let more = count_in(rt, path.as_str(), digits.saturating_sub(DIRECTORY))?;
            count = count.saturating_add(more);
        }
    }
    Ok(count)
}

/// How many first digits two names share.
fn shared_digits(name: &str, other: &str) -> usize {
    let mut count = 0;
    for (a, b) in name.as_bytes().iter().zip(other.as_bytes()) {
        if *a != *b {
            return count;
        }
        count = count.saturating_add(1);
    }
    count
}

/// The greatest number of first digits that a name shares with another one in the directory.
fn longest_in<R: Files + AllocGlobal + Clone + Drop>(
    rt: &R,
    path: &str,
    name: &str,
) -> Result<Option<usize>, FileError> {
    let Some(entries) = entries(rt, path)? else {
        return Ok(None);
    };
    let mut longest = None;
    for entry in entries {
        let entry = entry?;
        let other = entry.file_name();
        if is_digits(other, name.len()) && other != name {
            longest = longest.max(Some(shared_digits(name, other)));
        }
    }
    Ok(longest)
}

/// Whether there is an object in another directory whose name has the same first digit.
fn is_alike_beside<R: Files + AllocGlobal + Clone + Drop>(
    rt: &R,
    root: &str,
    name: &str,
    length: usize,
) -> Result<bool, FileError> {
    let objects = joined(rt.alloc(), root, "/objects")?;
    let Some(directories) = entries(rt, objects.as_str())? else {
        return Ok(false);
    };
    for directory in directories {
        let directory = directory?;
        let other = directory.file_name();
        if is_digits(other, DIRECTORY) && shared_digits(name, other) == 1 {
            let path = directory_path(rt.alloc(), root, other)?;
            if count_in(rt, path.as_str(), length)? > 0 {
                return Ok(true);
            }
        }
    }
    Ok(false)
}

/// The greatest number of first digits that the id shares with another object's.
pub(crate) fn longest_shared<R: Files + AllocGlobal + Clone + Drop>(
    rt: &R,
    root: &str,
    id: &ObjectId,
) -> Result<usize, FileError> {
    let digits = format!(in rt.alloc(); "{id}")?;
    let Some((directory, name)) = digits.as_str().split_at_checked(DIRECTORY) else {
        return Ok(0);
    };
    let path = directory_path(rt.alloc(), root, directory)?;
    match longest_in(rt, path.as_str(), name)? {
        Some(longest) => Ok(longest.saturating_add(DIRECTORY)),
        None => {
            let is_alike = is_alike_beside(rt, root, directory, name.len())?;
            Ok(usize::from(is_alike))
        }
    }
}
