//! References that a name can't be beside: one of the two would be a directory that has the other.
ghost use Rattle.std.specs.Prelude.{◌≡◌, IfOk, IfSome};
ghost use Rattle.gx_store.specs.Conflict.{Conflict, IsProperPrefix};

use crate::error::FileError;
use crate::files::is_file;
use crate::listing::names_below;
use crate::name::reference_path;
use gx_hash::NoMemory;
use gx_rules::{FullName, NameError};
use std::rt::Files;

/// The front of the name up to a place, where a slash is there and a reference has that name.
fn reference_above<R: Files + AllocGlobal>(
    rt: &R,
    root: &str,
    name: &[u8],
    at: usize,
) -> Result<Option<FullName>, FileError>
    ensures { IfOk result (λ found. IfSome found (λ other. IsProperPrefix other name.now)) }
{
    let alloc = rt.alloc();
    let (above, rest) = name.split_at(at.min(name.len()));
    if rest.strip_prefix(b"/".as_slice()).is_none() {
        return Ok(None);
    }
    let path = reference_path(alloc, root, above)?;
    if !is_file(rt, path.as_str())? {
        return Ok(None);
    }
    match FullName::new(alloc, above) {
        Ok(above) => Ok(Some(above)),
        Err(NameError::NoMemory) => Err(FileError::NoMemory),
        Err(_) => Ok(None),
    }
}

fn conflict_above<R: Files + AllocGlobal>(
    rt: &R,
    root: &str,
    name: &[u8],
) -> Result<Option<FullName>, FileError>
    ensures { IfOk result (λ found. IfSome found (λ other. IsProperPrefix other name.now)) }
{
    for at in 0..name.len() {
        if let Some(found) = reference_above(rt, root, name, at)? {
            return Ok(Some(found));
        }
    }
    Ok(None)
}

/// A copy of the other name, where it is the name, a slash and more.
fn copy_if_below(other: &FullName, name: &[u8]) -> Result<Option<FullName>, NoMemory>
    ensures { IfOk result (λ found. IfSome found (IsProperPrefix name.now)) }
{
    let bytes = other.as_slice();
    let (front, rest) = bytes.split_at(name.len().min(bytes.len()));
    if front != name || rest.strip_prefix(b"/".as_slice()).is_none() {
        return Ok(None);
    }
    Ok(Some(other.try_clone()?))
}

fn first_below(names: &[FullName], name: &[u8]) -> Result<Option<FullName>, NoMemory>
    ensures { IfOk result (λ found. IfSome found (IsProperPrefix name.now)) }
{
    for other in names {
        if let Some(found) = copy_if_below(other, name)? {
            return Ok(Some(found));
        }
    }
    Ok(None)
}

/// A reference that conflicts with the name: the shortest above it, else the first below it.
pub(crate) fn conflict_of<R: Files + AllocGlobal + Clone + Drop>(
    rt: &R,
    root: &str,
    name: &[u8],
) -> Result<Option<FullName>, FileError>
    ensures { IfOk result (λ found. IfSome found (Conflict name.now)) }
{
    if let Some(found) = conflict_above(rt, root, name)? {
        return Ok(Some(found));
    }
    let names = names_below(rt, root, name)?;
    let found = first_below(&names, name)?;
    Ok(found)
}
