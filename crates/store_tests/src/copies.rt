use crate::samples::{are_same_lines, is_same_line, line, name_of};
use gx_hash::{HashKind, NoMemory};
use gx_store::{Lines, LogAct, Names, RefChange, Target, TargetChange, What};
use std::alloc::Global;

fn is_copied(part: &What) -> Result<bool, NoMemory> {
    let copy = part.try_clone()?;
    Ok(copy == *part)
}

fn are_parts_copied(alloc: Global) -> Result<bool, NoMemory> {
    Ok(
        is_copied(&What::Object(HashKind::Sha256.empty_tree()))?
            && is_copied(&What::Name(name_of(alloc, b"refs/heads/a")?))?
            && is_copied(&What::Index)?
            && is_copied(&What::Listing)?
            && is_copied(&What::Write)?,
    )
}

#[test]
fn parts_of_a_store_are_copied(rt: HostRuntime) {
    assert!(rt; are_parts_copied(rt.alloc()).unwrap_or(false));
}

fn are_names_copied(alloc: Global) -> Result<bool, NoMemory> {
    let mut names = Vec::new(alloc);
    names.push(name_of(alloc, b"HEAD")?)?;
    names.push(name_of(alloc, b"refs/heads/a")?)?;
    let names = Names::from_vec(names);
    let copy = names.try_clone()?;
    let empty = Names::new(alloc).try_clone()?;
    Ok(copy.as_slice() == names.as_slice() && empty.as_slice().is_empty())
}

#[test]
fn names_are_copied(rt: HostRuntime) {
    assert!(rt; are_names_copied(rt.alloc()).unwrap_or(false));
}

fn two_lines(alloc: Global) -> Result<Lines, NoMemory> {
    let mut lines = Vec::new(alloc);
    lines.push(line(alloc, b"one")?)?;
    lines.push(line(alloc, b"two")?)?;
    Ok(Lines::from_vec(lines))
}

fn are_lines_copied(alloc: Global) -> Result<bool, NoMemory> {
    let lines = two_lines(alloc)?;
    let copy = lines.try_clone()?;
    let again = Lines::from_slice(alloc, copy.as_slice())?;
    Ok(
        are_same_lines(copy.as_slice(), lines.as_slice())
            && are_same_lines(&again.into_vec(), lines.as_slice())
            && Lines::new(alloc).try_clone()?.as_slice().is_empty(),
    )
}

#[test]
fn lines_are_copied(rt: HostRuntime) {
    assert!(rt; are_lines_copied(rt.alloc()).unwrap_or(false));
}

fn is_line_copied(alloc: Global) -> Result<bool, NoMemory> {
    let line = line(alloc, b"m")?;
    let copy = line.try_clone()?;
    Ok(is_same_line(&copy, &line))
}

#[test]
fn a_line_is_copied(rt: HostRuntime) {
    assert!(rt; is_line_copied(rt.alloc()).unwrap_or(false));
}

fn are_targets_copied(alloc: Global) -> Result<bool, NoMemory> {
    let symbolic = Target::Symbolic(name_of(alloc, b"refs/heads/a")?);
    let object = Target::Object(HashKind::Sha1.empty_blob());
    Ok(is_target_copied(&object)? && is_target_copied(&symbolic)?)
}

fn is_target_copied(target: &Target) -> Result<bool, NoMemory> {
    let copy = target.try_clone()?;
    Ok(copy == *target)
}

#[test]
fn targets_are_copied(rt: HostRuntime) {
    assert!(rt; are_targets_copied(rt.alloc()).unwrap_or(false));
}

/// Whether the copy is a change to the empty blob, with the line.
fn is_set(alloc: Global, change: &RefChange) -> Result<bool, NoMemory> {
    let line = line(alloc, b"m")?;
    Ok(match (&change.target, &change.log) {
        (TargetChange::Set(target), LogAct::Append(copy)) => {
            *target == Target::Object(HashKind::Sha1.empty_blob()) && is_same_line(copy, &line)
        }
        _ => false,
    })
}

fn is_change_copied(alloc: Global) -> Result<bool, NoMemory> {
    let change = RefChange {
        name: name_of(alloc, b"refs/heads/a")?,
        target: TargetChange::Set(Target::Object(HashKind::Sha1.empty_blob())),
        log: LogAct::Append(line(alloc, b"m")?),
    };
    let copy = change.try_clone()?;
    Ok(copy.name == change.name && is_set(alloc, &copy)?)
}

#[test]
fn a_change_is_copied(rt: HostRuntime) {
    assert!(rt; is_change_copied(rt.alloc()).unwrap_or(false));
}

fn are_target_changes_copied() -> Result<bool, NoMemory> {
    let kept = TargetChange::Keep.try_clone()?;
    let removed = TargetChange::Remove.try_clone()?;
    Ok(matches!(kept, TargetChange::Keep) && matches!(removed, TargetChange::Remove))
}

fn are_acts_copied() -> Result<bool, NoMemory> {
    let kept = LogAct::Keep.try_clone()?;
    let removed = LogAct::Remove.try_clone()?;
    Ok(matches!(kept, LogAct::Keep) && matches!(removed, LogAct::Remove))
}

fn are_kept_and_removed_copied() -> Result<bool, NoMemory> {
    Ok(are_target_changes_copied()? && are_acts_copied()?)
}

#[test]
fn what_is_kept_or_removed_is_copied(rt: HostRuntime) {
    assert!(rt; are_kept_and_removed_copied().unwrap_or(false));
}
