//! The texts of errors, as a person reads them and as a log has them.

use gix::CommitEditsError;
use gx_hash::{Bytes, NoMemory};
use gx_object::Field;
use gx_rules::FullName;
use gx_script::{NameSet, Order, ScriptError};
use gx_store::{Target, What};
use gx_tool::{BadWords, ExecuteError};
use std::alloc::Global;
use std::fmt::{Debug, Display};

fn shows(alloc: Global, error: &impl Display, text: &str) -> Result<bool, NoMemory> {
    Ok(format!(in alloc; "{error}")?.as_str() == text)
}

fn logs(alloc: Global, value: &impl Debug, text: &str) -> Result<bool, NoMemory> {
    Ok(format!(in alloc; "{value:?}")?.as_str() == text)
}

fn script_errors_show(alloc: Global) -> Result<bool, NoMemory> {
    let bad = ScriptError::Malformed { line: 3 };
    Ok(
        shows(alloc, &bad, "line 3 is malformed")?
            && shows(alloc, &ScriptError::ReadFault, "a read failed")?
            && shows(alloc, &ScriptError::TooLong, "the script is too long")?
            && shows(alloc, &ScriptError::NoMemory, "out of memory")?
            && logs(alloc, &bad, "Malformed { line: 3 }")?,
    )
}

fn values_log(alloc: Global) -> Result<bool, NoMemory> {
    let is_order_logged = logs(alloc, &Order::NewestFrom(-5), "NewestFrom(-5)")?;
    let is_set_logged = logs(alloc, &NameSet::AllTags, "AllTags")?;
    Ok(is_order_logged && is_set_logged)
}

fn scripts_show(alloc: Global) -> Result<bool, NoMemory> {
    Ok(script_errors_show(alloc)? && values_log(alloc)?)
}

#[test]
fn errors_of_scripts_are_told(rt: HostRuntime) {
    assert!(rt; scripts_show(rt.alloc()).unwrap_or(false));
}

fn run_errors_show(alloc: Global) -> Result<bool, NoMemory> {
    let fault = ExecuteError::Store { what: What::Write };
    Ok(
        shows(alloc, &fault, "the store failed at Write")?
            && logs(alloc, &fault, "Store { what: Write }")?
            && shows(alloc, &ExecuteError::NoMemory, "out of memory")?
            && shows(alloc, &BadWords, "the words are no allowed list")?,
    )
}

#[test]
fn errors_of_runs_are_told(rt: HostRuntime) {
    assert!(rt; run_errors_show(rt.alloc()).unwrap_or(false));
}

fn name(alloc: Global) -> Result<FullName, NoMemory> {
    match FullName::new(alloc, b"HEAD") {
        Ok(name) => Ok(name),
        Err(_) => Err(NoMemory),
    }
}

fn target(alloc: Global) -> Result<Target, NoMemory> {
    let name = name(alloc)?;
    Ok(Target::Symbolic(name))
}

fn is_shown(alloc: Global, error: CommitEditsError, text: &str) -> Result<bool, NoMemory> {
    shows(alloc, &error, text)
}

fn object_errors_show(alloc: Global) -> Result<bool, NoMemory> {
    let path = Bytes::from_slice(alloc, b"a//b")?;
    let empty = CommitEditsError::EmptyPathComponent { path };
    let field = Field::AuthorName;
    let unwritable = CommitEditsError::WriteObject { field };
    let fault = CommitEditsError::Store { what: What::Index };
    Ok(
        is_shown(alloc, empty, "a path has an empty component")?
            && is_shown(alloc, unwritable, "the field AuthorName can't be written")?
            && is_shown(alloc, fault, "the store failed at Index")?
            && is_shown(alloc, CommitEditsError::NoMemory, "out of memory")?,
    )
}

fn a_cycle_shows(alloc: Global) -> Result<bool, NoMemory> {
    let name = name(alloc)?;
    let cycle = CommitEditsError::Cycle { name };
    is_shown(alloc, cycle, "the reference leads back into itself")
}

fn a_deep_chain_shows(alloc: Global) -> Result<bool, NoMemory> {
    let name = name(alloc)?;
    let deep = CommitEditsError::DepthLimitExceeded { name };
    is_shown(alloc, deep, "the reference leads through too many others")
}

fn an_absent_name_shows(alloc: Global) -> Result<bool, NoMemory> {
    let name = name(alloc)?;
    let absent = CommitEditsError::MustExist { name };
    is_shown(alloc, absent, "the reference does not exist")
}

fn chain_errors_show(alloc: Global) -> Result<bool, NoMemory> {
    Ok(a_cycle_shows(alloc)? && a_deep_chain_shows(alloc)? && an_absent_name_shows(alloc)?)
}

fn an_existing_name_shows(alloc: Global) -> Result<bool, NoMemory> {
    let actual = target(alloc)?;
    let name = name(alloc)?;
    let there = CommitEditsError::MustNotExist { name, actual };
    is_shown(alloc, there, "the reference exists")
}

fn late_commit(alloc: Global, expected: Target) -> Result<CommitEditsError, NoMemory> {
    let actual = target(alloc)?;
    let name = name(alloc)?;
    Ok(CommitEditsError::ReferenceOutOfDate {
        name,
        expected,
        actual,
    })
}

fn a_late_commit_shows(alloc: Global) -> Result<bool, NoMemory> {
    let expected = target(alloc)?;
    let late = late_commit(alloc, expected)?;
    is_shown(alloc, late, "the reference names another object")
}

fn a_conflict_shows(alloc: Global) -> Result<bool, NoMemory> {
    let other = name(alloc)?;
    let name = name(alloc)?;
    let beside = CommitEditsError::NameConflict { name, other };
    is_shown(alloc, beside, "the reference can't stand beside another")
}

fn target_errors_show(alloc: Global) -> Result<bool, NoMemory> {
    Ok(an_existing_name_shows(alloc)? && a_late_commit_shows(alloc)? && a_conflict_shows(alloc)?)
}

fn commit_errors_show(alloc: Global) -> Result<bool, NoMemory> {
    Ok(object_errors_show(alloc)? && chain_errors_show(alloc)? && target_errors_show(alloc)?)
}

#[test]
fn errors_of_commits_are_told(rt: HostRuntime) {
    assert!(rt; commit_errors_show(rt.alloc()).unwrap_or(false));
}
