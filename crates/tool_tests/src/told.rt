//! What a commit that meets a fault names, and what `Repository` and the calls below `run` answer with ample memory.

use crate::scripts::{FIRST, NOW, apply, empty_repository, source, words};
use gix::{CommitEditsError, NO_PARENT_IDS, Repository, Settings};
use gx_hash::{Bytes, HashKind, ObjectId};
use gx_object::{Signature, Time};
use gx_rules::FullName;
use gx_store::{Calls, Memory, MemorySink, What};
use gx_tool::{Job, parse_words, run_limited};
use std::alloc::Global;
use std::test::Fail;

/// The commit of `FIRST`, its tree and its file.
const COMMIT: &[u8] = b"d432cc22925b1fddcaa9fdf18c688bd7411e65ed";

const TREE: &[u8] = b"a4102281695b7d145714a96bb770d7e3619147da";

const FILE: &[u8] = b"95d09f2b10159347eece71399a7e2e907ea3df4f";

/// Message `c2`, the empty tree, no parent.
const EMPTY: &[u8] = b"726c543971a2faccb38c8357e483c5aa1bd88228";

fn person(alloc: Global) -> Result<Signature, Fail> {
    Ok(Signature {
        name: Bytes::from_slice(alloc, b"A")?,
        email: Bytes::from_slice(alloc, b"a@x")?,
        time: Time {
            seconds: 1,
            offset: 0,
        },
    })
}

/// A commit without edits.
fn commit(
    alloc: Global,
    repo: &mut Repository<Memory>,
    name: &[u8],
    parents: &[ObjectId],
) -> Result<Result<ObjectId, CommitEditsError>, Fail> {
    let who = person(alloc)?;
    let name = FullName::new(alloc, name)?;
    let made = repo.commit_edits(alloc, &who, &who, &name, b"c2\n", parents, &[]);
    Ok(made)
}

/// A store with the commit of `FIRST`.
fn with_first(alloc: Global) -> Result<Memory, Fail> {
    let mut repo = empty_repository(alloc)?;
    apply(alloc, &mut repo, FIRST)?;
    Ok(repo.into_store())
}

/// What a commit on the first names that meets a fault of the store.
fn told(alloc: Global, store: Memory, name: &[u8]) -> Result<Option<What>, Fail> {
    let mut repo = Repository::new(store, Settings::new());
    let parents = [ObjectId::from_hex(COMMIT)?];
    let made = commit(alloc, &mut repo, name, &parents)?;
    Ok(part_told(made))
}

fn part_told(made: Result<ObjectId, CommitEditsError>) -> Option<What> {
    match made {
        Err(CommitEditsError::Store { what }) => Some(what),
        _ => None,
    }
}

fn tells_object(alloc: Global, digits: &[u8]) -> Result<bool, Fail> {
    let id = ObjectId::from_hex(digits)?;
    let mut store = with_first(alloc)?;
    store.break_object(id)?;
    let part = told(alloc, store, b"refs/heads/new")?;
    Ok(part == Some(What::Object(id)))
}

fn tells_objects(alloc: Global) -> Result<bool, Fail> {
    Ok(tells_object(alloc, COMMIT)? && tells_object(alloc, TREE)? && tells_object(alloc, FILE)?)
}

#[test]
fn an_object_that_cannot_be_read_is_named(rt: HostRuntime) -> Result<(), Fail> {
    assert!(rt; tells_objects(rt.alloc())?);
    Ok(())
}

fn tells_name(alloc: Global) -> Result<bool, Fail> {
    let main = FullName::new(alloc, b"refs/heads/main")?;
    let store = with_broken(alloc, &main)?;
    let part = told(alloc, store, b"HEAD")?;
    Ok(part == Some(What::Name(main)))
}

fn with_broken(alloc: Global, name: &FullName) -> Result<Memory, Fail> {
    let mut store = with_first(alloc)?;
    let name = name.try_clone()?;
    store.break_name(name)?;
    Ok(store)
}

fn tells_listing(alloc: Global) -> Result<bool, Fail> {
    let mut store = with_first(alloc)?;
    store.break_listing();
    let part = told(alloc, store, b"refs/heads/new")?;
    Ok(part == Some(What::Listing))
}

/// `FIRST` made four changes, and the commit on it two: itself and the reference.
fn tells_write(alloc: Global, nth: u64) -> Result<bool, Fail> {
    let mut store = with_first(alloc)?;
    store.fail_write(nth)?;
    let part = told(alloc, store, b"refs/heads/new")?;
    Ok(part == Some(What::Write))
}

fn tells_others(alloc: Global) -> Result<bool, Fail> {
    Ok(
        tells_name(alloc)?
            && tells_listing(alloc)?
            && tells_write(alloc, 5)?
            && tells_write(alloc, 6)?,
    )
}

#[test]
fn what_else_fails_is_named(rt: HostRuntime) -> Result<(), Fail> {
    assert!(rt; tells_others(rt.alloc())?);
    Ok(())
}

fn is_committed(alloc: Global) -> Result<bool, Fail> {
    let mut repo = empty_repository(alloc)?;
    let made = commit(alloc, &mut repo, b"HEAD", &NO_PARENT_IDS)?;
    let id = ObjectId::from_hex(EMPTY)?;
    Ok(made == Ok(id))
}

fn strict() -> Settings {
    let mut settings = Settings::new();
    settings.protect.windows = true;
    settings
}

/// Whether both have the same protections and logs, and no namespace.
fn are_alike(one: &Settings, other: &Settings) -> bool {
    let in_none = one.namespace.is_none() && other.namespace.is_none();
    in_none && one.protect == other.protect && one.log_mode == other.log_mode
}

/// Each setter answers what was there.
fn are_settings_changed(alloc: Global) -> Result<bool, Fail> {
    let mut repo = empty_repository(alloc)?;
    let before = repo.set_settings(strict());
    let was_new = are_alike(&before, &Settings::new());
    let is_set = are_alike(repo.settings(), &strict());
    Ok(was_new && is_set && repo.object_hash() == HashKind::Sha1)
}

fn answers(alloc: Global) -> Result<bool, Fail> {
    Ok(is_committed(alloc)? && are_settings_changed(alloc)?)
}

#[test]
fn a_repository_answers(rt: HostRuntime) -> Result<(), Fail> {
    assert!(rt; answers(rt.alloc())?);
    Ok(())
}

/// Runs `FIRST` within a limit.
fn ends_within(alloc: Global, limit: u64, wanted: u8) -> Result<bool, Fail> {
    let mut repo = empty_repository(alloc)?;
    let mut input = source(alloc, FIRST, usize::MAX, 0)?;
    let mut output = MemorySink::new(alloc, Calls::new(alloc));
    let words = words(alloc)?;
    let status = run_limited(
        alloc,
        &words,
        NOW,
        &mut repo,
        &mut input,
        &mut output,
        limit,
    );
    Ok(status == wanted)
}

fn are_limits_kept(alloc: Global) -> Result<bool, Fail> {
    Ok(ends_within(alloc, 108, 0)? && ends_within(alloc, 107, 8)?)
}

#[test]
fn a_run_ends_at_its_limit(rt: HostRuntime) -> Result<(), Fail> {
    assert!(rt; are_limits_kept(rt.alloc())?);
    Ok(())
}

fn are_words_read(alloc: Global) -> Result<bool, Fail> {
    let mut words = words(alloc)?;
    let is_job = parse_words(&words) == Ok(Job::Apply);
    words.push(String::from_str(alloc, "apply")?)?;
    Ok(is_job && parse_words(&words).is_err() && parse_words(&[]).is_err())
}

#[test]
fn words_are_read(rt: HostRuntime) -> Result<(), Fail> {
    assert!(rt; are_words_read(rt.alloc())?);
    Ok(())
}
