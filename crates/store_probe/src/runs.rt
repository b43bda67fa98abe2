//! Rows of runs: `run KIND STEP ; STEP ..` answers each step on a new store in memory.
//!
//! - `script TEXT` runs a script, and answers the status and what was written. `within LIMIT TEXT` does so for a script
//!   of at most LIMIT bytes; `reading SIZE CALL TEXT` from a source that gives at most SIZE bytes at once and fails at
//!   that call; `writing CALL TEXT` to a sink that fails at that call. Calls are counted from 1.
//! - `generate NUMBER` runs the generator, and answers the same; `generate CALL NUMBER` to a sink that fails at that
//!   call.
//! - `windows` forbids names that Windows forbids; `logs MODE` says which logs are written, as `normal`, `always` or
//!   `disable`.
//! - `namespace NAME` goes into a namespace, and `namespace` into none; both answer the prefix from before, or `none`.
//! - Steps on the references of the repository are those of src/repository_references.rt, and all other steps those of
//!   `store` rows.

use crate::reference_edits::partial_in;
use crate::repository_references;
use crate::settings::choose;
use crate::store::{answer_step, push_answer};
use crate::values::hash_in;
use gix::{Repository, Settings};
use gx_hash::Bytes;
use gx_object::Time;
use gx_store::{Calls, Memory, MemorySink, MemorySource};
use gx_tool::{run, run_limited};
use probe_rows::ProbeError;
use probe_rows::answers::{number_of, push_field, shown, word};
use std::alloc::Global;

/// The moment of each run.
const NOW: Time = Time {
    seconds: 1,
    offset: 0,
};

/// A script, or a number of commits of the generator, and how it is run.
#[derive(Clone, Copy)]
struct Script<'a> {
    text: &'a [u8],
    number: Option<&'a [u8]>,
    limit: Option<u64>,
    /// The most bytes that are read at once.
    most: usize,
    /// The calls that fail. There is no call 0.
    failing_read: u64,
    failing_write: u64,
}

/// The answer of `run`.
pub fn answer(alloc: Global, fields: &[Vec<u8>]) -> Result<Vec<u8>, ProbeError> {
    let Some((kind, words)) = fields.split_first() else {
        return Err(ProbeError::BadLine);
    };
    let mut repo = Repository::new(Memory::new(alloc, hash_in(kind)?)?, Settings::new());
    let mut answers = Vec::new(alloc);
    for step in words.split(|field| field.as_slice() == b";".as_slice()) {
        repo = stepped(alloc, repo, step, &mut answers)?;
    }
    Ok(answers)
}

/// Takes a step, and appends its answer.
fn stepped(
    alloc: Global,
    mut repo: Repository<Memory>,
    step: &[Vec<u8>],
    answers: &mut Vec<u8>,
) -> Result<Repository<Memory>, ProbeError> {
    if let Some(script) = script_in(step) {
        let answer = ran(alloc, &mut repo, script)?;
        push_answer(answers, &answer)?;
        return Ok(repo);
    }
    if let Some(answer) = moved_or_read(alloc, &mut repo, step)? {
        push_answer(answers, &answer)?;
        return Ok(repo);
    }
    let mut settings = repo.set_settings(Settings::new());
    let mut store = repo.into_store();
    let answer = chosen_or_made(alloc, &mut settings, &mut store, step)?;
    push_answer(answers, &answer)?;
    Ok(Repository::new(store, settings))
}

/// The answer of a step that goes into a namespace, or of one on the references of the repository.
fn moved_or_read(
    alloc: Global,
    repo: &mut Repository<Memory>,
    step: &[Vec<u8>],
) -> Result<Option<Vec<u8>>, ProbeError> {
    if let Some(answer) = moved(alloc, repo, step)? {
        return Ok(Some(answer));
    }
    match repository_references::answer(alloc, repo, step) {
        Ok(answer) => Ok(Some(answer)),
        Err(ProbeError::UnknownCall) => Ok(None),
        Err(error) => Err(error),
    }
}

/// The answer of a step that goes into a namespace, or into none.
fn moved(
    alloc: Global,
    repo: &mut Repository<Memory>,
    step: &[Vec<u8>],
) -> Result<Option<Vec<u8>>, ProbeError> {
    let before = match step {
        [call] if call.as_slice() == b"namespace".as_slice() => repo.clear_namespace(),
        [call, name] if call.as_slice() == b"namespace".as_slice() => {
            let name = partial_in(alloc, name)?;
            repo.set_namespace(alloc, &name)?
        }
        _ => return Ok(None),
    };
    let answer = match before {
        Some(space) => Vec::from_slice(alloc, space.as_slice())?,
        None => word(alloc, "none")?,
    };
    Ok(Some(answer))
}

/// The answer of a step that chooses a setting, or of a call on the store.
fn chosen_or_made(
    alloc: Global,
    settings: &mut Settings,
    store: &mut Memory,
    step: &[Vec<u8>],
) -> Result<Vec<u8>, ProbeError> {
    if choose(settings, step) {
        return word(alloc, "ok");
    }
    answer_step(alloc, store, step)
}

/// The script of a step that runs one.
fn script_in(step: &[Vec<u8>]) -> Option<Script<'_>> {
    let [call, words @ .., text] = step else {
        return None;
    };
    let whole = Script {
        text,
        number: None,
        limit: None,
        most: usize::MAX,
        failing_read: 0,
        failing_write: 0,
    };
    match str::from_utf8(call).ok()? {
        "script" => Some(whole),
        "within" => within(whole, words),
        "reading" => reading(whole, words),
        "writing" => writing(whole, words),
        "generate" => generate(whole, words),
        _ => None,
    }
}

fn within<'a>(script: Script<'a>, words: &[Vec<u8>]) -> Option<Script<'a>> {
    let [limit] = words else {
        return None;
    };
    Some(Script {
        limit: Some(number_of(limit)?),
        ..script
    })
}

fn reading<'a>(script: Script<'a>, words: &[Vec<u8>]) -> Option<Script<'a>> {
    let [size, call] = words else {
        return None;
    };
    Some(Script {
        most: usize::try_from(number_of(size)?).ok()?,
        failing_read: number_of(call)?,
        ..script
    })
}

fn writing<'a>(script: Script<'a>, words: &[Vec<u8>]) -> Option<Script<'a>> {
    let [call] = words else {
        return None;
    };
    Some(Script {
        failing_write: number_of(call)?,
        ..script
    })
}

fn generate<'a>(script: Script<'a>, words: &[Vec<u8>]) -> Option<Script<'a>> {
    let failing_write = match words {
        [] => 0,
        [call] => number_of(call)?,
        _ => return None,
    };
    Some(Script {
        number: Some(script.text),
        text: b"",
        failing_write,
        ..script
    })
}

/// The status of the script's run, and what it wrote.
fn ran(
    alloc: Global,
    repo: &mut Repository<Memory>,
    script: Script<'_>,
) -> Result<Vec<u8>, ProbeError> {
    let mut input = source_of(alloc, script)?;
    let mut output = MemorySink::new(alloc, call(alloc, script.failing_write)?);
    let words = words(alloc, script.number)?;
    let status = match script.limit {
        None => run(alloc, &words, NOW, repo, &mut input, &mut output),
        Some(limit) => run_limited(alloc, &words, NOW, repo, &mut input, &mut output, limit),
    };
    let mut answer = shown(alloc, &status)?;
    push_field(&mut answer, output.written())?;
    Ok(answer)
}

fn source_of(alloc: Global, script: Script<'_>) -> Result<MemorySource, ProbeError> {
    let bytes = Bytes::from_slice(alloc, script.text)?;
    let failing = call(alloc, script.failing_read)?;
    Ok(MemorySource::chunked(bytes, failing, script.most.max(1)))
}

fn call(alloc: Global, number: u64) -> Result<Calls, ProbeError> {
    let mut calls = Vec::new(alloc);
    calls.push(number)?;
    Ok(Calls::from_vec(calls))
}

/// The words that apply a script, or make so many commits of the generator.
fn words(alloc: Global, number: Option<&[u8]>) -> Result<Vec<String>, ProbeError> {
    let mut words = Vec::new(alloc);
    words.push(String::from_str(alloc, "--memory")?)?;
    match number {
        None => words.push(String::from_str(alloc, "apply")?)?,
        Some(number) => push_generate(alloc, &mut words, number)?,
    }
    Ok(words)
}

fn push_generate(alloc: Global, words: &mut Vec<String>, number: &[u8]) -> Result<(), ProbeError> {
    let Ok(number) = str::from_utf8(number) else {
        return Err(ProbeError::BadLine);
    };
    words.push(String::from_str(alloc, "generate")?)?;
    words.push(String::from_str(alloc, number)?)?;
    Ok(())
}
