//! How a script is run.

ghost use Rattle.std.specs.Prelude.{◌≡◌, ◌≤◌, ◌↔◌, ◌^◌, ℕ, OnOk, IfErr};
ghost use Rattle.gx_store.specs.Faults.{Rose};
ghost use Rattle.gx_store.specs.Outside.{Writes};
ghost use Rattle.gx_tool.specs.Course.{Served, WritesFront, IsApply, Answers, moment_of};
ghost use Rattle.gx_tool.specs.Generating.{IsGenerated, scene_of};
ghost use Rattle.gx_tool.specs.Words.{AreAllowed, IsGenerate};

use crate::executing::{ExecuteError, execute};
use crate::generating::generate;
use crate::laws::call_laws;
use crate::reply::print_reply;
use crate::status::Status;
use crate::words::{Job, parse_words};
use gix::Repository;
use gx_object::Time;
use gx_script::{ScriptError, ScriptReader};
use gx_store::{Sink, SinkError, Source, Store};
use std::alloc::Global;

/// The most bytes of a script.
const SCRIPT_LIMIT: u64 = 1 << 40;

/// Writes all of the bytes. After an `Err` a front of them is written.
pub(crate) fn write_all<O: Sink>(output: &mut O, bytes: &[u8]) -> Result<(), SinkError>
    ensures ok { OnOk result (Writes (O.written output.old) (O.written output.new) bytes.now) }
    ensures err { IfErr result (λ e. WritesFront (O.written output.old) (O.written output.new) bytes.now) }
    ensures later { O.faults output.old ≤ O.faults output.new }
    ensures failed { result ≡ Err SinkError.Failed → Rose (O.faults output.old) (O.faults output.new) }
{
    let mut rest = bytes;
    while !rest.is_empty() {
        let count = output.write(rest)?;
        rest = &rest[count..];
    }
    Ok(())
}

/// Reads a script of at most `limit` bytes, and runs it request by request.
fn serve<S: Store, I: Source, O: Sink>(
    alloc: Global,
    limit: u64,
    now: Time,
    repo: &mut Repository<S>,
    input: &mut I,
    output: &mut O,
) -> Status
    ensures { Served limit
        (moment_of S.state I.left I.faults O.written O.faults repo.old input.old output.old)
        (moment_of S.state I.left I.faults O.written O.faults repo.new input.new output.new)
        result }
{
    call_laws();
    let mut reader = match ScriptReader::new(alloc, repo.object_hash(), limit) {
        Ok(reader) => reader,
        Err(_) => return Status::NoMemory,
    };
    let mut accepted = true;
    'requests: loop {
        let request = match reader.next(input) {
            Ok(Some(request)) => request,
            Ok(None) => {
                if accepted {
                    return Status::Done;
                }
                return Status::Refusals;
            }
            Err(ScriptError::Malformed { .. }) => return Status::Malformed,
            Err(ScriptError::ReadFault) => return Status::ReadFault,
            Err(ScriptError::TooLong) => return Status::TooLong,
            Err(ScriptError::NoMemory) => return Status::NoMemory,
        };
        let reply = match execute(alloc, repo, now, &request) {
            Ok(reply) => reply,
            Err(ExecuteError::Store { .. }) => return Status::StoreFault,
            Err(ExecuteError::NoMemory) => return Status::NoMemory,
        };
        let line = match print_reply(alloc, &reply) {
            Ok(line) => line,
            Err(_) => return Status::NoMemory,
        };
        match write_all(output, line.as_slice()) {
            Ok(()) => {}
            Err(SinkError::Failed) => return Status::WriteFault,
            Err(SinkError::NoMemory) => return Status::NoMemory,
        }
        accepted &= reply.is_accepted();
    }
}

/// Reads a script of at most `limit` bytes where the words ask for it, or makes commits of the generator, and answers
/// the number of the run's status.
pub fn run_limited<S: Store, I: Source, O: Sink>(
    alloc: Global,
    words: &[String],
    now: Time,
    repo: &mut Repository<S>,
    input: &mut I,
    output: &mut O,
    limit: u64,
) -> u8
    ensures bad_words { (result ≡ 6) ↔ (AreAllowed words.now → ⊥) }
    ensures untouched { (AreAllowed words.now → ⊥) → (repo.new ≡ repo.old) × (input.new ≡ input.old)
        × (output.new ≡ output.old) }
    ensures answers { IsApply words.now → Answers limit
        (moment_of S.state I.left I.faults O.written O.faults repo.old input.old output.old)
        (moment_of S.state I.left I.faults O.written O.faults repo.new input.new output.new)
        result }
    ensures generates { (count : ℕ) → IsGenerate count words.now → (input.new ≡ input.old) × IsGenerated count
        (scene_of S.state O.written O.faults repo.old output.old)
        (scene_of S.state O.written O.faults repo.new output.new) result }
{
    match parse_words(words) {
        Err(_) => Status::BadWords.code(),
        Ok(Job::Apply) => serve(alloc, limit, now, repo, input, output).code(),
        Ok(Job::Generate(count)) => generate(alloc, count, repo, output).code(),
    }
}

/// Reads a script of at most 2^40 bytes where the words ask for it, or makes commits of the generator, and answers the
/// number of the run's status.
///
/// ```
/// let mut repo = Repository::new(Memory::new(alloc, HashKind::Sha1)?, Settings::new());
/// let mut script = StdSource::new(rt.reader());
/// let mut replies = StdSink::new(io::writer(&rt));
/// let status = run(alloc, &words, now, &mut repo, &mut script, &mut replies);
/// ```
pub fn run<S: Store, I: Source, O: Sink>(
    alloc: Global,
    words: &[String],
    now: Time,
    repo: &mut Repository<S>,
    input: &mut I,
    output: &mut O,
) -> u8
    ensures bad_words { (result ≡ 6) ↔ (AreAllowed words.now → ⊥) }
    ensures untouched { (AreAllowed words.now → ⊥) → (repo.new ≡ repo.old) × (input.new ≡ input.old)
        × (output.new ≡ output.old) }
    ensures answers { IsApply words.now → Answers (2 ^ 40)
        (moment_of S.state I.left I.faults O.written O.faults repo.old input.old output.old)
        (moment_of S.state I.left I.faults O.written O.faults repo.new input.new output.new)
        result }
    ensures generates { (count : ℕ) → IsGenerate count words.now → (input.new ≡ input.old) × IsGenerated count
        (scene_of S.state O.written O.faults repo.old output.old)
        (scene_of S.state O.written O.faults repo.new output.new) result }
{
    run_limited(alloc, words, now, repo, input, output, SCRIPT_LIMIT)
}
