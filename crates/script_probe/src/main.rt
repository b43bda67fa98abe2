//! What the library says of scripts, for the checks of this repository and for a person whose script is malformed.
#![tactic(auto)]

mod requests;
mod scripts;

use gx_hash::HashKind;
use gx_script::ScriptReader;
use gx_store::StdSource;
use probe_rows::answers::word;
use probe_rows::{Answer, ProbeError, answer_rows};
use scripts::{SCRIPT_LIMIT, Told, Watched};
use std::alloc::Global;
use std::env;
use std::io::{self, Write};
use std::process::ExitCode;

const USAGE: &str = "usage: script_probe (rows | sha1 | sha256) < INPUT

  rows           answers each row: it prints the row again, with the answer of the library after its ` = `
  sha1 | sha256  reads a script, and tells each request on a line, and last where the script is wrong, or that it ended

status  0  done
        1  the script is wrong
        2  the words are not as above
        3  reading or writing failed, or memory ran out
";

const WRONG: u8 = 1;

const BAD_WORDS: u8 = 2;

const FAILED: u8 = 3;

/// What is asked of the input.
#[derive(Clone, Copy)]
enum Job {
    Rows,
    /// What is told of a script, line by line as it is read.
    Script(HashKind),
}

fn main(rt: HostRuntime) -> ExitCode {
    ExitCode::from(status_of(&rt))
}

fn status_of(rt: &HostRuntime) -> u8 {
    match read_args(rt) {
        Ok(Some(job)) => done(rt, job),
        Ok(None) => {
            let _heard = eprint!(rt; "{USAGE}");
            BAD_WORDS
        }
        Err(_) => FAILED,
    }
}

/// What the word after the program's name asks for.
fn read_args(rt: &HostRuntime) -> io::Result<Option<Job>> {
    let mut words = Vec::new(rt.alloc());
    for word in env::args(rt)?.skip(1) {
        words.push(word)?;
    }
    Ok(read_words(&words))
}

fn read_words(words: &[String]) -> Option<Job> {
    match words {
        [job] if job.as_str() == "rows" => Some(Job::Rows),
        [kind] if kind.as_str() == "sha1" => Some(Job::Script(HashKind::Sha1)),
        [kind] if kind.as_str() == "sha256" => Some(Job::Script(HashKind::Sha256)),
        _ => None,
    }
}

fn done(rt: &HostRuntime, job: Job) -> u8 {
    match outcome(rt, job) {
        Ok(true) => 0,
        Ok(false) => WRONG,
        Err(_) => FAILED,
    }
}

/// Does the job, and answers whether what was read was right.
fn outcome(rt: &HostRuntime, job: Job) -> Result<bool, ProbeError> {
    match job {
        Job::Rows => {
            answer_rows(rt.alloc(), &ScriptRows, rt.reader(), io::writer(rt))?;
            Ok(true)
        }
        Job::Script(hash) => tell_script(rt, hash),
    }
}

/// The library that reads scripts.
struct ScriptRows;

impl Answer for ScriptRows {
    fn answer(&self, alloc: Global, call: &str, fields: &[Vec<u8>]) -> Result<Vec<u8>, ProbeError> {
        scripts::answer(alloc, call, fields)
    }
}

/// Tells what a script asks for, request by request, and answers whether it was read to its end.
fn tell_script(rt: &HostRuntime, hash: HashKind) -> Result<bool, ProbeError> {
    let alloc = rt.alloc();
    let mut input = Watched::new(StdSource::new(rt.reader()));
    let mut output = io::writer(rt);
    let mut reader = ScriptReader::new(alloc, hash, SCRIPT_LIMIT)?;
    for _ in 0..u64::MAX {
        match scripts::next(alloc, &mut reader, &mut input)? {
            Told::Request(line) => tell(&mut output, line)?,
            Told::Wrong(line) => {
                tell(&mut output, line)?;
                return Ok(false);
            }
            Told::End => {
                tell(&mut output, word(alloc, "end")?)?;
                break;
            }
        }
    }
    Ok(true)
}

fn tell(output: &mut impl Write, mut line: Vec<u8>) -> Result<(), ProbeError> {
    line.push(b'\n')?;
    match output.write_all(&line) {
        Ok(()) => Ok(()),
        Err(_) => Err(ProbeError::Failed),
    }
}
