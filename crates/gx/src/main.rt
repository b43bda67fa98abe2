//! The program: a script of requests from standard input, applied to a store, with a reply for each on standard output;
//! or commits of the generator.
#![tactic(auto)]

ghost use Rattle.std.specs.Prelude.{◌≡◌, ◌⊎◌, ◌↔◌, codes, Some, IsTrue, MatchResult};

use gix::{Repository, Settings};
use gx_folder::{Folder, OpenError};
use gx_hash::{HashKind, NoMemory};
use gx_object::Time;
use gx_store::{Memory, Objects, StdSink, StdSource, Store};
use gx_tool::{parse_words, run};
use std::io::{self, ErrorKind};
use std::process::ExitCode;
use std::time::{SystemTime, UNIX_EPOCH};
use std::{env, mem};

/// What `--help` prints, and standard error hears of a faulty command line.
const USAGE: &str = "usage: gx STORE apply < SCRIPT
       gx STORE generate NUMBER

Applies a script of requests from standard input to a repository, and writes a
reply for each to standard output; or makes commits of its own there, and writes
how many, the last one's tree and its id. STORE says where the repository is:

  --memory         in memory, empty, with SHA-1 ids
  --memory-sha256  the same, with SHA-256 ids
  FOLDER           in this folder, with SHA-1 ids; it is made if it is absent or
                   empty. A name that begins with `-` is written ./-NAME
  sha256:FOLDER    the same, with SHA-256 ids

  apply            applies the script
  generate NUMBER  makes so many commits of a small file each, at most 20000,
                   the same at every run
  -h, --help       prints this text
  --version        prints the version

status  0  each request of the script got an `ok`, or all commits were made
        1  all requests of the script were replied to, one or more with `no`; or
           a commit was refused
        2  the script is malformed after the requests that were replied to:
           `script_probe sha1 < SCRIPT` names the line
        3  reading the script failed
        4  writing the replies failed
        5  out of memory
        6  the arguments are not as above
        7  the store failed, or another program has the folder
        8  the script has more than 2^40 bytes
        9  STORE is a folder with other files, or of the other kind of ids
";

const VERSION: &str = "gx 0.1.0";

/// The statuses that `main` gives itself; the first two are a run's as well.
const OUT_OF_MEMORY: u8 = 5;

const WRITE_FAULT: u8 = 4;

const BAD_WORDS: u8 = 6;

const STORE_FAULT: u8 = 7;

const NOT_A_REPOSITORY: u8 = 9;

fn main(rt: HostRuntime) -> ExitCode {
    ExitCode::from(status_of(&rt))
}

fn status_of(rt: &HostRuntime) -> u8 {
    match words_of(rt) {
        Ok(words) => serve(rt, &words),
        Err(error) if error.kind() == ErrorKind::OutOfMemory => OUT_OF_MEMORY,
        Err(_) => bad_words(rt),
    }
}

/// The words after the program's name.
fn words_of(rt: &HostRuntime) -> io::Result<Vec<String>> {
    let mut words = Vec::new(rt.alloc());
    for word in env::args(rt)?.skip(1) {
        words.push(word)?;
    }
    Ok(words)
}

fn serve(rt: &HostRuntime, words: &[String]) -> u8 {
    match words {
        [word] if is_help(word.as_str()) => printed(print!(rt; "{USAGE}")),
        [word] if word.as_str() == "--version" => printed(println!(rt; "{VERSION}")),
        [] => apply_in_memory(rt, words, HashKind::Sha1),
        [store, ..] => match hash_of(store.as_str()) {
            Some(hash) => apply_in_memory(rt, words, hash),
            None => apply_in_folder(rt, words, store.as_str()),
        },
    }
}

/// Whether the word asks for help, as it does of Git.
fn is_help(word: &str) -> bool
    ensures { IsTrue result ↔ (word.now ≡ codes "-h" ⊎ word.now ≡ codes "--help") }
{
    word == "-h" || word == "--help"
}

/// The kind of ids in a store in memory, where the word asks for one.
fn hash_of(store: &str) -> Option<HashKind>
    ensures short { (result ≡ Some HashKind.Sha1) ↔ (store.now ≡ codes "--memory") }
    ensures long { (result ≡ Some HashKind.Sha256) ↔ (store.now ≡ codes "--memory-sha256") }
{
    if store == "--memory" {
        return Some(HashKind::Sha1);
    }
    if store == "--memory-sha256" {
        return Some(HashKind::Sha256);
    }
    None
}

/// The path and the kind of ids of the folder that the word names.
fn folder_of(word: &str) -> (&str, HashKind) {
    match word.strip_prefix("sha256:") {
        Some(path) => (path, HashKind::Sha256),
        None => (word, HashKind::Sha1),
    }
}

fn not_a_repository(rt: &HostRuntime) -> u8 {
    let _heard = eprintln!(rt; "not a repository");
    NOT_A_REPOSITORY
}

fn store_fault(rt: &HostRuntime) -> u8 {
    let _heard = eprintln!(rt; "store fault");
    STORE_FAULT
}

/// The status of an answer to the words that was printed, or not.
fn printed(outcome: io::Result<()>) -> u8
    ensures { MatchResult outcome (λ _. result ≡ 0) (λ _. result ≡ 4) }
{
    match outcome {
        Ok(()) => 0,
        Err(_) => WRITE_FAULT,
    }
}

fn bad_words(rt: &HostRuntime) -> u8 {
    let _heard = eprint!(rt; "{USAGE}");
    BAD_WORDS
}

/// Runs the words on an empty repository in memory.
fn apply_in_memory(rt: &HostRuntime, words: &[String], hash: HashKind) -> u8 {
    match Memory::new(rt.alloc(), hash) {
        Ok(store) => apply(rt, words, store),
        Err(NoMemory) => OUT_OF_MEMORY,
    }
}

/// Runs the words on the repository in a folder. None is made where the words are faulty, or the word looks like a
/// misspelled option.
fn apply_in_folder(rt: &HostRuntime, words: &[String], word: &str) -> u8 {
    let (path, hash) = folder_of(word);
    if path.is_empty() || word.starts_with("-") {
        return not_a_repository(rt);
    }
    if parse_words(words).is_err() {
        return bad_words(rt);
    }
    match open_or_create(rt, path, hash) {
        Ok(store) => apply(rt, words, store),
        Err(OpenError::NotARepository) => not_a_repository(rt),
        Err(OpenError::Fault) => store_fault(rt),
        Err(OpenError::NoMemory) => OUT_OF_MEMORY,
    }
}

/// The store in the folder, which is made where the folder is absent or empty.
fn open_or_create(
    rt: &HostRuntime,
    path: &str,
    hash: HashKind,
) -> Result<Folder<HostRuntime>, OpenError> {
    match Folder::open(rt.clone()?, path) {
        Ok(store) if store.hash_kind() == hash => Ok(store),
        Ok(_) => Err(OpenError::NotARepository),
        Err(OpenError::NotARepository) => Folder::create(rt.clone()?, path, hash),
        Err(error) => Err(error),
    }
}

/// Runs the words on a store.
fn apply<S: Store + Drop>(rt: &HostRuntime, words: &[String], store: S) -> u8 {
    let mut repo = Repository::new(store, Settings::new());
    let mut input = StdSource::new(rt.reader());
    let mut output = StdSink::new(io::writer(rt));
    let status = run(
        rt.alloc(),
        words,
        now(rt),
        &mut repo,
        &mut input,
        &mut output,
    );
    // The process ends here, and its memory with it, so that the store need not be freed object by object.
    mem::forget(repo);
    if status == BAD_WORDS {
        return bad_words(rt);
    }
    status
}

/// The moment, without an offset. Its seconds are 0 where the clock can't be read.
fn now(rt: &HostRuntime) -> Time {
    Time {
        seconds: seconds_now(rt).unwrap_or(0),
        offset: 0,
    }
}

fn seconds_now(rt: &HostRuntime) -> Option<i64> {
    let moment = SystemTime::now(rt).ok()?;
    let since = moment.duration_since(UNIX_EPOCH).ok()?;
    i64::try_from(since.as_secs()).ok()
}
