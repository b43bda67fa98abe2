//! What the libraries say of names, objects and path maps, for the checks and the benches of this repository.
#![tactic(auto)]

mod actors;
mod commits;
mod components;
mod fields;
mod identities;
mod ids;
mod mailmaps;
mod names;
mod objects;
mod paths;
mod prefixes;
mod rows;
mod tags;
mod trees;

use gx_hash::HashKind;
use probe_rows::{ProbeError, answered, read_input, write_output};
use rows::Libraries;
use std::alloc::Global;
use std::process::ExitCode;
use std::{env, io};

const USAGE: &str = "usage: gx_probe rows | names | mailmap < INPUT
       gx_probe (tree | commit | tag | entries | root | paths) (sha1 | sha256) < INPUT

  rows     answers each row: it prints the row again, with the answer of the libraries after its ` = `
  names    judges each line: `full`, `partial` or `no`, as it is a name of a reference
  mailmap  reads the size of a mailmap, a newline, the mailmap, and lines `Name <email>`, and resolves each
  tree     reads a tree, and writes it again
  commit   reads a commit, and writes it again
  tag      reads a tag, and writes it again
  entries  counts the entries of a tree
  root     puts the leaf of each line at its path, in turn, and writes the id of the root
  paths    does so, reads the trees of that root, and writes the lines of its path map

A leaf's line is its mode, a space, its id, a tab, and its path: `git update-index --index-info` reads such lines.

status  0  done
        1  the input is no such object, of which standard error hears from which byte on, or no such lines
        2  the words are not as above
        3  reading or writing failed, or memory ran out
";

const NO_OBJECT: u8 = 1;

const BAD_WORDS: u8 = 2;

const FAILED: u8 = 3;

/// What is asked of the input.
#[derive(Clone, Copy)]
enum Job {
    Rows,
    Names,
    Mailmap,
    Tree(HashKind),
    Commit(HashKind),
    Tag(HashKind),
    Entries(HashKind),
    Root(HashKind),
    Paths(HashKind),
}

fn main(rt: HostRuntime) -> ExitCode {
    ExitCode::from(status_of(&rt))
}

fn status_of(rt: &HostRuntime) -> u8 {
    match read_args(rt) {
        Ok(Some(job)) => done(rt, job),
        Ok(None) => {
            let _heard = eprint!(rt; "{USAGE}");
            BAD_WORDS
        }
        Err(_) => FAILED,
    }
}

/// What the words after the program's name ask for.
fn read_args(rt: &HostRuntime) -> io::Result<Option<Job>> {
    let mut words = Vec::new(rt.alloc());
    for word in env::args(rt)?.skip(1) {
        words.push(word)?;
    }
    Ok(read_words(&words))
}

fn read_words(words: &[String]) -> Option<Job> {
    match words {
        [job] => read_job(job.as_str()),
        [job, kind] => read_job_of_kind(job.as_str(), read_kind(kind.as_str())?),
        _ => None,
    }
}

fn read_job(job: &str) -> Option<Job> {
    match job {
        "rows" => Some(Job::Rows),
        "names" => Some(Job::Names),
        "mailmap" => Some(Job::Mailmap),
        _ => None,
    }
}

fn read_job_of_kind(job: &str, hash: HashKind) -> Option<Job> {
    match job {
        "tree" => Some(Job::Tree(hash)),
        "commit" => Some(Job::Commit(hash)),
        "tag" => Some(Job::Tag(hash)),
        "entries" => Some(Job::Entries(hash)),
        "root" => Some(Job::Root(hash)),
        "paths" => Some(Job::Paths(hash)),
        _ => None,
    }
}

fn read_kind(kind: &str) -> Option<HashKind> {
    match kind {
        "sha1" => Some(HashKind::Sha1),
        "sha256" => Some(HashKind::Sha256),
        _ => None,
    }
}

/// Does the job, and says how that went.
fn done(rt: &HostRuntime, job: Job) -> u8 {
    match outcome(rt, job) {
        Ok(()) => 0,
        Err(ProbeError::Decode { at }) => {
            let _heard = eprintln!(rt; "no such object from byte {at} on");
            NO_OBJECT
        }
        Err(ProbeError::BadLine) => NO_OBJECT,
        Err(_) => FAILED,
    }
}

/// Does the job on what standard input holds.
fn outcome(rt: &HostRuntime, job: Job) -> Result<(), ProbeError> {
    let input = read_input(rt.alloc(), rt.reader())?;
    write_output(io::writer(rt), &answer(rt.alloc(), job, &input)?)
}

fn answer(alloc: Global, job: Job, input: &[u8]) -> Result<Vec<u8>, ProbeError> {
    match job {
        Job::Rows => answered(alloc, &Libraries, input),
        Job::Names => names::judge(alloc, input),
        Job::Mailmap => mailmaps::resolve(alloc, input),
        Job::Tree(hash) => objects::rewrite_tree(alloc, input, hash),
        Job::Commit(hash) => objects::rewrite_commit(alloc, input, hash),
        Job::Tag(hash) => objects::rewrite_tag(alloc, input, hash),
        Job::Entries(hash) => objects::count_entries(alloc, input, hash),
        Job::Root(hash) => paths::write_root(alloc, input, hash),
        Job::Paths(hash) => paths::reread(alloc, input, hash),
    }
}
