//! Logs of references: what they are told, and how they are read.

ghost use Rattle.std.specs.Prelude.{◌≡◌, IfOk, reverse};
ghost use Rattle.gix.specs.Log.{log_message, parents_text};

use crate::Repository;
use gx_hash::{Bytes, NoMemory};
use gx_object::summary;
use gx_rules::FullName;
use gx_store::{Lines, Store, StoreError};
use std::alloc::Global;

fn parents_text(num_parents: usize) -> &'static [u8]
    ensures { result.now ≡ parents_text num_parents }
{
    match num_parents {
        0 => b" (initial)",
        1 => b"",
        _ => b" (merge)",
    }
}

/// What a log says of an operation, such as `commit`, that made a commit with this message and so many parents.
pub fn message(
    alloc: Global,
    operation: &[u8],
    message: &[u8],
    num_parents: usize,
) -> Result<Bytes, NoMemory>
    ensures { IfOk result (λ text. text ≡ log_message operation.now message.now num_parents) }
{
    let mut text = Vec::from_slice(alloc, operation)?;
    text.extend_from_slice(parents_text(num_parents))?;
    text.extend_from_slice(b": ")?;
    text.extend_from_slice(summary(alloc, message)?.as_slice())?;
    Ok(Bytes::from_vec(text))
}

/// The log of a reference, of which nothing is read yet.
#[derive(Drop)]
pub struct Platform<'a, S> {
    repo: &'a Repository<S>,
    name: &'a FullName,
}

fn reversed(lines: Lines) -> Lines
    ensures { result ≡ reverse lines }
{
    let mut lines = lines.into_vec();
    lines.reverse();
    Lines::from_vec(lines)
}

impl<'a, S: Store> Platform<'a, S> {
    ghost use Rattle.gix.specs.Asking.{asks};
    ghost use Rattle.gix.specs.Logs.{log_home_of, log_name_of, log_query, newest_first_query};
    ghost use Rattle.gix.specs.Meaning.{Means};
    ghost use Rattle.gix.specs.Repository.{held_by};

    pub(crate) fn new(repo: &'a Repository<S>, name: &'a FullName) -> Self
        ensures home { log_home_of result ≡ repo.now }
        ensures name { log_name_of result ≡ name.now }
    {
        Platform { repo, name }
    }

    /// The lines, the oldest first; `None` without a log.
    ///
    /// # Errors
    /// `Fault` if the name can't be read; `NoMemory`.
    pub fn all(&self, alloc: Global) -> Result<Option<Lines>, StoreError>
        ensures { Means (asks (log_query (log_name_of self.now))) (held_by S.state (log_home_of self.now)) result
            (held_by S.state (log_home_of self.now)) }
    {
        self.repo.log(alloc, self.name)
    }

    /// The lines, the newest first; `None` without a log.
    ///
    /// # Errors
    /// `Fault` if the name can't be read; `NoMemory`.
    pub fn rev(&self, alloc: Global) -> Result<Option<Lines>, StoreError>
        ensures { Means (asks (newest_first_query (log_name_of self.now))) (held_by S.state (log_home_of self.now))
            result (held_by S.state (log_home_of self.now)) }
    {
        match self.repo.log(alloc, self.name)? {
            Some(lines) => Ok(Some(reversed(lines))),
            None => Ok(None),
        }
    }
}
