//! References with the repository that they were found in.

ghost use Rattle.std.specs.Prelude.{◌≡◌, IfOk};

use super::log::Platform;
use crate::Repository;
use gx_hash::{NoMemory, ObjectId};
use gx_rules::FullName;
use gx_store::{Store, StoreError, Target};
use std::alloc::Global;

/// A reference as it was found, and its repository. Later edits do not change it.
///
/// ```
/// let main = repo.find_reference(alloc, &PartialName::new(alloc, b"main")?)?;
/// let lines = main.log_iter().rev(alloc)?;
/// ```
#[derive(Drop)]
pub struct Reference<'repo, S> {
    pub inner: gx_refs::Reference,
    repo: &'repo Repository<S>,
}

fn copy_of(found: &gx_refs::Reference) -> Result<gx_refs::Reference, NoMemory>
    ensures { IfOk result (λ copy. copy ≡ found.now) }
{
    Ok(gx_refs::Reference {
        name: found.name.try_clone()?,
        target: found.target.try_clone()?,
        peeled: found.peeled,
    })
}

impl<'repo, S: Store> Reference<'repo, S> {
    ghost use Rattle.std.specs.Prelude.{IsSome, IsTrue, Some, ◌↔◌};
    ghost use Rattle.gix.specs.Asking.{asks};
    ghost use Rattle.gix.specs.Attached.{found_of, home_of, id_of};
    ghost use Rattle.gix.specs.Logs.{log_exists_query, log_home_of, log_name_of};
    ghost use Rattle.gix.specs.Meaning.{Means};
    ghost use Rattle.gix.specs.Repository.{held_by};

    pub(crate) fn from_ref(inner: gx_refs::Reference, repo: &'repo Repository<S>) -> Self
        ensures found { found_of result ≡ inner }
        ensures home { home_of result ≡ repo.now }
    {
        Reference { inner, repo }
    }

    pub fn name(&self) -> &FullName
        ensures { result.now ≡ (found_of self.now).name }
    {
        &self.inner.name
    }

    pub fn target(&self) -> &Target
        ensures { result.now ≡ (found_of self.now).target }
    {
        &self.inner.target
    }

    /// The id that it names, unless it is symbolic.
    pub fn try_id(&self) -> Option<ObjectId>
        ensures { result ≡ id_of (found_of self.now).target }
    {
        match self.inner.target {
            Target::Object(id) => Some(id),
            Target::Symbolic(_) => None,
        }
    }

    /// The id that it names, which is not symbolic.
    pub fn id(&self) -> ObjectId
        requires { IsSome (id_of (found_of self.now).target) }
        ensures { Some result ≡ id_of (found_of self.now).target }
    {
        match self.inner.target {
            Target::Object(id) => id,
            Target::Symbolic(_) => unreachable!(),
        }
    }

    /// The reference without its repository.
    pub fn detach(self) -> gx_refs::Reference
        ensures { result ≡ found_of self.entry }
    {
        let Reference { inner, repo: _ } = self;
        inner
    }

    pub fn try_clone(&self) -> Result<Self, NoMemory>
        ensures found { IfOk result (λ copy. found_of copy ≡ found_of self.now) }
        ensures home { IfOk result (λ copy. home_of copy ≡ home_of self.now) }
    {
        Ok(Reference {
            inner: copy_of(&self.inner)?,
            repo: self.repo,
        })
    }

    /// Whether it has this name.
    pub fn eq_name(&self, name: &FullName) -> bool
        ensures { IsTrue result ↔ ((found_of self.now).name ≡ name.now) }
    {
        self.eq_text(name.as_slice())
    }

    /// Whether these are the bytes of its name.
    pub fn eq_text(&self, text: &[u8]) -> bool
        ensures { IsTrue result ↔ ((found_of self.now).name ≡ text.now) }
    {
        self.inner.name.as_slice() == text
    }

    /// Whether it has a log. No line of it is copied.
    ///
    /// # Errors
    /// `Fault` if the name can't be read; `NoMemory`.
    pub fn log_exists(&self, alloc: Global) -> Result<bool, StoreError>
        ensures { Means (asks (log_exists_query (found_of self.now).name)) (held_by S.state (home_of self.now)) result
            (held_by S.state (home_of self.now)) }
    {
        self.repo.log_exists(alloc, &self.inner.name)
    }

    /// Its log, to be read from either end.
    pub fn log_iter(&self) -> Platform<'_, S>
        ensures home { log_home_of result ≡ home_of self.now }
        ensures name { log_name_of result ≡ (found_of self.now).name }
    {
        Platform::new(self.repo, &self.inner.name)
    }
}
