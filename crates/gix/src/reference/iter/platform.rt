//! Which references are listed.

use super::reading::{is_relative_path, read_pseudo, read_references};
use super::{IterError, ReferenceList};
use crate::Repository;
use gx_store::Store;
use std::alloc::Global;

/// The references of a repository, of which some are listed.
///
/// ```
/// for branch in repo.references().local_branches(alloc)?.as_slice() {}
/// ```
#[derive(Drop)]
pub struct Platform<'repo, S> {
    repo: &'repo Repository<S>,
}

impl<'repo, S: Store> Platform<'repo, S> {
    ghost use Rattle.std.specs.Prelude.{codes};
    ghost use Rattle.gix.specs.Asking.{asks};
    ghost use Rattle.gix.specs.Meaning.{Means};
    ghost use Rattle.gix.specs.References.{pseudo_query, references_query, repository_of};
    ghost use Rattle.gix.specs.Repository.{held_by};

    /// The references whose names begin with the prefix, such as `refs/heads/feature-`, in rising order of bytes. Each
    /// is read.
    ///
    /// # Errors
    /// `RelativePath` if the prefix begins with a slash, or if one of its components is `.` or `..`; `Store` if the
    /// names or one of the references can't be read; `NoMemory`.
    pub fn prefixed(&self, alloc: Global, prefix: &[u8]) -> Result<ReferenceList, IterError>
        ensures { Means (asks (references_query prefix.now)) (held_by S.state (repository_of self.now)) result
            (held_by S.state (repository_of self.now)) }
    {
        if !is_relative_path(prefix) {
            return Err(IterError::RelativePath);
        }
        Ok(read_references(alloc, self.repo, prefix)?)
    }

    /// Those whose names begin with `refs/`, which are all but such as `HEAD`.
    pub fn all(&self, alloc: Global) -> Result<ReferenceList, IterError>
        ensures { Means (asks (references_query (codes "refs/"))) (held_by S.state (repository_of self.now)) result
            (held_by S.state (repository_of self.now)) }
    {
        self.prefixed(alloc, b"refs/")
    }

    /// Those of tags.
    pub fn tags(&self, alloc: Global) -> Result<ReferenceList, IterError>
        ensures { Means (asks (references_query (codes "refs/tags/"))) (held_by S.state (repository_of self.now))
            result (held_by S.state (repository_of self.now)) }
    {
        self.prefixed(alloc, b"refs/tags/")
    }

    /// Those of branches.
    pub fn local_branches(&self, alloc: Global) -> Result<ReferenceList, IterError>
        ensures { Means (asks (references_query (codes "refs/heads/"))) (held_by S.state (repository_of self.now))
            result (held_by S.state (repository_of self.now)) }
    {
        self.prefixed(alloc, b"refs/heads/")
    }

    /// Those of branches of other repositories.
    pub fn remote_branches(&self, alloc: Global) -> Result<ReferenceList, IterError>
        ensures { Means (asks (references_query (codes "refs/remotes/"))) (held_by S.state (repository_of self.now))
            result (held_by S.state (repository_of self.now)) }
    {
        self.prefixed(alloc, b"refs/remotes/")
    }

    /// Those whose names have no slash, as `HEAD`.
    ///
    /// # Errors
    /// `Store` if the names or one of these references can't be read; `NoMemory`.
    pub fn pseudo(&self, alloc: Global) -> Result<ReferenceList, IterError>
        ensures { Means (asks pseudo_query) (held_by S.state (repository_of self.now)) result
            (held_by S.state (repository_of self.now)) }
    {
        Ok(read_pseudo(alloc, self.repo)?)
    }
}

impl<S: Store> Repository<S> {
    ghost use Rattle.std.specs.Prelude.{◌≡◌};
    ghost use Rattle.gix.specs.References.{repository_of};

    /// The references, to be listed.
    pub fn references(&self) -> Platform<'_, S>
        ensures { repository_of result ≡ self.now }
    {
        Platform { repo: self }
    }
}
