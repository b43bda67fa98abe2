//! Logs of references, which are read.

use crate::Repository;
use crate::space::{namespace_of, stored_name};
use gx_rules::FullName;
use gx_store::{Lines, Store, StoreError};
use std::alloc::Global;

impl<S: Store> Repository<S> {
    ghost use Rattle.gix.specs.Asking.{asks};
    ghost use Rattle.gix.specs.Logs.{log_exists_query, log_query};
    ghost use Rattle.gix.specs.Meaning.{Means};
    ghost use Rattle.gix.specs.Repository.{held_by};

    /// The lines of the log of a name, the oldest first, whether its reference is there or not; `None` without a log.
    ///
    /// # Errors
    /// `Fault` if the name can't be read; `NoMemory`.
    pub fn log(&self, alloc: Global, name: &FullName) -> Result<Option<Lines>, StoreError>
        ensures { Means (asks (log_query name.now)) (held_by S.state self.now) result (held_by S.state self.now) }
    {
        let stored = stored_name(namespace_of(&self.settings), name)?;
        self.store.log(alloc, &stored)
    }

    /// Whether a name has a log.
    pub(crate) fn log_exists(&self, alloc: Global, name: &FullName) -> Result<bool, StoreError>
        ensures { Means (asks (log_exists_query name.now)) (held_by S.state self.now) result
            (held_by S.state self.now) }
    {
        let stored = stored_name(namespace_of(&self.settings), name)?;
        self.store.log_exists(alloc, &stored)
    }
}
