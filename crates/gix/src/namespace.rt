//! The namespace of a repository.

use crate::Repository;
use gx_hash::NoMemory;
use gx_rules::{Namespace, PartialName, expand_namespace};
use gx_store::Store;
use std::alloc::Global;

impl<S: Store> Repository<S> {
    ghost use Rattle.std.specs.Prelude.{◌≡◌, Ok, option_copied};
    ghost use Rattle.gix.specs.Meaning.{Means};
    ghost use Rattle.gix.specs.Repository.{held_by, settings_of};
    ghost use Rattle.gix.specs.Space.{clear_namespace_meaning, set_namespace_meaning};

    /// The namespace that names of references are in.
    pub fn namespace(&self) -> Option<&Namespace>
        ensures { option_copied result ≡ (settings_of self.now).namespace }
    {
        self.settings.namespace.as_ref()
    }

    /// Names of references are in the namespace of that name from now on. Answers the one from before.
    pub fn set_namespace(
        &mut self,
        alloc: Global,
        name: &PartialName,
    ) -> Result<Option<Namespace>, NoMemory>
        ensures { Means (set_namespace_meaning name.now) (held_by S.state self.old) result (held_by S.state self.new) }
    {
        let namespace = expand_namespace(alloc, name)?;
        let before = std::mem::replace(&mut self.settings.namespace, Some(namespace));
        Ok(before)
    }

    /// Names of references are in no namespace from now on. Answers the one from before.
    pub fn clear_namespace(&mut self) -> Option<Namespace>
        ensures { Means clear_namespace_meaning (held_by S.state self.old) (Ok result) (held_by S.state self.new) }
    {
        std::mem::replace(&mut self.settings.namespace, None)
    }
}
