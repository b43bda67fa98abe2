//! Names of commits.

ghost use Rattle.std.specs.Prelude.{◌≡◌, IfOk, OnOk, OnErr};
ghost use Rattle.std.specs.Option.{option_copied};
ghost use Rattle.gx_hash.specs.declared.oid.ObjectId.{ObjectId};
ghost use Rattle.gx_walk.specs.NameMap.{name_of, IsNameless, Names};

use gx_hash::{Bytes, NoMemory, ObjectId};
use std::alloc::Global;
use std::collections::BTreeMap;

/// The names of commits. A commit has one name at most.
#[derive(Drop)]
pub struct NameMap {
    names: BTreeMap<ObjectId, Bytes>,
}

impl NameMap {
    pub fn new(alloc: Global) -> NameMap
        ensures { IsNameless result }
    {
        NameMap {
            names: BTreeMap::new(alloc),
        }
    }

    /// Names a commit, and answers the name that it had.
    pub fn insert(&mut self, id: ObjectId, name: Bytes) -> Result<Option<Bytes>, NoMemory>
        ensures replaced { IfOk result (λ replaced. replaced ≡ name_of self.old id) }
        ensures ok { OnOk result (Names self.old self.new id name) }
        ensures leaves { OnErr result ((one : ObjectId) → name_of self.new one ≡ name_of self.old one) }
    {
        Ok(self.names.insert(id, name)?)
    }

    /// The name of a commit.
    pub fn get(&self, id: &ObjectId) -> Option<&Bytes>
        ensures { option_copied result ≡ name_of self.now id.now }
    {
        self.names.get(id)
    }
}
