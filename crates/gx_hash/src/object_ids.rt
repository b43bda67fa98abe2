//! Sets of object ids.

use crate::{NoMemory, ObjectId};
use std::alloc::Global;
use std::collections::BTreeSet;
use std::marker::Model;

/// A set of object ids. Contracts see a list of them, of which they say which ids it has and how long it is.
#[derive(Drop)]
pub struct ObjectIds {
    set: BTreeSet<ObjectId>,
}

impl Model for ObjectIds {
    ghost use Rattle.std.specs.Prelude.{List};
    ghost use Rattle.gx_hash.specs.declared.oid.ObjectId.{ObjectId};

    ghost Value = { List ObjectId };

    ghost view = { λ ids. ids.set.keys };
}

impl ObjectIds {
    ghost use Rattle.std.specs.Prelude.{◌≡◌, ◌+◌, ◌||◌, not, [], length, if◌then◌else◌, IfOk, OnOk, OnErr};
    ghost use Rattle.gx_hash.specs.declared.oid.ObjectId.{ObjectId};
    ghost use Rattle.gx_hash.specs.ObjectIds.{id_eq, has_id};

    pub fn new(alloc: Global) -> ObjectIds
        ensures { result ≡ [] }
    {
        ObjectIds {
            set: BTreeSet::new(alloc),
        }
    }

    /// Adds an id, and answers whether it is new.
    pub fn insert(&mut self, id: ObjectId) -> Result<bool, NoMemory>
        ensures new { IfOk result (λ new. new ≡ not (has_id self.old id)) }
        ensures ok { OnOk result ((one : ObjectId) → has_id self.new one ≡ (id_eq id one || has_id self.old one)) }
        ensures len { IfOk result (λ new. length self.new ≡ length self.old + (if new then 1 else 0)) }
        ensures leaves { OnErr result (self.new ≡ self.old) }
    {
        let new = self.set.insert(id)?;
        Ok(new)
    }

    /// How many ids there are, each counted once.
    pub fn len(&self) -> usize
        ensures { result ≡ length self.now }
    {
        self.set.len()
    }

    pub fn contains(&self, id: &ObjectId) -> bool
        ensures { result ≡ has_id self.now id.now }
    {
        self.set.contains(id)
    }
}
