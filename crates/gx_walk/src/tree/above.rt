//! The trees that contain what is visited.

use gx_hash::{NoMemory, ObjectId};
use std::alloc::Global;
use std::collections::BTreeSet;
use std::marker::Model;

/// The ids of the trees that are entered and not left, from the root down. No id comes twice. A set beside the list
/// finds an id without a look at each.
#[derive(Drop)]
pub(super) struct Above {
    ids: Vec<ObjectId>,
    set: BTreeSet<ObjectId>,
}

impl Model for Above {
    ghost use Rattle.std.specs.Prelude.{List};
    ghost use Rattle.gx_hash.specs.declared.oid.ObjectId.{ObjectId};
    ghost use Rattle.gx_walk.specs.Above.{IsSetOf};

    ghost Value = { List ObjectId };

    ghost view = { λ above. above.ids.items };

    ghost invariant = { λ above. IsSetOf above.ids.items above.set.keys };
}

impl Above {
    ghost use Rattle.std.specs.Prelude.{◌≡◌, ◌-◌, [], ◌∷◌, ◌++◌, not, length, take, if◌then◌else◌, IfOk};
    ghost use Rattle.gx_hash.specs.ObjectIds.{has_id};

    /// The id of the root alone.
    pub(super) fn of(alloc: Global, root: ObjectId) -> Result<Above, NoMemory>
        ensures { IfOk result (λ above. above ≡ root ∷ []) }
    {
        let mut above = Above::new(alloc);
        above.enter(root)?;
        Ok(above)
    }

    fn new(alloc: Global) -> Above
        ensures { result ≡ [] }
    {
        Above {
            ids: Vec::new(alloc),
            set: BTreeSet::new(alloc),
        }
    }

    /// Adds an id, unless it is there. Answers whether it is new.
    pub(super) fn enter(&mut self, id: ObjectId) -> Result<bool, NoMemory>
        ensures new { IfOk result (λ new. new ≡ not (has_id self.old id)) }
        ensures ok { IfOk result (λ new. self.new ≡ (if new then self.old ++ id ∷ [] else self.old)) }
    {
        self.ids.reserve(1)?;
        let is_new = self.set.insert(id)?;
        if is_new {
            self.ids.push_reserved(id);
        }
        Ok(is_new)
    }

    /// Takes the last id away.
    pub(super) fn leave(&mut self)
        ensures { self.new ≡ take (length self.old - 1) self.old }
    {
        if let Some(id) = self.ids.pop() {
            self.set.remove(&id);
        }
    }
}
