ghost use Rattle.std.specs.Prelude.{◌≡◌, IfOk};

use gx_hash::{NoMemory, ObjectId};
use gx_rules::FullName;

/// What a reference names: an object, or another reference that it is symbolic to.
#[derive(Debug, PartialEq, Eq, Drop)]
pub enum Target {
    Object(ObjectId),
    Symbolic(FullName),
}

impl Target {
    pub fn try_clone(&self) -> Result<Target, NoMemory>
        ensures { IfOk result (λ copy. copy ≡ self.now) }
    {
        match self {
            Target::Object(id) => Ok(Target::Object(*id)),
            Target::Symbolic(name) => Ok(Target::Symbolic(name.try_clone()?)),
        }
    }
}
