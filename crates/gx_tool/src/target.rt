//! Ids and targets of references, as replies show them.

ghost use Rattle.std.specs.Prelude.{◌≡◌, ◌++◌, ◌∷◌, OnOk};
ghost use Rattle.gx_hash.specs.ObjectId.{hex_of};
ghost use Rattle.gx_tool.specs.Reply.{target_text};

use gx_hash::{NoMemory, ObjectId};
use gx_store::Target;

/// Appends a space and the id's digits.
pub(crate) fn push_id(out: &mut Vec<u8>, id: &ObjectId) -> Result<(), NoMemory>
    ensures ok { OnOk result (out.new.items ≡ out.old.items ++ 32 ∷ hex_of id.now) }
{
    out.push(b' ')?;
    id.push_hex(out)
}

/// Appends a space and the target.
pub(crate) fn push_target(out: &mut Vec<u8>, target: &Target) -> Result<(), NoMemory>
    ensures ok { OnOk result (out.new.items ≡ out.old.items ++ 32 ∷ target_text target.now) }
{
    match target {
        Target::Object(id) => push_id(out, id),
        Target::Symbolic(name) => {
            out.extend_from_slice(b" @")?;
            out.extend_from_slice(name.as_slice())?;
            Ok(())
        }
    }
}
