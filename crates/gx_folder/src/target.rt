//! References as their files have them: an id or `ref: ` and a name, and a newline.
ghost use Rattle.std.specs.Prelude.{◌≡◌, IfOk, IfSome};
ghost use Rattle.gx_hash.specs.HashKind.{IsOfKind};
ghost use Rattle.gx_store.specs.Kinds.{IsTargetOfKind};

use gx_hash::{HashKind, NoMemory, ObjectId};
use gx_rules::{FullName, NameError};
use gx_store::Target;
use std::alloc::Global;

const SYMBOLIC: &[u8] = b"ref: ";

pub(crate) fn target_text(alloc: Global, target: &Target) -> Result<Vec<u8>, NoMemory> {
    let mut text = Vec::new(alloc);
    match target {
        Target::Object(id) => id.push_hex(&mut text)?,
        Target::Symbolic(name) => {
            text.extend_from_slice(SYMBOLIC)?;
            text.extend_from_slice(name.as_slice())?;
        }
    }
    text.push(b'\n')?;
    Ok(text)
}

/// The target that a file's text is, if it is one whose id is of the kind.
pub(crate) fn read_target(
    alloc: Global,
    hash: HashKind,
    text: &[u8],
) -> Result<Option<Target>, NoMemory>
    ensures { IfOk result (λ found. IfSome found (IsTargetOfKind hash)) }
{
    let Some(line) = text.strip_suffix(b"\n".as_slice()) else {
        return Ok(None);
    };
    match line.strip_prefix(SYMBOLIC) {
        Some(name) => symbolic(alloc, name),
        None => Ok(object(hash, line)),
    }
}

fn symbolic(alloc: Global, name: &[u8]) -> Result<Option<Target>, NoMemory>
    ensures { IfOk result (λ found. IfSome found (λ target. (hash : _) → IsTargetOfKind hash target)) }
{
    match FullName::new(alloc, name) {
        Ok(name) => Ok(Some(Target::Symbolic(name))),
        Err(NameError::NoMemory) => Err(NoMemory),
        Err(_) => Ok(None),
    }
}

fn object(hash: HashKind, digits: &[u8]) -> Option<Target>
    ensures { IfSome result (IsTargetOfKind hash) }
{
    match ObjectId::from_hex(digits) {
        Ok(id) if id.kind() == hash => Some(Target::Object(id)),
        _ => None,
    }
}
