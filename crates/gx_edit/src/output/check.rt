// Entries of planned trees tested by the protections.
ghost use Rattle.std.specs.Prelude.{◌≡◌, Some, OnOk, IfErr};
ghost use Rattle.std.specs.List.{AllByRecursion};
ghost use Rattle.gx_edit.specs.Checking.{IsUnsafe, OneOf};
ghost use Rattle.gx_edit.specs.Entries.{IsSafe, is_link};

use crate::EditError;
use gx_object::Entry;
use gx_rules::{Protect, component};

#[tactic(auto, using(crate::proofs::CheckLemmas::link_is))]
fn is_link(entry: &Entry) -> bool
    ensures { result ≡ is_link entry.now }
{
    entry.mode.is_link()
}

fn check_name(entry: &Entry, protect: Protect) -> Result<(), EditError>
    ensures ok { OnOk result (IsSafe (Some protect) entry.now) }
    ensures err { IfErr result (IsUnsafe (Some protect) entry.now) }
{
    match component(entry.filename.as_slice(), is_link(entry), protect) {
        Ok(()) => Ok(()),
        Err(source) => Err(EditError::InvalidFilename {
            filename: entry.filename.try_clone()?,
            kind: entry.mode.kind(),
            id: entry.oid,
            source,
        }),
    }
}

pub(super) fn check_each_name(entries: &[Entry], protect: Protect) -> Result<(), EditError>
    ensures ok { OnOk result (AllByRecursion (IsSafe (Some protect)) entries.now) }
    ensures err { IfErr result (OneOf entries.now (IsUnsafe (Some protect))) }
{
    for entry in entries {
        check_name(entry, protect)?;
    }
    Ok(())
}

/// Refuses an entry whose name fails the protections.
pub(super) fn check_names(entries: &[Entry], protect: Option<Protect>) -> Result<(), EditError>
    ensures ok { OnOk result (AllByRecursion (IsSafe protect) entries.now) }
    ensures err { IfErr result (OneOf entries.now (IsUnsafe protect)) }
{
    match protect {
        None => Ok(()),
        Some(protect) => check_each_name(entries, protect),
    }
}
