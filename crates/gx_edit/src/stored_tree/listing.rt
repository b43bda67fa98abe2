// The entries of a stored tree, where its bytes spell them as Git writes them.
ghost use Rattle.std.specs.Prelude.{◌≡◌, ◌==◌, ◌↔◌, List, not, IsTrue, IfOk, MatchOption};
ghost use Rattle.std.specs.List.{AllByRecursion, list_all};
ghost use Rattle.gx_object.specs.declared.tree.Entry.{Entry};
ghost use Rattle.gx_object.specs.declared.tree.EntryKind.{EntryKind};
ghost use Rattle.gx_object.specs.Mode.{mode_of};
ghost use Rattle.gx_object.specs.Tree.{tree_bytes};
ghost use Rattle.gx_edit.specs.Path.{IsName};
ghost use Rattle.gx_edit.specs.ReadMapCauses.{IsSound, AreRising, SpellsCanonically};
ghost use Rattle.gx_edit.specs.OpenTree.{SpellsRising};

use super::sort_key::compare_keys;
use gx_hash::{HashKind, NoMemory};
use gx_object::{DecodeError, Entry, EntryMode, TreeRef, push_tree};
use std::alloc::Global;

fn has_no(byte: u8, name: &[u8]) -> bool
    ensures { result ≡ list_all (λ b. not (b == byte)) name.now }
{
    name.iter().all(|b| *b != byte)
}

fn is_name(name: &[u8]) -> bool
    ensures { IsTrue result ↔ IsName name.now }
{
    if name.is_empty() {
        return false;
    }
    if !has_no(b'/', name) {
        return false;
    }
    has_no(0, name)
}

fn is_mode(mode: EntryMode) -> bool
    ensures { IsTrue result ↔ ((kind : EntryKind) × (mode.value ≡ mode_of kind)) }
{
    mode.value == EntryMode::from(mode.kind()).value
}

fn is_sound(entry: &Entry) -> bool
    ensures { IsTrue result ↔ IsSound entry.now }
{
    is_name(entry.filename.as_slice()) && is_mode(entry.mode) && !entry.oid.is_null()
}

fn are_sound(entries: &[Entry]) -> bool
    ensures { IsTrue result ↔ AllByRecursion IsSound entries.now }
{
    for entry in entries {
        if !is_sound(entry) {
            return false;
        }
    }
    true
}

fn are_rising(entries: &[Entry]) -> bool
    ensures { IsTrue result ↔ AreRising entries.now }
{
    let mut rest = entries;
    while let Some((first, others)) = rest.split_first() {
        if let Some(second) = others.first() {
            if !compare_keys(first, second).is_lt() {
                return false;
            }
        }
        rest = others;
    }
    true
}

/// Whether this is what is written of the entries.
fn is_written(alloc: Global, bytes: &[u8], entries: &[Entry]) -> Result<bool, NoMemory>
    ensures { IfOk result (λ same. IsTrue same ↔ (bytes.now ≡ tree_bytes entries.now)) }
{
    let mut written = Vec::with_capacity(alloc, bytes.len())?;
    push_tree(&mut written, entries)?;
    Ok(written.as_slice() == bytes)
}

/// The entries that the bytes spell, where these are what is written of sound and rising entries.
pub(super) fn entries_of(
    alloc: Global,
    hash: HashKind,
    bytes: &[u8],
) -> Result<Option<Vec<Entry>>, NoMemory>
    ensures { IfOk result (λ found. MatchOption found ((entries : List Entry)
        → ¬ SpellsCanonically hash bytes.now entries) (λ entries. SpellsRising hash bytes.now entries.items)) }
{
    let tree = match TreeRef::from_bytes(alloc, bytes, hash) {
        Ok(tree) => tree,
        Err(DecodeError::Decode { .. }) => return Ok(None),
        Err(DecodeError::NoMemory) => return Err(NoMemory),
    };
    let entries = tree.to_owned()?.entries.into_vec();
    if !is_written(alloc, bytes, &entries)? {
        return Ok(None);
    }
    if !are_sound(&entries) {
        return Ok(None);
    }
    if !are_rising(&entries) {
        return Ok(None);
    }
    Ok(Some(entries))
}
