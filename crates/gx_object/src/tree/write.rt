//! The bytes that spell trees.
ghost use Rattle.std.specs.Prelude.{◌≡◌, ◌≤◌, ◌==◌, ◌++◌, not, true, false, drop, OnOk, OnErr};
ghost use Rattle.std.specs.Io.{StartsWith};
ghost use Rattle.std.specs.List.{list_all};
ghost use Rattle.gx_object.specs.Tree.{octal_of, entry_bytes, tree_bytes, is_writable_filename, is_writable_tree};
ghost use Rattle.gx_object.specs.declared.kind.Kind.TheVariants as object_kind;

use crate::{EncodeError, Entry, Field, Kind, Tree, WriteTo};
use gx_hash::{Bytes, NoMemory, ObjectId};
use std::alloc::{AllocError, Global};

/// Appends the entry's spelling.
#[tactic(auto, unfolding(crate::specs::Tree::entry_bytes))]
pub fn push_entry(out: &mut Vec<u8>, entry: &Entry) -> Result<(), NoMemory>
    ensures ok { OnOk result (out.new.items ≡ out.old.items ++ entry_bytes entry.now) }
    ensures leaves { OnErr result (StartsWith out.new.items out.old.items) }
{
    push_octal(out, entry.mode.value)?;
    out.push(b' ')?;
    out.extend_from_slice(entry.filename.as_slice())?;
    out.push(0)?;
    out.extend_from_slice(entry.oid.as_bytes())?;
    Ok(())
}

/// Appends the spelling of the tree with these entries, in their order.
pub fn push_tree(out: &mut Vec<u8>, entries: &[Entry]) -> Result<(), NoMemory>
    ensures ok { OnOk result (out.new.items ≡ out.old.items ++ tree_bytes entries.now) }
    ensures leaves { OnErr result (StartsWith out.new.items out.old.items) }
{
    for entry in entries {
        push_entry(out, entry)?;
    }
    Ok(())
}

fn push_octal(out: &mut Vec<u8>, mode: u16) -> Result<(), AllocError>
    ensures ok { OnOk result (out.new.items ≡ out.old.items ++ octal_of mode) }
    ensures leaves { OnErr result (StartsWith out.new.items out.old.items) }
{
    let mut digits = [0; 6];
    let start = write_octal(&mut digits, mode);
    out.extend_from_slice(digits.split_at(start).1)
}

// Writes the mode at the end of the digits, and answers where it begins.
fn write_octal(digits: &mut [u8; 6], mode: u16) -> usize
    ensures start { result ≤ 6 }
    ensures value { drop result digits.new ≡ octal_of mode }
{
    let mut at = 6;
    let mut rest = mode;
    loop {
        at -= 1;
        digits[at] = b'0' + (rest % 8) as u8;
        rest /= 8;
        if rest == 0 {
            return at;
        }
    }
}

// About how many bytes the entries take, to reserve them at once.
fn room_of(entries: &[Entry]) -> usize {
    let mut room: usize = 0;
    for entry in entries {
        let ids_and_mode = entry.oid.kind().len_in_bytes() + 8;
        room = room
            .saturating_add(ids_and_mode)
            .saturating_add(entry.filename.as_slice().len());
    }
    room
}

fn has_no_zero(text: &[u8]) -> bool
    ensures { result ≡ list_all (λ b. not (b == 0)) text.now }
{
    text.iter().all(|b| *b != 0)
}

fn can_write_filename(name: &[u8]) -> bool
    ensures { result ≡ is_writable_filename name.now }
{
    !name.is_empty() && has_no_zero(name)
}

fn can_write_filenames(entries: &[Entry]) -> bool
    ensures { result ≡ list_all (λ e. is_writable_filename e.filename) entries.now }
{
    entries
        .iter()
        .all(|e| can_write_filename(e.filename.as_slice()))
}

impl WriteTo for Tree {
    ghost object_kind = { λ _. object_kind.Tree };

    ghost spelling = { λ tree. tree_bytes tree.entries };

    ghost is_writable = { λ tree. is_writable_tree tree.entries };

    fn kind(&self) -> Kind {
        Kind::Tree
    }

    fn to_bytes(&self, alloc: Global) -> Result<Bytes, EncodeError> {
        let entries = self.entries.as_slice();
        if !can_write_filenames(entries) {
            return Err(EncodeError::Unwritable {
                field: Field::FileName,
            });
        }
        let mut out = Vec::with_capacity(alloc, room_of(entries))?;
        push_tree(&mut out, entries)?;
        Ok(Bytes::from_vec(out))
    }
}
