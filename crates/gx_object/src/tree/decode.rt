//! Trees as their bytes spell them.
ghost use Rattle.std.specs.Prelude.{◌≡◌, ℕ, List, map, IfOk, IfErr, IfSome, MatchOption, MatchResult};
ghost use Rattle.std.specs.List.{AllByRecursion};
ghost use Rattle.gx_hash.specs.HashKind.{IsOfKind};
ghost use Rattle.gx_object.specs.declared.tree.Entry.{Entry};
ghost use Rattle.gx_object.specs.TreeSpelling.{entry_of, SpellsMode, SpellsTree, TreeCauses, BeginsWithEntry};

use crate::split::split_at_byte;
use crate::{DecodeError, Entries, Entry, EntryMode, EntryRefs, Tree};
use bstr::BStr;
use gx_hash::{Bytes, HashKind, NoMemory, ObjectId};
use std::alloc::Global;

/// An entry of a tree, whose name is a slice of the tree's bytes.
#[derive(Clone, Copy, Debug)]
pub struct EntryRef<'a> {
    pub mode: EntryMode,
    pub filename: BStr<'a>,
    pub oid: ObjectId,
}

impl EntryRef<'_> {
    /// A copy that owns its name.
    pub fn to_owned(&self, alloc: Global) -> Result<Entry, NoMemory>
        ensures { IfOk result (λ owned. owned ≡ entry_of self.now) }
    {
        Ok(Entry {
            mode: self.mode,
            filename: Bytes::from_slice(alloc, self.filename.as_bytes())?,
            oid: self.oid,
        })
    }
}

/// A directory, whose names are slices of its bytes.
///
/// ```
/// let tree = TreeRef::from_bytes(alloc, bytes, HashKind::Sha1)?;
/// for entry in tree.entries.as_slice() {
///     let id = entry.oid;
/// }
/// ```
#[derive(Debug, Drop)]
pub struct TreeRef<'a> {
    pub entries: EntryRefs<'a>,
}

impl<'a> TreeRef<'a> {
    /// The entries that the bytes spell, with ids of this kind. Memory runs out only for bytes that spell a tree.
    pub fn from_bytes(
        alloc: Global,
        bytes: &'a [u8],
        hash: HashKind,
    ) -> Result<TreeRef<'a>, DecodeError>
        ensures ok { IfOk result (λ tree. SpellsTree hash bytes.now (map entry_of tree.entries)) }
        ensures kind { IfOk result (λ tree. AllByRecursion (λ e. IsOfKind hash e.oid) tree.entries) }
        ensures causes { IfErr result (TreeCauses hash bytes.now) }
        ensures only { (entries : List Entry) → SpellsTree hash bytes.now entries
            → MatchResult result (λ tree. map entry_of tree.entries ≡ entries) (λ error. error ≡ DecodeError.NoMemory) }
    {
        match read_entries(alloc, bytes, hash) {
            Some(entries) => Ok(TreeRef { entries }),
            None => Err(refusal(bytes, hash)),
        }
    }

    /// A copy that owns its names.
    pub fn to_owned(&self) -> Result<Tree, NoMemory>
        ensures { IfOk result (λ owned. owned.entries ≡ map entry_of self.now.entries) }
    {
        let entries = self.entries.as_slice();
        let alloc = self.entries.allocator();
        let mut owned = Vec::with_capacity(alloc, entries.len())?;
        for entry in entries {
            owned.push(entry.to_owned(alloc)?)?;
        }
        Ok(Tree {
            entries: Entries::from_vec(owned),
        })
    }
}

// The entries that the bytes spell, if they spell some and there is memory for them.
fn read_entries(alloc: Global, bytes: &[u8], hash: HashKind) -> Option<EntryRefs<'_>>
    ensures { IfSome result (λ entries. SpellsTree hash bytes.now (map entry_of entries)) }
{
    let mut entries = Vec::new(alloc);
    let mut rest = bytes;
    while !rest.is_empty() {
        let (entry, behind) = split_entry(hash, rest)?;
        entries.push(entry).ok()?;
        rest = behind;
    }
    Some(EntryRefs::from_vec(entries))
}

// Why the bytes were not read. It goes over them again and takes no memory.
fn refusal(bytes: &[u8], hash: HashKind) -> DecodeError
    ensures { TreeCauses hash bytes.now result }
{
    let mut rest = bytes;
    while !rest.is_empty() {
        let Some((_, behind)) = split_entry(hash, rest) else {
            return DecodeError::Decode {
                at: bytes.len() - rest.len(),
            };
        };
        rest = behind;
    }
    DecodeError::NoMemory
}

/// The entry that the bytes begin with, and what follows it.
pub(crate) fn split_entry(hash: HashKind, bytes: &[u8]) -> Option<(EntryRef<'_>, &[u8])>
    ensures { MatchOption result ((entry : Entry) (rest : List ℕ)
        → ¬ BeginsWithEntry hash bytes.now entry rest)
        (λ found. BeginsWithEntry hash bytes.now (entry_of found.0) found.1.now) }
{
    let (digits, rest) = split_at_byte(b' ', bytes)?;
    let mode = read_mode(digits)?;
    let (filename, rest) = split_at_byte(0, rest)?;
    if filename.is_empty() {
        return None;
    }
    let (id, rest) = rest.split_at_checked(hash.len_in_bytes())?;
    let entry = EntryRef {
        mode,
        filename: BStr::new(filename),
        oid: ObjectId::from_bytes(hash, id)?,
    };
    Some((entry, rest))
}

fn read_mode(digits: &[u8]) -> Option<EntryMode>
    ensures { MatchOption result ((mode : ℕ)
        → ¬ SpellsMode digits.now mode) (λ mode. SpellsMode digits.now mode.value) }
{
    if digits.is_empty() || digits.len() > 6 {
        return None;
    }
    let mut mode = 0;
    for digit in digits {
        mode = mode * 8 + char::from(*digit).to_digit(8)?;
    }
    let value = u16::try_from(mode).ok()?;
    Some(EntryMode { value })
}
