//! Where the entries for an old name and an old email are in a mailmap.
ghost use Rattle.std.specs.Prelude.{◌≡◌, [], Some, IfOk, OnOk, unwrap_or, if◌then◌else◌};
ghost use Rattle.std.specs.BTreeMap.{get};
ghost use Rattle.std.specs.List.Sorted.{IsStrictlySortedBy};
ghost use Rattle.std.specs.Map.{keys_of};
ghost use Rattle.std.specs.Str.{str_to_ascii_lowercase};
ghost use Rattle.gx_actor.specs.Index.{Key as AnyKey, IsIndex, is_keyed, key_cmp, key_of, look, place_of, placed};

use super::Entry;
use super::compare::compare_keys;
use gx_hash::{Bytes, NoMemory};
use std::alloc::Global;
use std::cmp::Ordering;
use std::collections::BTreeMap;

/// The old email and the old name in lower case. The name is empty where there is none.
pub(crate) type Key = (Bytes, Bytes);

/// The places of the last entries for a key: of those that give a name, and of those that give an email.
#[derive(Clone, Copy)]
pub(crate) struct Places {
    pub(crate) name: Option<usize>,
    pub(crate) email: Option<usize>,
}

/// The places of the entries, in the order of their keys.
pub(crate) fn index(alloc: Global, entries: &[Entry]) -> Result<Vec<(Key, Places)>, NoMemory>
    ensures { IfOk result (λ slots. IsIndex entries.now slots.items) }
{
    let mut index = BTreeMap::new(alloc);
    for (place, entry) in entries.iter().enumerate() {
        add(alloc, &mut index, place, entry)?;
    }
    slots_of(alloc, index)
}

fn slots_of(alloc: Global, index: BTreeMap<Key, Places>) -> Result<Vec<(Key, Places)>, NoMemory>
    ensures items { IfOk result (λ slots. slots.items ≡ index.entries) }
    ensures ascends { IfOk result (λ slots. IsStrictlySortedBy key_cmp (keys_of slots.items)) }
{
    Ok(index.into_iter().collect(alloc)?)
}

fn add(
    alloc: Global,
    index: &mut BTreeMap<Key, Places>,
    place: usize,
    entry: &Entry,
) -> Result<(), NoMemory>
    ensures { OnOk result ((key : AnyKey) → get key_cmp index.new key
        ≡ (if is_keyed key entry.now then Some (placed (get key_cmp index.old key) place entry.now)
        else get key_cmp index.old key)) }
{
    let key = key_of(alloc, entry)?;
    let places = placed(index.get(&key).copied(), place, entry);
    index.insert(key, places)?;
    Ok(())
}

fn key_of(alloc: Global, entry: &Entry) -> Result<Key, NoMemory>
    ensures { IfOk result (λ key. key ≡ key_of entry.now.old_email (unwrap_or entry.now.old_name [])) }
{
    let email = lowered(alloc, entry.old_email.as_slice())?;
    let name = name_of(alloc, &entry.old_name)?;
    Ok((email, name))
}

fn name_of(alloc: Global, name: &Option<Bytes>) -> Result<Bytes, NoMemory>
    ensures { IfOk result (λ text. text ≡ str_to_ascii_lowercase (unwrap_or name.now [])) }
{
    match name {
        Some(name) => lowered(alloc, name.as_slice()),
        None => Ok(Bytes::new(alloc)),
    }
}

fn lowered(alloc: Global, text: &[u8]) -> Result<Bytes, NoMemory>
    ensures { IfOk result (λ lowered. lowered ≡ str_to_ascii_lowercase text.now) }
{
    let lowered = text
        .iter()
        .map(|byte| byte.to_ascii_lowercase())
        .collect(alloc)?;
    Ok(Bytes::from_vec(lowered))
}

fn placed(before: Option<Places>, place: usize, entry: &Entry) -> Places
    ensures { result ≡ placed before place entry.now }
{
    let before = before.unwrap_or(Places {
        name: None,
        email: None,
    });
    Places {
        name: place_of(place, &entry.new_name, before.name),
        email: place_of(place, &entry.new_email, before.email),
    }
}

fn place_of(place: usize, text: &Option<Bytes>, before: Option<usize>) -> Option<usize>
    ensures { result ≡ place_of place text.now before }
{
    match text {
        Some(_) => Some(place),
        None => before,
    }
}

/// The places of the entries for an old email and an old name, by a binary search.
pub(crate) fn places_of(slots: &[(Key, Places)], email: &[u8], name: &[u8]) -> Option<Places>
    requires { IsStrictlySortedBy key_cmp (keys_of slots.now) }
    ensures { result ≡ look slots.now (key_of email.now name.now) }
{
    let mut low = 0;
    let mut high = slots.len();
    while low < high {
        let middle = low + (high - low) / 2;
        let slot = &slots[middle];
        match compare_keys(&slot.0, email, name) {
            Ordering::Less => low = middle + 1,
            Ordering::Equal => return Some(slot.1),
            Ordering::Greater => high = middle,
        }
    }
    None
}
