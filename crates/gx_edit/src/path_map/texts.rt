// What a tree map from written paths to leaves has at a path, above it and below it.
ghost use Rattle.std.specs.Prelude.{◌≡◌, ◌==◌, ◌<◌, ℕ, length, take, slice_index, List, [], ◌++◌, ◌∷◌, ◌&&◌, Some, None, is_some, if◌then◌else◌, bytes_eq, IfOk, OnOk, OnErr};
ghost use Rattle.std.specs.List.{list_any};
ghost use Rattle.gx_edit.specs.Path.{Path, components};
ghost use Rattle.gx_edit.specs.PathMap.{put, dropped};
ghost use Rattle.gx_edit.specs.PathList.{map_of};
ghost use Rattle.gx_edit.specs.PathTexts.{rows_of, leaf_at_text, is_below, without};

use crate::Leaf;
use gx_hash::{Bytes, NoMemory};
use std::alloc::Global;
use std::collections::BTreeMap;

/// The leaf at a path.
#[tactic(auto, using(crate::proofs::TextLemmas::found_leaf))]
pub(super) fn leaf_at(map: &BTreeMap<Vec<u8>, Leaf>, path: &[u8]) -> Option<Leaf>
    ensures { result ≡ map_of (rows_of map.now) (components path.now) }
{
    map.get(path).copied()
}

#[tactic(auto, using(crate::proofs::TextLemmas::updated))]
fn remove_text(map: &mut BTreeMap<Vec<u8>, Leaf>, text: &[u8])
    ensures { (q : List ℕ) → leaf_at_text (rows_of map.new) q ≡ (if bytes_eq text.now q then None
        else leaf_at_text (rows_of map.old) q) }
{
    let _ = map.remove(text);
}

/// Takes away the part of a path before a place, where a slash stands there.
fn remove_front(map: &mut BTreeMap<Vec<u8>, Leaf>, path: &[u8], at: usize)
    requires { at < length path.now }
    ensures { (q : List ℕ) → leaf_at_text (rows_of map.new) q
        ≡ (if (slice_index path.now at == 47) && bytes_eq (take at path.now) q then None
        else leaf_at_text (rows_of map.old) q) }
{
    if path[at] == b'/' {
        remove_text(map, path.split_at(at).0);
    }
}

/// Takes away the paths that lead to this one.
fn remove_above(map: &mut BTreeMap<Vec<u8>, Leaf>, path: &[u8])
    ensures { (q : List ℕ) → leaf_at_text (rows_of map.new) q ≡ (if is_below q path.now then None
        else leaf_at_text (rows_of map.old) q) }
{
    for at in 0..path.len() {
        remove_front(map, path, at);
    }
}

fn with_byte(alloc: Global, path: &[u8], byte: u8) -> Result<Vec<u8>, NoMemory>
    ensures { IfOk result (λ text. text.items ≡ path.now ++ byte ∷ []) }
{
    let mut text = Vec::with_capacity(alloc, path.len().saturating_add(1))?;
    text.extend_from_slice(path)?;
    text.push(byte)?;
    Ok(text)
}

/// The paths below this one: those that begin with it and a slash, and so lie before it and the byte after the slash.
fn texts_below(
    alloc: Global,
    map: &BTreeMap<Vec<u8>, Leaf>,
    path: &[u8],
) -> Result<Vec<Bytes>, NoMemory>
    ensures { IfOk result (λ texts. (q : List ℕ)
        → list_any (bytes_eq q) texts.items ≡ (is_below path.now q && is_some (leaf_at_text (rows_of map.now) q))) }
{
    let from = with_byte(alloc, path, b'/')?;
    let to = with_byte(alloc, path, b'/' + 1)?;
    let mut texts = Vec::new(alloc);
    for (text, _) in map.range(from..to) {
        texts.push(Bytes::from_slice(alloc, text.as_slice())?)?;
    }
    Ok(texts)
}

fn remove_texts(map: &mut BTreeMap<Vec<u8>, Leaf>, texts: &[Bytes])
    ensures { (q : List ℕ) → leaf_at_text (rows_of map.new) q ≡ without texts.now (leaf_at_text (rows_of map.old)) q }
{
    for text in texts {
        remove_text(map, text.as_slice());
    }
}

#[tactic(auto, using(crate::proofs::TextLemmas::updated))]
fn insert_text(
    alloc: Global,
    map: &mut BTreeMap<Vec<u8>, Leaf>,
    text: &[u8],
    leaf: Leaf,
) -> Result<(), NoMemory>
    ensures ok { OnOk result ((q : List ℕ)
        → leaf_at_text (rows_of map.new) q ≡ (if bytes_eq text.now q then Some leaf
        else leaf_at_text (rows_of map.old) q)) }
    ensures err { OnErr result (rows_of map.new ≡ rows_of map.old) }
{
    let key = Vec::from_slice(alloc, text)?;
    map.insert(key, leaf)?;
    Ok(())
}

/// Puts a leaf at a path. All that may fail is done before the first path is taken away.
pub(super) fn put(
    alloc: Global,
    map: &mut BTreeMap<Vec<u8>, Leaf>,
    path: &[u8],
    leaf: Leaf,
) -> Result<(), NoMemory>
    ensures ok { OnOk result ((q : Path)
        → map_of (rows_of map.new) q ≡ put (map_of (rows_of map.old)) (components path.now) leaf q) }
    ensures err { OnErr result (rows_of map.new ≡ rows_of map.old) }
{
    let below = texts_below(alloc, map, path)?;
    insert_text(alloc, map, path, leaf)?;
    remove_texts(map, &below);
    remove_above(map, path);
    Ok(())
}

/// Takes away a path and all below it.
pub(super) fn drop_path(
    alloc: Global,
    map: &mut BTreeMap<Vec<u8>, Leaf>,
    path: &[u8],
) -> Result<(), NoMemory>
    ensures ok { OnOk result ((q : Path)
        → map_of (rows_of map.new) q ≡ dropped (map_of (rows_of map.old)) (components path.now) q) }
    ensures err { OnErr result (rows_of map.new ≡ rows_of map.old) }
{
    let below = texts_below(alloc, map, path)?;
    remove_texts(map, &below);
    remove_text(map, path);
    Ok(())
}
