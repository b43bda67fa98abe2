// Edits at a path.
ghost use Rattle.std.specs.Prelude.{◌≡◌, ◌<◌, ◌∷◌, ℕ, List, None, IfOk, IfErr, OnOk, OnErr, false, slice_get, vec_len};
ghost use Rattle.gx_edit.specs.Path.{components};
ghost use Rattle.gx_edit.specs.PathList.{has_empty_name};
ghost use Rattle.gx_edit.specs.View.{upserted};
ghost use Rattle.gx_edit.specs.EditorCauses.{EditCauses};
ghost use Rattle.gx_edit.specs.Nodes.{places_of, view_at, name_at, inner_at, AreLinked, Keeps, KeepsOthers, Follows, Pushes, Opens, Descends, Makes, Edits, LoadRefused, WayRefused};

use super::changes::{link_at, put_at};
use super::item::Item;
use super::load::load;
use super::nodes::{Node, inner_at, name_at};
use crate::EditError;
use crate::path::{has_empty_name, split_first_name};
use gx_hash::HashKind;
use gx_store::Objects;
use std::alloc::Global;

/// Follows a path as far as its directories are loaded: the place of the last one, and what is left of the path.
pub(super) fn follow<'a>(nodes: &[Node], path: &'a [u8]) -> (usize, &'a [u8])
    requires { AreLinked (places_of nodes.now) }
    ensures { Follows (places_of nodes.now) (components path.now) result.0 (components result.1.now) }
{
    let mut at = 0;
    let mut rest = path;
    while let Some((name, below)) = split_first_name(rest) {
        match inner_at(nodes, at, name) {
            None => return (at, rest),
            Some(inner) => {
                at = inner;
                rest = below;
            }
        }
    }
    (at, rest)
}

/// Loads the directory of a name in the one at a place, to the end of the list, where nothing leads to it yet.
pub(super) fn push_loaded<S: Objects>(
    alloc: Global,
    store: &S,
    hash: HashKind,
    nodes: &mut Vec<Node>,
    at: usize,
    name: &[u8],
) -> Result<usize, EditError>
    requires kind { hash ≡ (S.state store.now).hash }
    requires within { at < vec_len nodes.old }
    ensures ok { IfOk result (Pushes (S.state store.now) (places_of nodes.old.items) (name_at (slice_get
        (places_of nodes.old.items) at) name.now) (places_of nodes.new.items)) }
    ensures err { OnErr result (places_of nodes.new.items ≡ places_of nodes.old.items) }
    ensures refused { IfErr result (LoadRefused (S.state store.now) (name_at (slice_get
        (places_of nodes.old.items) at) name.now)) }
{
    let node = load(alloc, store, hash, name_at(nodes, at, name))?;
    let inner = nodes.len();
    nodes.push(node)?;
    Ok(inner)
}

/// Loads the directory of a name into the one at a place, and answers its own place.
pub(super) fn open<S: Objects>(
    alloc: Global,
    store: &S,
    hash: HashKind,
    nodes: &mut Vec<Node>,
    at: usize,
    name: &[u8],
) -> Result<usize, EditError>
    requires kind { hash ≡ (S.state store.now).hash }
    requires within { at < vec_len nodes.old }
    requires links { AreLinked (places_of nodes.old.items) }
    requires fresh { inner_at (slice_get (places_of nodes.old.items) at) name.now ≡ None }
    ensures ok { IfOk result (Opens (S.state store.now) (places_of nodes.old.items) at name.now
        (places_of nodes.new.items)) }
    ensures err { OnErr result (Keeps (places_of nodes.old.items) (places_of nodes.new.items)) }
    ensures refused { IfErr result (LoadRefused (S.state store.now) (name_at (slice_get
        (places_of nodes.old.items) at) name.now)) }
{
    let inner = push_loaded(alloc, store, hash, nodes, at, name)?;
    link_at(alloc, hash, nodes, at, name, inner)?;
    Ok(inner)
}

/// Loads each directory on the way to the last name. Answers the last one's place, and that name.
fn descend<'a, S: Objects>(
    alloc: Global,
    store: &S,
    hash: HashKind,
    nodes: &mut Vec<Node>,
    from: usize,
    path: &'a [u8],
) -> Result<(usize, &'a [u8]), EditError>
    requires kind { hash ≡ (S.state store.now).hash }
    requires within { from < vec_len nodes.old }
    requires links { AreLinked (places_of nodes.old.items) }
    requires fresh { (n : List ℕ) → inner_at (slice_get (places_of nodes.old.items) from) n ≡ None }
    ensures ok { IfOk result (λ end. Descends (S.state store.now) (places_of nodes.old.items) from
        (components path.now) (places_of nodes.new.items) end.0 end.1.now) }
    ensures err { OnErr result (KeepsOthers (places_of nodes.old.items) from (places_of nodes.new.items)) }
    ensures refused { IfErr result (WayRefused (S.state store.now) (view_at (places_of nodes.old.items) from)
        (components path.now)) }
{
    let mut at = from;
    let mut rest = path;
    while let Some((name, below)) = split_first_name(rest) {
        at = open(alloc, store, hash, nodes, at, name)?;
        rest = below;
    }
    Ok((at, rest))
}

/// Puts an item at a path below a directory in which no other is loaded.
fn put_inside<S: Objects>(
    alloc: Global,
    store: &S,
    hash: HashKind,
    nodes: &mut Vec<Node>,
    from: usize,
    path: &[u8],
    item: Item,
) -> Result<(), EditError>
    requires kind { hash ≡ (S.state store.now).hash }
    requires within { from < vec_len nodes.old }
    requires links { AreLinked (places_of nodes.old.items) }
    requires fresh { (n : List ℕ) → inner_at (slice_get (places_of nodes.old.items) from) n ≡ None }
    ensures ok { OnOk result (Makes (S.state store.now) (places_of nodes.old.items) from
        (λ load. upserted (S.state store.now).hash load (view_at (places_of nodes.old.items) from)
        (components path.now) item) (places_of nodes.new.items)) }
    ensures err { OnErr result (KeepsOthers (places_of nodes.old.items) from (places_of nodes.new.items)) }
    ensures refused { IfErr result (WayRefused (S.state store.now) (view_at (places_of nodes.old.items) from)
        (components path.now)) }
{
    let (last, end) = descend(alloc, store, hash, nodes, from, path)?;
    put_at(alloc, nodes, last, end, item)?;
    Ok(())
}

/// Puts an item at a path whose first directory is not loaded in the one at the place. That is linked last of all, so
/// that a refusal before changes nothing.
fn put_below<S: Objects>(
    alloc: Global,
    store: &S,
    hash: HashKind,
    nodes: &mut Vec<Node>,
    at: usize,
    name: &[u8],
    path: &[u8],
    item: Item,
) -> Result<(), EditError>
    requires kind { hash ≡ (S.state store.now).hash }
    requires within { at < vec_len nodes.old }
    requires links { AreLinked (places_of nodes.old.items) }
    requires fresh { inner_at (slice_get (places_of nodes.old.items) at) name.now ≡ None }
    ensures ok { OnOk result (Makes (S.state store.now) (places_of nodes.old.items) at
        (λ load. upserted (S.state store.now).hash load (view_at (places_of nodes.old.items) at)
        (name.now ∷ components path.now) item) (places_of nodes.new.items)) }
    ensures err { OnErr result (Keeps (places_of nodes.old.items) (places_of nodes.new.items)) }
    ensures refused { IfErr result (WayRefused (S.state store.now) (view_at (places_of nodes.old.items) at)
        (name.now ∷ components path.now)) }
{
    let inner = push_loaded(alloc, store, hash, nodes, at, name)?;
    put_inside(alloc, store, hash, nodes, inner, path, item)?;
    link_at(alloc, hash, nodes, at, name, inner)?;
    Ok(())
}

/// Puts an item at a path that has no empty name.
fn put_named<S: Objects>(
    alloc: Global,
    store: &S,
    hash: HashKind,
    nodes: &mut Vec<Node>,
    path: &[u8],
    item: Item,
) -> Result<(), EditError>
    requires kind { hash ≡ (S.state store.now).hash }
    requires links { AreLinked (places_of nodes.old.items) }
    ensures ok { OnOk result (Edits (S.state store.now) (places_of nodes.old.items)
        (λ load. upserted (S.state store.now).hash load (view_at (places_of nodes.old.items) 0)
        (components path.now) item) (places_of nodes.new.items)) }
    ensures err { OnErr result (Keeps (places_of nodes.old.items) (places_of nodes.new.items)) }
    ensures refused { IfErr result (WayRefused (S.state store.now) (view_at (places_of nodes.old.items) 0)
        (components path.now)) }
{
    let (at, rest) = follow(nodes, path);
    match split_first_name(rest) {
        None => Ok(put_at(alloc, nodes, at, rest, item)?),
        Some((name, below)) => put_below(alloc, store, hash, nodes, at, name, below, item),
    }
}

/// Puts an item at a path. After a refusal all is as before.
pub(super) fn put_path<S: Objects>(
    alloc: Global,
    store: &S,
    hash: HashKind,
    nodes: &mut Vec<Node>,
    path: &[u8],
    item: Item,
) -> Result<(), EditError>
    requires kind { hash ≡ (S.state store.now).hash }
    requires links { AreLinked (places_of nodes.old.items) }
    ensures ok { OnOk result (Edits (S.state store.now) (places_of nodes.old.items)
        (λ load. upserted (S.state store.now).hash load (view_at (places_of nodes.old.items) 0)
        (components path.now) item) (places_of nodes.new.items)) }
    ensures named { OnOk result (has_empty_name (components path.now) ≡ false) }
    ensures err { OnErr result (places_of nodes.new.items ≡ places_of nodes.old.items) }
    ensures causes { IfErr result (EditCauses (S.state store.now) (view_at (places_of nodes.old.items) 0)
        (components path.now)) }
{
    if has_empty_name(path) {
        return Err(EditError::EmptyPathComponent);
    }
    let len = nodes.len();
    match put_named(alloc, store, hash, nodes, path, item) {
        Ok(()) => Ok(()),
        Err(refusal) => {
            nodes.truncate(len);
            Err(refusal)
        }
    }
}
