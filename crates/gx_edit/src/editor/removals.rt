// Removals at a path.
ghost use Rattle.std.specs.Prelude.{◌≡◌, ◌<◌, ◌∷◌, ℕ, List, None, IfOk, IfErr, OnOk, OnErr, MatchOption, true, false, if◌then◌else◌, length, slice_get, vec_len};
ghost use Rattle.gx_edit.specs.Path.{components};
ghost use Rattle.gx_edit.specs.PathList.{has_empty_name};
ghost use Rattle.gx_edit.specs.View.{leads, removed};
ghost use Rattle.gx_edit.specs.declared.error.EditError.TheVariants.{IsTree as is_tree};
ghost use Rattle.gx_edit.specs.Nodes.{places_of, view_at, name_at, inner_at, AreLinked, Keeps, KeepsOthers, Changes, taken, Leads, Stops, Makes, Edits, Spares, WayRefused, DropRefused, DropCauses};

use super::changes::{link_at, take_at};
use super::nodes::{Node, is_tree, name_at};
use super::paths::{follow, open, push_loaded};
use crate::EditError;
use crate::path::{has_empty_name, split_first_name};
use gx_hash::HashKind;
use gx_store::Objects;
use std::alloc::Global;

/// Loads each directory on the way to the last name, as far as there are any. Answers the last one's place and that
/// name, where the way leads there.
fn reach<'a, S: Objects>(
    alloc: Global,
    store: &S,
    hash: HashKind,
    nodes: &mut Vec<Node>,
    from: usize,
    path: &'a [u8],
) -> Result<Option<(usize, &'a [u8])>, EditError>
    requires kind { hash ≡ (S.state store.now).hash }
    requires within { from < vec_len nodes.old }
    requires links { AreLinked (places_of nodes.old.items) }
    requires fresh { (n : List ℕ) → inner_at (slice_get (places_of nodes.old.items) from) n ≡ None }
    ensures ok { IfOk result (λ found. MatchOption found (Stops (S.state store.now) (places_of nodes.old.items) from
        (components path.now) (places_of nodes.new.items)) (λ end. Leads (S.state store.now)
        (places_of nodes.old.items) from (components path.now) (places_of nodes.new.items) end.0 end.1.now)) }
    ensures err { OnErr result (KeepsOthers (places_of nodes.old.items) from (places_of nodes.new.items)) }
    ensures refused { IfErr result (WayRefused (S.state store.now) (view_at (places_of nodes.old.items) from)
        (components path.now)) }
{
    let mut at = from;
    let mut rest = path;
    while let Some((name, below)) = split_first_name(rest) {
        if !is_tree(&name_at(nodes, at, name)) {
            return Ok(None);
        }
        at = open(alloc, store, hash, nodes, at, name)?;
        rest = below;
    }
    Ok(Some((at, rest)))
}

/// Whether directories are spared and one stands at a name of the directory at a place.
fn is_spared(nodes: &[Node], at: usize, name: &[u8], spare: bool) -> bool
    requires { at < length nodes.now }
    ensures { result ≡ (if spare then leads (name_at (slice_get (places_of nodes.now) at) name.now) else false) }
{
    if spare {
        is_tree(&name_at(nodes, at, name))
    } else {
        false
    }
}

/// Takes away what stands at a name of the directory at a place, where directories are not spared or it is none.
fn take_entry(nodes: &mut Vec<Node>, at: usize, name: &[u8], spare: bool) -> Result<(), EditError>
    requires { at < vec_len nodes.old }
    ensures ok { OnOk result (Changes (places_of nodes.old.items) at (taken name.now) (places_of nodes.new.items)) }
    ensures spared { OnOk result (spare ≡ true → leads (name_at (slice_get
        (places_of nodes.old.items) at) name.now) ≡ false) }
    ensures err { OnErr result (places_of nodes.new.items ≡ places_of nodes.old.items) }
    ensures refused { IfErr result (λ error. (error ≡ is_tree) × (spare ≡ true)
        × (leads (name_at (slice_get (places_of nodes.old.items) at) name.now) ≡ true)) }
{
    if is_spared(nodes, at, name, spare) {
        return Err(EditError::IsTree);
    }
    take_at(nodes, at, name);
    Ok(())
}

/// Takes away what stands at a path below a directory in which no other is loaded.
fn drop_inside<S: Objects>(
    alloc: Global,
    store: &S,
    hash: HashKind,
    nodes: &mut Vec<Node>,
    from: usize,
    path: &[u8],
    spare: bool,
) -> Result<(), EditError>
    requires kind { hash ≡ (S.state store.now).hash }
    requires within { from < vec_len nodes.old }
    requires links { AreLinked (places_of nodes.old.items) }
    requires fresh { (n : List ℕ) → inner_at (slice_get (places_of nodes.old.items) from) n ≡ None }
    ensures ok { OnOk result (Makes (S.state store.now) (places_of nodes.old.items) from
        (λ load. removed (S.state store.now).hash load (view_at (places_of nodes.old.items) from)
        (components path.now)) (places_of nodes.new.items)) }
    ensures spared { OnOk result (Spares (S.state store.now) spare (view_at (places_of nodes.old.items) from)
        (components path.now)) }
    ensures err { OnErr result (KeepsOthers (places_of nodes.old.items) from (places_of nodes.new.items)) }
    ensures refused { IfErr result (DropRefused (S.state store.now) spare (view_at (places_of nodes.old.items) from)
        (components path.now)) }
{
    match reach(alloc, store, hash, nodes, from, path)? {
        None => Ok(()),
        Some((last, end)) => take_entry(nodes, last, end, spare),
    }
}

/// Takes away what stands at a path whose first directory is not loaded in the one at the place.
fn drop_below<S: Objects>(
    alloc: Global,
    store: &S,
    hash: HashKind,
    nodes: &mut Vec<Node>,
    at: usize,
    name: &[u8],
    path: &[u8],
    spare: bool,
) -> Result<(), EditError>
    requires kind { hash ≡ (S.state store.now).hash }
    requires within { at < vec_len nodes.old }
    requires links { AreLinked (places_of nodes.old.items) }
    requires fresh { inner_at (slice_get (places_of nodes.old.items) at) name.now ≡ None }
    ensures ok { OnOk result (Makes (S.state store.now) (places_of nodes.old.items) at
        (λ load. removed (S.state store.now).hash load (view_at (places_of nodes.old.items) at)
        (name.now ∷ components path.now)) (places_of nodes.new.items)) }
    ensures spared { OnOk result (Spares (S.state store.now) spare (view_at (places_of nodes.old.items) at)
        (name.now ∷ components path.now)) }
    ensures err { OnErr result (Keeps (places_of nodes.old.items) (places_of nodes.new.items)) }
    ensures refused { IfErr result (DropRefused (S.state store.now) spare (view_at (places_of nodes.old.items) at)
        (name.now ∷ components path.now)) }
{
    if !is_tree(&name_at(nodes, at, name)) {
        return Ok(());
    }
    let inner = push_loaded(alloc, store, hash, nodes, at, name)?;
    drop_inside(alloc, store, hash, nodes, inner, path, spare)?;
    link_at(alloc, hash, nodes, at, name, inner)?;
    Ok(())
}

/// Takes away what stands at a path that has no empty name.
fn drop_named<S: Objects>(
    alloc: Global,
    store: &S,
    hash: HashKind,
    nodes: &mut Vec<Node>,
    path: &[u8],
    spare: bool,
) -> Result<(), EditError>
    requires kind { hash ≡ (S.state store.now).hash }
    requires links { AreLinked (places_of nodes.old.items) }
    ensures ok { OnOk result (Edits (S.state store.now) (places_of nodes.old.items)
        (λ load. removed (S.state store.now).hash load (view_at (places_of nodes.old.items) 0)
        (components path.now)) (places_of nodes.new.items)) }
    ensures spared { OnOk result (Spares (S.state store.now) spare (view_at (places_of nodes.old.items) 0)
        (components path.now)) }
    ensures err { OnErr result (Keeps (places_of nodes.old.items) (places_of nodes.new.items)) }
    ensures refused { IfErr result (DropRefused (S.state store.now) spare (view_at (places_of nodes.old.items) 0)
        (components path.now)) }
{
    let (at, rest) = follow(nodes, path);
    match split_first_name(rest) {
        None => take_entry(nodes, at, rest, spare),
        Some((name, below)) => drop_below(alloc, store, hash, nodes, at, name, below, spare),
    }
}

/// Takes away what stands at a path, with all below it; where directories are spared, a leaf alone. After a refusal
/// all is as before.
pub(super) fn drop_path<S: Objects>(
    alloc: Global,
    store: &S,
    hash: HashKind,
    nodes: &mut Vec<Node>,
    path: &[u8],
    spare: bool,
) -> Result<(), EditError>
    requires kind { hash ≡ (S.state store.now).hash }
    requires links { AreLinked (places_of nodes.old.items) }
    ensures ok { OnOk result (Edits (S.state store.now) (places_of nodes.old.items)
        (λ load. removed (S.state store.now).hash load (view_at (places_of nodes.old.items) 0)
        (components path.now)) (places_of nodes.new.items)) }
    ensures named { OnOk result (has_empty_name (components path.now) ≡ false) }
    ensures spared { OnOk result (Spares (S.state store.now) spare (view_at (places_of nodes.old.items) 0)
        (components path.now)) }
    ensures err { OnErr result (places_of nodes.new.items ≡ places_of nodes.old.items) }
    ensures causes { IfErr result (DropCauses (S.state store.now) spare (view_at (places_of nodes.old.items) 0)
        (components path.now)) }
{
    if has_empty_name(path) {
        return Err(EditError::EmptyPathComponent);
    }
    let len = nodes.len();
    match drop_named(alloc, store, hash, nodes, path, spare) {
        Ok(()) => Ok(()),
        Err(refusal) => {
            nodes.truncate(len);
            Err(refusal)
        }
    }
}
