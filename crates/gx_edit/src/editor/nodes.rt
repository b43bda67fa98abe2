// Loaded directories. They stand in a list, each after the one that it is loaded in, so that paths of any length
// cost no stack, and memory in proportion to what is loaded.
ghost use Rattle.std.specs.Prelude.{◌≡◌, ◌<◌, OnOk, OnErr, None, length, slice_get, option_map, if◌then◌else◌};
ghost use Rattle.gx_edit.specs.Editor.{entry_of, entry_named};
ghost use Rattle.std.specs.FinMap as fin;
ghost use Rattle.gx_edit.specs.Nodes.{place_of, places_of, map_in, name_at, inner_at};
ghost use Rattle.gx_edit.specs.View.{leads};

use super::entry_view::EntryView;
use super::item::Item;
use bstr::BStr;
use gx_hash::NoMemory;
use std::alloc::Global;
use std::collections::BTreeMap;

/// A loaded directory.
#[derive(Drop)]
pub(crate) struct Node {
    pub(super) names: BTreeMap<Vec<u8>, Item>,
    /// The places of the directories that are loaded in this one.
    pub(super) inner: BTreeMap<Vec<u8>, usize>,
}

pub(super) fn new_node(alloc: Global) -> Node
    ensures { place_of result ≡ record { names = fin.empty; inner = fin.empty } }
{
    Node {
        names: BTreeMap::new(alloc),
        inner: BTreeMap::new(alloc),
    }
}

pub(super) fn put_name(
    alloc: Global,
    names: &mut BTreeMap<Vec<u8>, Item>,
    name: &[u8],
    item: Item,
) -> Result<(), NoMemory>
    ensures ok { OnOk result (map_in names.new ≡ fin.insert (map_in names.old) name.now item) }
    ensures err { OnErr result (map_in names.new ≡ map_in names.old) }
{
    let key = Vec::from_slice(alloc, name)?;
    names.insert(key, item)?;
    Ok(())
}

fn put_place(
    alloc: Global,
    inner: &mut BTreeMap<Vec<u8>, usize>,
    name: &[u8],
    place: usize,
) -> Result<(), NoMemory>
    ensures ok { OnOk result (map_in inner.new ≡ fin.insert (map_in inner.old) name.now place) }
    ensures err { OnErr result (map_in inner.new ≡ map_in inner.old) }
{
    let key = Vec::from_slice(alloc, name)?;
    inner.insert(key, place)?;
    Ok(())
}

fn drop_name(names: &mut BTreeMap<Vec<u8>, Item>, name: &[u8])
    ensures { map_in names.new ≡ fin.remove (map_in names.old) name.now }
{
    let _ = names.remove(name);
}

fn drop_place(inner: &mut BTreeMap<Vec<u8>, usize>, name: &[u8])
    ensures { map_in inner.new ≡ fin.remove (map_in inner.old) name.now }
{
    let _ = inner.remove(name);
}

/// What stands at a name.
pub(super) fn name_in(names: &BTreeMap<Vec<u8>, Item>, name: &[u8]) -> Option<Item>
    ensures { result ≡ fin.get (map_in names.now) name.now }
{
    names.get(name).copied()
}

pub(super) fn place_in(inner: &BTreeMap<Vec<u8>, usize>, name: &[u8]) -> Option<usize>
    ensures { result ≡ fin.get (map_in inner.now) name.now }
{
    inner.get(name).copied()
}

/// The entry of a name, with the name as it is kept.
fn named_in<'a>(names: &'a BTreeMap<Vec<u8>, Item>, name: &[u8]) -> Option<EntryView<'a>>
    ensures { option_map entry_of result ≡ option_map (entry_named name.now) (fin.get (map_in names.now) name.now) }
{
    let (key, item) = names.get_key_value(name)?;
    Some(EntryView {
        mode: item.mode,
        filename: BStr::new(key.as_slice()),
        oid: item.id,
    })
}

pub(super) fn is_tree(item: &Option<Item>) -> bool
    ensures { result ≡ leads item.now }
{
    match item {
        Some(item) => item.mode.is_tree(),
        None => false,
    }
}

impl Node {
    ghost use Rattle.std.specs.Prelude.{◌≡◌, None, OnOk, OnErr, if◌then◌else◌};
    ghost use Rattle.std.specs.FinMap as fin;
    ghost use Rattle.gx_edit.specs.Nodes.{place_of};
    ghost use Rattle.gx_edit.specs.View.{leads};

    /// Puts an item at a name, and forgets the directory that was loaded there.
    pub(super) fn put(&mut self, alloc: Global, name: &[u8], item: Item) -> Result<(), NoMemory>
        ensures ok { OnOk result (place_of self.new ≡ record {
          names = fin.insert
              (place_of self.old).names name.now item;
          inner = fin.remove (place_of self.old).inner name.now;
        }) }
        ensures err { OnErr result (place_of self.new ≡ place_of self.old) }
    {
        put_name(alloc, &mut self.names, name, item)?;
        drop_place(&mut self.inner, name);
        Ok(())
    }

    /// Takes away what stands at a name, and forgets the directory that was loaded there.
    pub(super) fn take(&mut self, name: &[u8])
        ensures { place_of self.new ≡ record {
          names = fin.remove
              (place_of self.old).names name.now;
          inner = fin.remove (place_of self.old).inner name.now;
        } }
    {
        drop_name(&mut self.names, name);
        drop_place(&mut self.inner, name);
    }

    /// Notes where the directory of a name is loaded. Where no directory stands at the name, the item comes to.
    pub(super) fn link(
        &mut self,
        alloc: Global,
        name: &[u8],
        place: usize,
        item: Item,
    ) -> Result<(), NoMemory>
        requires { fin.get (place_of self.old).inner name.now ≡ None }
        ensures ok { OnOk result (place_of self.new ≡ record {
          names = (if leads (fin.get
              (place_of self.old).names name.now) then (place_of self.old).names else fin.insert
              (place_of self.old).names name.now item);
          inner = fin.insert (place_of self.old).inner name.now place;
        }) }
        ensures err { OnErr result (place_of self.new ≡ place_of self.old) }
    {
        put_place(alloc, &mut self.inner, name, place)?;
        if is_tree(&name_in(&self.names, name)) {
            return Ok(());
        }
        match put_name(alloc, &mut self.names, name, item) {
            Ok(()) => Ok(()),
            Err(refusal) => {
                drop_place(&mut self.inner, name);
                Err(refusal)
            }
        }
    }
}

/// What stands at a name of the directory at a place.
pub(super) fn name_at(nodes: &[Node], at: usize, name: &[u8]) -> Option<Item>
    requires { at < length nodes.now }
    ensures { result ≡ name_at (slice_get (places_of nodes.now) at) name.now }
{
    name_in(&nodes[at].names, name)
}

/// Where the directory of a name is loaded.
pub(super) fn inner_at(nodes: &[Node], at: usize, name: &[u8]) -> Option<usize>
    requires { at < length nodes.now }
    ensures { result ≡ inner_at (slice_get (places_of nodes.now) at) name.now }
{
    place_in(&nodes[at].inner, name)
}

/// The entry of a name of the directory at a place.
pub(super) fn entry_in<'a>(nodes: &'a [Node], at: usize, name: &[u8]) -> Option<EntryView<'a>>
    requires { at < length nodes.now }
    ensures { option_map entry_of result ≡ option_map (entry_named name.now) (name_at (slice_get
        (places_of nodes.now) at) name.now) }
{
    named_in(&nodes[at].names, name)
}
