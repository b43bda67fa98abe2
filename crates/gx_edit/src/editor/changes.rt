// Changes of one loaded directory in the list of all.
ghost use Rattle.std.specs.Prelude.{◌≡◌, ◌<◌, OnOk, OnErr, None, slice_get, vec_len};
ghost use Rattle.gx_edit.specs.View.{new_tree};
ghost use Rattle.gx_edit.specs.Nodes.{places_of, inner_at, Changes, put, taken, linked};

use super::item::Item;
use super::nodes::Node;
use gx_hash::{HashKind, NoMemory, ObjectId};
use gx_object::{EntryKind, EntryMode};
use std::alloc::Global;

/// A directory that is made for what is put into it.
fn new_tree(hash: HashKind) -> Item
    ensures { result ≡ new_tree hash }
{
    Item {
        mode: EntryMode::from(EntryKind::Tree),
        id: ObjectId::null(hash),
    }
}

pub(super) fn put_at(
    alloc: Global,
    nodes: &mut Vec<Node>,
    at: usize,
    name: &[u8],
    item: Item,
) -> Result<(), NoMemory>
    requires { at < vec_len nodes.old }
    ensures ok { OnOk result (Changes (places_of nodes.old.items) at (put name.now item) (places_of nodes.new.items)) }
    ensures err { OnErr result (places_of nodes.new.items ≡ places_of nodes.old.items) }
{
    nodes[at].put(alloc, name, item)
}

pub(super) fn take_at(nodes: &mut Vec<Node>, at: usize, name: &[u8])
    requires { at < vec_len nodes.old }
    ensures { Changes (places_of nodes.old.items) at (taken name.now) (places_of nodes.new.items) }
{
    nodes[at].take(name);
}

/// Links the directory at one place as that of a name in the directory at another.
pub(super) fn link_at(
    alloc: Global,
    hash: HashKind,
    nodes: &mut Vec<Node>,
    at: usize,
    name: &[u8],
    inner: usize,
) -> Result<(), NoMemory>
    requires within { at < vec_len nodes.old }
    requires fresh { inner_at (slice_get (places_of nodes.old.items) at) name.now ≡ None }
    ensures ok { OnOk result (Changes (places_of nodes.old.items) at (linked name.now inner (new_tree hash))
        (places_of nodes.new.items)) }
    ensures err { OnErr result (places_of nodes.new.items ≡ places_of nodes.old.items) }
{
    nodes[at].link(alloc, name, inner, new_tree(hash))
}
